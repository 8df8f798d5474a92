//! How many arguments a format takes.

ghost use Rattle.std.specs.Prelude.{◌≡◌, ◌≤◌, if◌then◌else◌, []};
ghost use Rattle.std.specs.Option.{option_map};
ghost use Rattle.porch_check.specs.Calls.{count_taken, directives, in_text, is_taken};
ghost use Rattle.porch_literals.specs.Directives.{as_completed, as_directive, as_mode};
ghost use Rattle.porch_literals.specs.inside.Counts.{counted, is_none_such, taken_by};

use crate::directive::{Completed, Mode, Shown, complete, is_in_text, mode_behind};

/// How many arguments a format takes, or none where it has another conversion.
#[tactic(auto, using(crate::proofs::Counted::counted_is))]
pub fn count_arguments(format: &[u8]) -> Option<usize>
    ensures { result ≡ option_map count_taken (directives in_text format.now) }
{
    count_bytes(format)
}

fn count_bytes(format: &[u8]) -> Option<usize>
    ensures { result ≡ counted in_text 0 format.now }
{
    let mut mode = Mode::Text;
    let mut count = 0usize;
    for byte in format {
        let completed = complete(mode, *byte);
        if is_none_such(completed) {
            return None;
        }
        count += taken_by(completed);
        mode = mode_behind(completed);
    }
    count_at_end(mode, count)
}

fn count_at_end(mode: Mode, count: usize) -> Option<usize>
    ensures { result ≡ counted (as_mode mode) count [] }
{
    if is_in_text(mode) { Some(count) } else { None }
}

fn is_none_such(completed: Completed) -> bool
    ensures { result ≡ is_none_such (as_completed completed) }
{
    match completed {
        Completed::NoneSuch => true,
        Completed::Byte(_) => false,
        Completed::Taken(_) => false,
        Completed::NotYet(_) => false,
    }
}

fn taken_by(completed: Completed) -> usize
    ensures taken { result ≡ taken_by (as_completed completed) }
    ensures most { result ≤ 1 }
{
    match completed {
        Completed::Taken(shown) => taken_by_conversion(shown),
        Completed::Byte(_) => 0,
        Completed::NotYet(_) => 0,
        Completed::NoneSuch => 0,
    }
}

fn taken_by_conversion(shown: Shown) -> usize
    ensures taken { result ≡ (if is_taken (as_directive shown) then 1 else 0) }
    ensures most { result ≤ 1 }
{
    match shown {
        Shown::Number(_) => 1,
        Shown::Text => 1,
    }
}
