//! Words, from left to right.

ghost use Rattle.std.specs.Prelude.{◌≡◌, IfOk, MatchResult};
ghost use Rattle.std.specs.Option.{option_map};
ghost use Rattle.porch_words.specs.Orders.{Order as Ordered};
ghost use Rattle.porch_words.specs.Words.{IsOrder, texts};
ghost use Rattle.porch_words.specs.Orders.{IsLimited, nothing, order_seen, order_with};
ghost use Rattle.porch_words.specs.inside.Reading.{drill_of, given_seen, order_in, read};
ghost use Rattle.porch_words.specs.inside.Steps.{Takes, TakesNext, TakesValue};

use crate::command::{Command, command_of};
use crate::given::{Given, NOTHING, order_with, put};
use crate::option::{Key, Part, part_of};
use crate::order::{Order, Usage};
use crate::value::number_of;

/// The greatest number of `drill`.
pub(crate) const MOST_NUMBER: u64 = 999_999;

/// What the words of the command line order, the program's name left out. The answer is Usage exactly where they
/// order nothing. Takes no memory.
pub fn read_words(words: &[String]) -> Result<Order<'_>, Usage>
    // Words order at most one thing, and it is that.
    ensures read { IfOk result (λ order. IsOrder (texts words.now) (order_seen order)) }
    ensures only { (o : Ordered) → IsOrder (texts words.now) o
        → MatchResult result (λ order. order_seen order ≡ o) (λ usage. ⊥) }
    ensures limited { IfOk result (λ order. IsLimited (order_seen order)) }
{
    match order_in(words) {
        Some(order) => Ok(order),
        None => Err(Usage),
    }
}

fn order_in(words: &[String]) -> Option<Order<'_>>
    ensures { option_map order_seen result ≡ order_in (texts words.now) }
{
    let (word, behind) = words.split_first()?;
    if word.as_str() == "drill" {
        return drill_of(behind);
    }
    order_of(command_of(word.as_str())?, behind)
}

fn order_of(command: Command, words: &[String]) -> Option<Order<'_>>
    ensures { option_map order_seen result
        ≡ option_map (order_with command) (read command nothing (texts words.now)) }
{
    let given = read_options(command, words)?;
    Some(order_with(command, &given))
}

fn drill_of(words: &[String]) -> Option<Order<'_>>
    ensures { option_map order_seen result ≡ drill_of (texts words.now) }
{
    match words {
        [word] => Some(Order::Drill {
            number: number_of(word.as_str(), 0, MOST_NUMBER)? as u32,
        }),
        _ => None,
    }
}

/// What the options of a command give.
fn read_options(command: Command, words: &[String]) -> Option<Given<'_>>
    ensures { option_map given_seen result ≡ read command nothing (texts words.now) }
{
    let mut taken = Taken {
        given: NOTHING,
        rest: words,
    };
    while let Some((word, behind)) = taken.rest.split_first() {
        taken = take_option(command, taken.given, word.as_str(), behind)?;
    }
    Some(taken.given)
}

/// What is given so far, and the words that are left.
#[derive(Clone, Copy)]
pub(crate) struct Taken<'w> {
    given: Given<'w>,
    rest: &'w [String],
}

/// Takes one option, which is a word or two.
fn take_option<'w>(
    command: Command,
    given: Given<'w>,
    word: &'w str,
    behind: &'w [String],
) -> Option<Taken<'w>>
    ensures { Takes command (given_seen given.entry) word.now behind.now result }
{
    match part_of(word) {
        Part::Joined(key, value) => take_value(command, given, key, value, behind),
        Part::Apart(key) => take_next(command, given, key, behind),
        Part::Neither => None,
    }
}

/// Takes the next word as the value of an option.
fn take_next<'w>(
    command: Command,
    given: Given<'w>,
    key: Key,
    words: &'w [String],
) -> Option<Taken<'w>>
    ensures { TakesNext command (given_seen given.entry) key words.now result }
{
    let (value, rest) = words.split_first()?;
    take_value(command, given, key, value.as_str(), rest)
}

fn take_value<'w>(
    command: Command,
    given: Given<'w>,
    key: Key,
    value: &'w str,
    rest: &'w [String],
) -> Option<Taken<'w>>
    ensures { TakesValue command (given_seen given.entry) key value.now rest.now result }
{
    Some(Taken {
        given: put(command, given, key, value)?,
        rest,
    })
}
