//! The bytes of a format, one after another, with the arguments that they take.

ghost use Rattle.std.specs.Prelude.{◌≡◌, List, ◌∷◌, map, true, false, is_some, Ok, IfOk, IfErr, OnOk};
ghost use Rattle.porch_typed.specs.Views.{print_of};
ghost use Rattle.porch_typed.specs.Views as views;
ghost use Rattle.porch_check.specs.Calls.{Argument as ArgumentOf, Directive, directives, in_text, prints_of};
ghost use Rattle.porch_nodes.specs.Answers.{Refuses};
ghost use Rattle.porch_literals.specs.Directives.{as_completed, as_directive};
ghost use Rattle.porch_arguments.specs.Views.{as_argument, left};
ghost use Rattle.porch_formats.specs.inside.Shown.{behind_completed, directives_of, with_run};
ghost use Rattle.porch_formats.specs.inside.Showing.{shows};

use crate::argument::show;
use crate::pieces::{Pieces, add_byte, add_piece, end_pieces, no_pieces};
use porch_arguments::{Argument, take_first};
use porch_lex::SourceFault;
use porch_literals::directive::{Completed, Mode, Shown, complete, mode_behind};
use porch_operands::Table;
use porch_typed::Print;
use sqlite_items::Items;
use std::alloc::Global;

/// What a format without another conversion shows of its arguments, of which the first stands last.
#[tactic(auto, using(crate::proofs::Read::known_more, crate::proofs::Read::made_more, crate::proofs::Laid::at_end, crate::proofs::Laid::none_shown))]
pub(crate) fn show_all<'t, T: Table>(
    alloc: Global,
    format: &[u8],
    turned: Items<Argument<'t>>,
    table: &mut T,
) -> Result<Items<Print>, SourceFault>
    requires known { is_some (directives in_text format.now) ≡ true }
    ensures made { IfOk result (λ ps.
        prints_of (directives_of in_text format.now) (left turned.entry)
        (T.scopes table.old) ≡ Ok (views.prints_of (map print_of ps), T.scopes table.new)) }
    ensures refused { IfErr result (λ f. Refuses f
        (prints_of (directives_of in_text format.now) (left turned.entry)
        (T.scopes table.old))) }
{
    let mut turned = turned;
    let mut pieces = no_pieces(alloc);
    let mut mode = Mode::Text;
    for byte in format {
        let completed = complete(mode, *byte);
        mode = mode_behind(completed);
        if !show_completed(alloc, completed, &mut turned, &mut pieces, table)? {
            return Ok(end_pieces(pieces)?);
        }
    }
    Ok(end_pieces(pieces)?)
}

// Shows what a byte completes. It answers false where an argument is taken and none is left.
#[tactic(auto, using(crate::proofs::Laid::one_byte, crate::proofs::Laid::none_left, crate::proofs::Others::takes_one))]
fn show_completed<'t, T: Table>(
    alloc: Global,
    completed: Completed,
    turned: &mut Items<Argument<'t>>,
    pieces: &mut Pieces,
    table: &mut T,
) -> Result<bool, SourceFault>
    ensures shown { IfOk result (λ goes_on. goes_on ≡ true → (ds : List Directive) →
        shows pieces.new (left turned.new) ds (T.scopes table.new)
        ≡ shows pieces.old (left turned.old) (behind_completed (as_completed completed) ds)
        (T.scopes table.old)) }
    ensures ended { IfOk result (λ goes_on. goes_on ≡ false → (ds : List Directive) →
        shows pieces.old (left turned.old) (behind_completed (as_completed completed) ds)
        (T.scopes table.old) ≡ Ok (
          views.prints_of
              (with_run (map print_of pieces.new.prints) pieces.new.run),
          T.scopes table.new,
        )) }
    ensures refused { IfErr result (λ f. (ds : List Directive) → Refuses f
        (shows pieces.old (left turned.old) (behind_completed (as_completed completed) ds)
        (T.scopes table.old))) }
{
    match completed {
        Completed::Byte(byte) => {
            add_byte(pieces, byte)?;
            Ok(true)
        }
        Completed::Taken(how) => match take_first(turned) {
            Some(argument) => {
                show_taken(alloc, how, argument, pieces, table)?;
                Ok(true)
            }
            None => Ok(false),
        },
        Completed::NotYet(_) => Ok(true),
        Completed::NoneSuch => Ok(true),
    }
}

#[tactic(auto, using(crate::proofs::Laid::one_piece, crate::proofs::Laid::broken, crate::proofs::Others::takes_one))]
fn show_taken<'t, T: Table>(
    alloc: Global,
    how: Shown,
    argument: Argument<'t>,
    pieces: &mut Pieces,
    table: &mut T,
) -> Result<(), SourceFault>
    ensures shown { OnOk result ((args : List ArgumentOf) (ds : List Directive) →
        shows pieces.new args ds (T.scopes table.new)
        ≡ shows pieces.old (as_argument argument.entry ∷ args) (as_directive how ∷ ds)
        (T.scopes table.old)) }
    ensures refused { IfErr result (λ f. (args : List ArgumentOf) (ds : List Directive) →
        Refuses f (shows pieces.old (as_argument argument.entry ∷ args) (as_directive how ∷ ds)
        (T.scopes table.old))) }
{
    let piece = show(alloc, how, argument, table)?;
    add_piece(alloc, pieces, piece)?;
    Ok(())
}
