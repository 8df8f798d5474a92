//! Forms, taken apart and made.

ghost use Rattle.std.specs.Prelude.{◌≡◌, MatchOption, false};
ghost use Rattle.porch_typed.specs.Views.{place_of};
ghost use Rattle.porch_check.specs.Operands.{place};
ghost use Rattle.porch_operands.specs.Views.{as_form};
ghost use Rattle.porch_access.specs.Forms.{is_place};

use porch_nodes::places::Object;
use porch_operands::Form;
use porch_rows::{drop_place, drop_tree};

/// The place that a form is, with the type of what is there.
pub fn take_place<'t>(form: Form<'t>) -> Option<Object>
    ensures { MatchOption result (is_place (as_form form.entry) ≡ false)
        (λ o. as_form form.entry ≡ place (place_of o.place) o.shape) }
{
    match form {
        Form::Place(place, shape) => Some(Object { place, shape }),
        Form::Operand(x) => {
            drop_tree(x.tree);
            None
        }
        Form::Sized(count, _) => {
            drop_tree(count.tree);
            None
        }
        Form::Literal(_) => None,
        Form::Size(_) => None,
        Form::Callee(_, _) => None,
        Form::LibraryCallee(_) => None,
    }
}

/// Lets go of a form in one place.
pub fn drop_form<'t>(form: Form<'t>) {
    match form {
        Form::Operand(x) => drop_tree(x.tree),
        Form::Place(place, _) => drop_place(place),
        Form::Sized(count, _) => drop_tree(count.tree),
        Form::Literal(_) => {}
        Form::Size(_) => {}
        Form::Callee(_, _) => {}
        Form::LibraryCallee(_) => {}
    }
}
