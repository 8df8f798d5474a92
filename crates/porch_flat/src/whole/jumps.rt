//! The rule Jump of a command. No call takes memory.

ghost use Rattle.std.specs.Prelude.{◌≡◌, ◌<◌, ◌&&◌, ℕ, length, slice_get, Some, IfSome};
ghost use Rattle.porch_flat.specs.Labelled.{place_in};
ghost use Rattle.porch_flat.specs.whole.Form.{form_of, is_turn, jump_of};
ghost use Rattle.porch_flat.specs.whole.Places.{place_of_label};
ghost use Rattle.porch_flat.specs.whole.Rewritten.{passes, same_number};
ghost use Rattle.porch_flat.specs.whole.Rules.{leads_well, may_lead, stands_once};
ghost use Rattle.porch_flat.specs.whole.Views.{view_of};

use crate::whole::form::{Form, is_turn_command};
use crate::whole::labels::Labels;
use crate::whole::{Command, Function};

/// Whether a jump leads where it may, and whether a label stands only once.
pub(crate) fn keeps_jump(f: &Function, labels: &Labels, at: usize, form: &Form<'_>) -> bool
    requires { (n : ℕ) → place_in labels.now n ≡ place_of_label f.now.commands n }
    ensures { result ≡ (leads_well f.now at (jump_of (view_of form.now))
        && stands_once f.now at (view_of form.now)) }
{
    match form {
        Form::Label(n) => stands_first(f, labels, at, *n),
        Form::Jump(n) | Form::Branch(_, n) => may_lead(f, at, place_of_number(f, labels, *n)),
        Form::Move(_, _)
        | Form::Cast(_, _)
        | Form::Operator(_, _, _, _)
        | Form::Complement(_, _)
        | Form::Comparison(_, _, _, _)
        | Form::Subobject(_, _, _)
        | Form::Step(_, _, _, _)
        | Form::Difference(_, _, _)
        | Form::Load(_, _)
        | Form::Store(_, _)
        | Form::Copy(_, _)
        | Form::Kill(_)
        | Form::Allocate(_, _, _)
        | Form::Free(_)
        | Form::Show(_, _, _)
        | Form::Text(_, _)
        | Form::Turn
        | Form::Call(_, _, _)
        | Form::Return(_)
        | Form::Checkpoint
        | Form::Restore(_)
        | Form::Table(_, _)
        | Form::Saved(_, _)
        | Form::Push(_) => true,
    }
}

#[tactic(auto, using(crate::proofs::LabelPlaces::place_within))]
fn place_of_number(f: &Function, labels: &Labels, n: u32) -> Option<usize>
    requires { (m : ℕ) → place_in labels.now m ≡ place_of_label f.now.commands m }
    ensures place { result ≡ place_of_label f.now.commands n }
    ensures within { IfSome result (λ to. to < length f.now.commands) }
{
    labels.place(n)
}

fn stands_first(f: &Function, labels: &Labels, at: usize, n: u32) -> bool
    requires { (m : ℕ) → place_in labels.now m ≡ place_of_label f.now.commands m }
    ensures { result ≡ same_number (place_of_label f.now.commands n) (Some at) }
{
    match place_of_number(f, labels, n) {
        Some(place) => place == at,
        None => false,
    }
}

fn may_lead(f: &Function, at: usize, to: Option<usize>) -> bool
    requires { IfSome to (λ place. place < length f.now.commands) }
    ensures { result ≡ may_lead f.now at to }
{
    match to {
        Some(place) => at < place || is_turn_at(f.commands.as_slice(), place + 1),
        None => false,
    }
}

fn is_turn_at(commands: &[Command], place: usize) -> bool
    ensures { result ≡ passes (λ c. is_turn (form_of c)) (slice_get commands.now place) }
{
    match commands.get(place) {
        Some(command) => is_turn_command(command),
        None => false,
    }
}
