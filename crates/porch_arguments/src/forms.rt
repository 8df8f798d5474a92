//! Literals among forms, and pointers to `char` among values.

ghost use Rattle.std.specs.Prelude.{◌≡◌, false, IfOk, IfErr};
ghost use Rattle.porch_check.specs.Scopes.{Scopes};
ghost use Rattle.porch_check.specs.Operands.{literal};
ghost use Rattle.porch_check.specs.Calls.{is_char_pointer};
ghost use Rattle.porch_operands.specs.Views.{as_form, as_value};
ghost use Rattle.porch_arguments.specs.Literals.{is_literal};

use porch_operands::{Form, Value};
use porch_types::Kind;
use sqlite_items::Items;

/// The characters of a literal, or else the form itself.
pub fn take_literal<'t>(form: Form<'t>) -> Result<Items<u8>, Form<'t>>
    ensures characters { IfOk result (λ bs. as_form form.entry ≡ literal bs) }
    ensures same { IfErr result (λ f. as_form f ≡ as_form form.entry) }
    ensures other { IfErr result (λ f. is_literal (as_form f) ≡ false) }
{
    match form {
        Form::Literal(characters) => Ok(characters),
        Form::Operand(x) => Err(Form::Operand(x)),
        Form::Place(place, shape) => Err(Form::Place(place, shape)),
        Form::Size(shape) => Err(Form::Size(shape)),
        Form::Sized(count, shape) => Err(Form::Sized(count, shape)),
        Form::Callee(at, name) => Err(Form::Callee(at, name)),
        Form::LibraryCallee(library) => Err(Form::LibraryCallee(library)),
    }
}

/// Whether a value points to `char`.
pub fn is_char_pointer(value: Value) -> bool
    ensures { (s : Scopes) → result ≡ is_char_pointer s (as_value value) }
{
    match value {
        Value::Address { shape: _, to } => to == Kind::Char.number(),
        Value::Integer(_) | Value::NoAddress => false,
        Value::Record(_) | Value::Nothing => false,
    }
}
