//! Names, by what they mean. The name of a type is no expression.

ghost use Rattle.std.specs.Prelude.{◌≡◌, List, ℕ, Ok, Err};
ghost use Rattle.std.specs.List.{list_any};
ghost use Rattle.std.specs.Str.{bytes_eq};
ghost use Rattle.porch_types.specs.declared.shapes.Kind.TheVariants.{Int};
ghost use Rattle.porch_tree.specs.Mirror.{Name};
ghost use Rattle.porch_typed.specs.Mirror.{constant};
ghost use Rattle.porch_check.specs.Scopes as scopes;
ghost use Rattle.porch_check.specs.Operands.{Context as ContextOf, operand, typed_as};
ghost use Rattle.porch_check.specs.Calls.{function_form, name_form};
ghost use Rattle.porch_operands.specs.Answers.{answered};
ghost use Rattle.porch_operands.specs.Views.{as_form, as_library, as_typed, as_value};
ghost use Rattle.porch_leaves.specs.Contexts.{as_context};

use crate::constants::{constant_tree, value_of};
use crate::context::Context;
use porch_lex::{Refusal, Rule};
use porch_operands::{Form, Library, Typed, Value};
use porch_typed::Place;
use porch_types::Kind;

/// The name of a variable of this function.
pub fn variable<'t>(number: u32, shape: u32) -> Form<'t>
    ensures { (bodies : List (List ℕ)) (n : Name) (c : ContextOf) →
        name_form bodies n c (scopes.variable number shape) ≡ Ok (as_form result) }
{
    Form::Place(Place::Variable(number), shape)
}

/// The name of a global.
pub fn global<'t>(number: u32, shape: u32) -> Form<'t>
    ensures { (bodies : List (List ℕ)) (n : Name) (c : ContextOf) →
        name_form bodies n c (scopes.global number shape) ≡ Ok (as_form result) }
{
    Form::Place(Place::Global(number), shape)
}

/// The name of an enumeration constant.
pub fn enumerator(value: i128) -> Typed
    ensures { (bodies : List (List ℕ)) (n : Name) (c : ContextOf) →
        name_form bodies n c (scopes.enumerator value) ≡ Ok (operand (as_typed result)) }
{
    int(value, Value::Integer(Kind::Int))
}

/// `NULL`
pub fn null() -> Typed
    ensures { (bodies : List (List ℕ)) (n : Name) (c : ContextOf) →
        name_form bodies n c scopes.null ≡ Ok (operand (as_typed result)) }
{
    int(0, Value::NoAddress)
}

// An `int` constant, which is seen as this.
fn int(value: i128, seen: Value) -> Typed
    ensures { as_typed result ≡ typed_as (constant Int value) (as_value seen) }
{
    value_of(constant_tree(Kind::Int, value), seen)
}

/// The name of a function of the program, which is called, and has a body somewhere in the text.
pub fn function<'t>(
    at: u32,
    name: &'t [u8],
    context: Context,
    has_body: bool,
) -> Result<Form<'t>, Refusal>
    ensures { (bodies : List (List ℕ)) → has_body ≡ list_any (bytes_eq name.now) bodies →
        name_form bodies (record { at = at; bytes = name.now }) (as_context context)
        scopes.function ≡ answered as_form result }
{
    match context {
        Context::Called => callee(at, name, has_body),
        Context::Plain => Err(mismatch(at)),
        Context::Shown => Err(mismatch(at)),
        Context::AsSize => Err(mismatch(at)),
        Context::AsAllocation => Err(mismatch(at)),
    }
}

fn callee<'t>(at: u32, name: &'t [u8], has_body: bool) -> Result<Form<'t>, Refusal>
    ensures { (bodies : List (List ℕ)) → has_body ≡ list_any (bytes_eq name.now) bodies →
        function_form bodies (record { at = at; bytes = name.now }) (as_context Context.Called)
        ≡ answered as_form result }
{
    if has_body {
        Ok(Form::Callee(at, name))
    } else {
        Err(Refusal {
            at,
            rule: Rule::Unknown,
        })
    }
}

/// The name of a function of the library, which is called.
pub fn library_name<'t>(at: u32, context: Context, library: Library) -> Result<Form<'t>, Refusal>
    ensures { (bodies : List (List ℕ)) (name : List ℕ) →
        name_form bodies (record { at = at; bytes = name }) (as_context context)
        (scopes.library (as_library library)) ≡ answered as_form result }
{
    if context.is_called() {
        Ok(Form::LibraryCallee(library))
    } else {
        Err(mismatch(at))
    }
}

/// The name of a type, which is no expression.
pub fn type_name(at: u32) -> Refusal
    ensures { (bodies : List (List ℕ)) (name : List ℕ) (c : ContextOf) (shape : ℕ) →
        name_form bodies (record { at = at; bytes = name }) c (scopes.type_name shape)
        ≡ Err result }
{
    mismatch(at)
}

fn mismatch(at: u32) -> Refusal
    ensures { result ≡ record { at = at; rule = Rule.Mismatch } }
{
    Refusal {
        at,
        rule: Rule::Mismatch,
    }
}
