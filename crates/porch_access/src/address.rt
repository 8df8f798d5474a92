//! `&`, `++` and `--`.

ghost use Rattle.std.specs.Prelude.{◌≡◌, IfOk, IfErr, Ok};
ghost use Rattle.porch_typed.specs.Views.{expression_of, place_of};
ghost use Rattle.porch_typed.specs.Mirror.{increment};
ghost use Rattle.porch_typed.specs.Mirror as tree;
ghost use Rattle.porch_check.specs.Operands.{operand, typed_as};
ghost use Rattle.porch_check.specs.Operands as operands;
ghost use Rattle.porch_check.specs.Operators.{address_form, increment_form};
ghost use Rattle.porch_operands.specs.Views.{as_form, as_typed};
ghost use Rattle.porch_nodes.specs.Answers.{Refuses};
ghost use Rattle.porch_access.specs.inside.Places.{address_of, increment_of};

use crate::forms::take_place;
use porch_lex::{Refusal, Rule, SourceFault};
use porch_nodes::places::Object;
use porch_nodes::unary;
use porch_operands::{Form, Table, Typed, Value};
use porch_rows::drop_place;
use porch_typed::{Direction, Expression};
use std::alloc::AllocError;

/// `&` in front of a place. `of` is where the operand begins.
#[tactic(auto, using(crate::proofs::Elsewhere::no_address))]
pub fn address<'t, T: Table>(of: u32, form: Form<'t>, table: &mut T) -> Result<Typed, SourceFault>
    ensures made { IfOk result (λ x. address_form of (as_form form.entry) (T.scopes table.old)
        ≡ Ok (operand (as_typed x), T.scopes table.new)) }
    ensures refused { IfErr result (λ f. Refuses f
        (address_form of (as_form form.entry) (T.scopes table.old))) }
{
    match take_place(form) {
        Some(object) => Ok(address_of(object, table)?),
        None => Err(SourceFault::Refused(Refusal {
            at: of,
            rule: Rule::NotPlace,
        })),
    }
}

fn address_of<T: Table>(object: Object, table: &mut T) -> Result<Typed, AllocError>
    ensures { IfOk result (λ x.
        address_of (place_of object.place) object.shape (T.scopes table.old)
        ≡ Ok (operand (as_typed x), T.scopes table.new)) }
{
    match table.pointer_to(object.shape) {
        Ok(pointer) => Ok(address_value(pointer, object)),
        Err(error) => {
            drop_place(object.place);
            Err(error)
        }
    }
}

fn address_value(pointer: u32, object: Object) -> Typed
    ensures { as_typed result ≡ typed_as (tree.address pointer (place_of object.place))
        (operands.address pointer object.shape) }
{
    let value = Value::Address {
        shape: pointer,
        to: object.shape,
    };
    unary::value_of(Expression::Address(pointer, object.place), value)
}

/// `++` and `--` in front of a place, or behind it. `at` is where the whole begins, `of` the operand.
#[tactic(auto, using(crate::proofs::Elsewhere::no_increment))]
pub fn increment<'t, T: Table>(
    before: bool,
    way: Direction,
    at: u32,
    of: u32,
    form: Form<'t>,
    table: &T,
) -> Result<Typed, SourceFault>
    ensures made { IfOk result (λ x.
        increment_form before way at of (as_form form.entry) (T.scopes table.now)
        ≡ Ok (operand (as_typed x))) }
    ensures refused { IfErr result (λ f. Refuses f
        (increment_form before way at of (as_form form.entry) (T.scopes table.now))) }
{
    match take_place(form) {
        Some(object) => increment_object(before, way, at, object, table),
        None => Err(SourceFault::Refused(Refusal {
            at: of,
            rule: Rule::NotPlace,
        })),
    }
}

fn increment_object<T: Table>(
    before: bool,
    way: Direction,
    at: u32,
    object: Object,
    table: &T,
) -> Result<Typed, SourceFault>
    ensures made { IfOk result (λ x.
        increment_of before way at (place_of object.place) object.shape (T.scopes table.now)
        ≡ Ok (operand (as_typed x))) }
    ensures refused { IfErr result (λ f. Refuses f
        (increment_of before way at (place_of object.place) object.shape
        (T.scopes table.now))) }
{
    match porch_operands::unary::increment(at, object.shape, table) {
        Ok(value) => Ok(unary::value_of(increment_tree(before, way, object), value)),
        Err(refusal) => {
            drop_place(object.place);
            Err(SourceFault::Refused(refusal))
        }
    }
}

fn increment_tree(before: bool, way: Direction, object: Object) -> Expression
    ensures { expression_of result
        ≡ increment object.shape before way (place_of object.place) }
{
    Expression::Increment {
        ty: object.shape,
        before,
        way,
        place: object.place,
    }
}
