//! The value of an object.

ghost use Rattle.std.specs.Prelude.{◌≡◌, IfOk, IfErr, Ok};
ghost use Rattle.porch_typed.specs.Views.{expression_of, place_of};
ghost use Rattle.porch_typed.specs.Mirror.{Place as PlaceTree};
ghost use Rattle.porch_check.specs.Shapes.{Shape, shape_of};
ghost use Rattle.porch_check.specs.Operands.{read_value, value_of};
ghost use Rattle.porch_operands.specs.Views.{as_form, as_typed, class_of};
ghost use Rattle.porch_nodes.specs.Answers.{Refuses};
ghost use Rattle.porch_access.specs.Readings.{read_tree, read_with};

use porch_lex::{Refusal, Rule, SourceFault};
use porch_nodes::unary;
use porch_operands::{Class, Form, Table, Typed, Value};
use porch_rows::{drop_place, drop_tree};
use porch_typed::{Expression, Place};
use std::alloc::AllocError;

/// How an object is read.
#[derive(Clone, Copy, Debug, PartialEq, Eq)]
pub enum How {
    /// An array, as a pointer to its first element.
    First,
    /// A struct, as its place.
    Whole,
    Scalar,
}

/// The value of an object: how it is read, with its type or for an array that of the pointer.
#[derive(Clone, Copy, Debug, PartialEq, Eq)]
pub struct Reading {
    pub how: How,
    pub shape: u32,
    pub value: Value,
}

/// The value of a form where one is needed, by the place of its text.
pub fn value_in<'t, T: Table>(at: u32, form: Form<'t>, table: &mut T) -> Result<Typed, SourceFault>
    ensures made { IfOk result (λ x. value_of at (as_form form.entry) (T.scopes table.old)
        ≡ Ok (as_typed x, T.scopes table.new)) }
    ensures refused { IfErr result (λ f. Refuses f
        (value_of at (as_form form.entry) (T.scopes table.old))) }
{
    match form {
        Form::Operand(x) => Ok(x),
        Form::Place(place, shape) => Ok(read(place, shape, table)?),
        Form::Literal(_) => Err(SourceFault::Refused(mismatch(at))),
        Form::Size(_) => Err(SourceFault::Refused(mismatch(at))),
        Form::Sized(count, _) => {
            drop_tree(count.tree);
            Err(SourceFault::Refused(mismatch(at)))
        }
        Form::Callee(_, _) => Err(SourceFault::Refused(mismatch(at))),
        Form::LibraryCallee(_) => Err(SourceFault::Refused(mismatch(at))),
    }
}

fn mismatch(at: u32) -> Refusal
    ensures { result ≡ record { at = at; rule = Rule.Mismatch } }
{
    Refusal {
        at,
        rule: Rule::Mismatch,
    }
}

fn read<T: Table>(place: Place, shape: u32, table: &mut T) -> Result<Typed, AllocError>
    ensures { IfOk result (λ x.
        read_value (shape_of (T.scopes table.old).shapes shape) (place_of place) shape
        (T.scopes table.old) ≡ Ok (as_typed x, T.scopes table.new)) }
{
    match reading_of(shape, table) {
        Ok(reading) => Ok(read_as(place, reading)),
        Err(error) => {
            drop_place(place);
            Err(error)
        }
    }
}

fn read_as(place: Place, reading: Reading) -> Typed
    ensures { as_typed result ≡ read_with (place_of place) reading }
{
    unary::value_of(tree_of(place, reading.how, reading.shape), reading.value)
}

fn tree_of(place: Place, how: How, shape: u32) -> Expression
    ensures { expression_of result ≡ read_tree how shape (place_of place) }
{
    match how {
        How::First => Expression::First(shape, place),
        How::Whole => Expression::Whole(shape, place),
        How::Scalar => Expression::Read(shape, place),
    }
}

/// What is read of an object of a type. The type of a pointer to an array's elements may be a new one.
pub fn reading_of<T: Table>(shape: u32, table: &mut T) -> Result<Reading, AllocError>
    ensures { IfOk result (λ r. (p : PlaceTree) →
        read_value (shape_of (T.scopes table.old).shapes shape) p shape (T.scopes table.old)
        ≡ Ok (read_with p r, T.scopes table.new)) }
{
    let class = table.class(shape);
    reading_of_class(class, shape, table)
}

fn reading_of_class<T: Table>(
    class: Class,
    shape: u32,
    table: &mut T,
) -> Result<Reading, AllocError>
    ensures { IfOk result (λ r. (x : Shape) (p : PlaceTree) → class ≡ class_of x →
        read_value x p shape (T.scopes table.old) ≡ Ok (read_with p r, T.scopes table.new)) }
{
    match class {
        Class::Array(of) => {
            let pointer = table.pointer_to(of)?;
            Ok(Reading {
                how: How::First,
                shape: pointer,
                value: Value::Address {
                    shape: pointer,
                    to: of,
                },
            })
        }
        Class::Structure => Ok(Reading {
            how: How::Whole,
            shape,
            value: Value::Record(shape),
        }),
        Class::Whole(kind) => Ok(Reading {
            how: How::Scalar,
            shape,
            value: Value::Integer(kind),
        }),
        Class::Pointer(to) => Ok(Reading {
            how: How::Scalar,
            shape,
            value: Value::Address { shape, to },
        }),
        Class::Void => Ok(Reading {
            how: How::Scalar,
            shape,
            value: Value::Nothing,
        }),
        Class::Function => Ok(Reading {
            how: How::Scalar,
            shape,
            value: Value::Nothing,
        }),
    }
}
