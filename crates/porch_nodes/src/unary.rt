//! Operators with one operand that give a value, and casts.

ghost use Rattle.std.specs.Prelude.{◌≡◌, IfOk, IfErr, Ok};
ghost use Rattle.porch_types.specs.declared.shapes.Kind.TheVariants.{Int};
ghost use Rattle.porch_typed.specs.Views.{expression_of};
ghost use Rattle.porch_typed.specs.Mirror.{isnt, unary};
ghost use Rattle.porch_check.specs.Operands.{integer, operand, typed_as};
ghost use Rattle.porch_check.specs.Operators.{not_form, unary_form};
ghost use Rattle.porch_operands.specs.Views.{as_typed, as_value};
ghost use Rattle.porch_nodes.specs.Answers.{Refuses};

use porch_lex::SourceFault;
use porch_operands::{Sort, Typed, Value};
use porch_rows::drop_tree;
use porch_typed::{Expression, Unary};
use porch_types::Kind;
use sqlite_items::Boxed;
use std::alloc::{AllocError, Global};

/// `+ - ~` in front of a value.
pub fn unary(alloc: Global, op: Unary, at: u32, value: Typed) -> Result<Typed, SourceFault>
    ensures made { IfOk result (λ x.
        unary_form op at (as_typed value) (as_value value.sort.value) ≡ Ok (operand (as_typed x))) }
    ensures refused { IfErr result (λ f. Refuses f
        (unary_form op at (as_typed value) (as_value value.sort.value))) }
{
    match porch_operands::unary::unary(at, value.sort.value) {
        Ok(kind) => Ok(unary_of(alloc, op, kind, value.tree)?),
        Err(refusal) => {
            drop_tree(value.tree);
            Err(SourceFault::Refused(refusal))
        }
    }
}

fn unary_of(alloc: Global, op: Unary, kind: Kind, e: Expression) -> Result<Typed, AllocError>
    ensures { IfOk result (λ x. as_typed x
        ≡ typed_as (unary op kind (expression_of e)) (integer kind)) }
{
    let e = Boxed::new(alloc, e)?;
    Ok(value_of(unary_tree(op, kind, e), Value::Integer(kind)))
}

fn unary_tree(op: Unary, kind: Kind, e: Boxed<Expression>) -> Expression
    ensures { expression_of result ≡ unary op kind (expression_of e) }
{
    Expression::Unary(op, kind, e)
}

/// A value that is neither the constant 0 nor an allocation.
pub fn value_of(tree: Expression, value: Value) -> Typed
    ensures { as_typed result ≡ typed_as (expression_of tree) (as_value value) }
{
    Typed {
        tree,
        sort: Sort::of(value),
    }
}

/// `!` in front of a value.
pub fn not(alloc: Global, at: u32, value: Typed) -> Result<Typed, SourceFault>
    ensures made { IfOk result (λ x.
        not_form at (as_typed value) ≡ Ok (operand (as_typed x))) }
    ensures refused { IfErr result (λ f. Refuses f (not_form at (as_typed value))) }
{
    match porch_operands::unary::not(at, value.sort) {
        Ok(()) => Ok(not_of(alloc, value.tree)?),
        Err(refusal) => {
            drop_tree(value.tree);
            Err(SourceFault::Refused(refusal))
        }
    }
}

fn not_of(alloc: Global, e: Expression) -> Result<Typed, AllocError>
    ensures { IfOk result (λ x. as_typed x
        ≡ typed_as (isnt (expression_of e)) (integer Int)) }
{
    let e = Boxed::new(alloc, e)?;
    Ok(value_of(not_tree(e), Value::Integer(Kind::Int)))
}

fn not_tree(e: Boxed<Expression>) -> Expression
    ensures { expression_of result ≡ isnt (expression_of e) }
{
    Expression::Isnt(e)
}
