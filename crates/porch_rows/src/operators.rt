//! The tree of an operator behind what stands to the left of it.

ghost use Rattle.std.specs.Prelude.{◌≡◌, IfOk, if◌then◌else◌};
ghost use Rattle.porch_typed.specs.Views.{expression_of};
ghost use Rattle.porch_typed.specs.Mirror.{Expression as Tree};
ghost use Rattle.porch_check.specs.Operands.{null_as};
ghost use Rattle.porch_check.specs.Operators.{left_tree, row_tree, tree_of};
ghost use Rattle.porch_operands.specs.Views.{as_typed, became, operation_with, typed_with};
ghost use Rattle.porch_rows.specs.inside.Heads.{is_every, is_some_of};

use crate::becomes::become_of;
use crate::rows::{add_step, add_to_all, add_to_any};
use porch_operands::{Becomes, Operation, Sort, Typed};
use porch_tree::Infix;
use porch_typed::{Expression, Operator};
use std::alloc::{AllocError, Global};

/// The tree of an operator behind what stands to the left of it.
#[tactic(auto, using(crate::proofs::Heads::tree_in_row, crate::proofs::Heads::tree_of_every, crate::proofs::Heads::tree_of_some))]
pub fn operator_tree(
    alloc: Global,
    sign: Infix,
    begun: bool,
    left: Typed,
    operation: Operation,
    right: Expression,
) -> Result<Expression, AllocError>
    ensures { IfOk result (λ t. expression_of t
        ≡ tree_of sign begun (as_typed left) (operation_with (expression_of right) operation)) }
{
    let right = become_of(alloc, right, operation.right)?;
    if is_every(sign) {
        return add_to_all(alloc, begun, left.tree, right);
    }
    if is_some_of(sign) {
        return add_to_any(alloc, begun, left.tree, right);
    }
    row_tree(alloc, begun, left, operation.operator, right)
}

fn row_tree(
    alloc: Global,
    begun: bool,
    left: Typed,
    operator: Operator,
    right: Expression,
) -> Result<Expression, AllocError>
    ensures { IfOk result (λ t. expression_of t
        ≡ row_tree begun (left_tree operator (as_typed left)) operator (expression_of right)) }
{
    let becomes = left_of(operator, left.sort);
    let tree = become_of(alloc, left.tree, becomes)?;
    add_step(alloc, begun, tree, operator, right)
}

// What becomes of the left operand: a null one becomes of the other's pointer type.
fn left_of(operator: Operator, sort: Sort) -> Becomes
    ensures { (e : Tree) → left_tree operator (typed_with e sort) ≡ became result e }
{
    match operator {
        Operator::ComparePointers(_, shape) => null_or_itself(sort.is_null(), shape),
        Operator::Arithmetic(_, _) => Becomes::Itself,
        Operator::Shift(_, _) => Becomes::Itself,
        Operator::Compare(_, _) => Becomes::Itself,
        Operator::Forward(_) => Becomes::Itself,
        Operator::Back(_) => Becomes::Itself,
        Operator::ForwardOf(_) => Becomes::Itself,
        Operator::Difference(_) => Becomes::Itself,
    }
}

fn null_or_itself(null: bool, shape: u32) -> Becomes
    ensures { (e : Tree) → became result e ≡ (if null then null_as e shape else e) }
{
    if null {
        Becomes::Null(shape)
    } else {
        Becomes::Itself
    }
}

fn is_every(sign: Infix) -> bool
    ensures { result ≡ is_every sign }
{
    matches!(sign, Infix::All)
}

fn is_some_of(sign: Infix) -> bool
    ensures { result ≡ is_some_of sign }
{
    matches!(sign, Infix::Any)
}
