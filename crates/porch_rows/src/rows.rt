//! Rows of operands, which get longer by one at a time: of operators of one level, of `&&`, of `||` and
//! of commas.

ghost use Rattle.std.specs.Prelude.{◌≡◌, IfOk, map, true};
ghost use Rattle.porch_typed.specs.Views.{expression_of, expressions_of, steps_of};
ghost use Rattle.porch_typed.specs.Mirror.{all_of, any_of, no_expressions, no_steps, row, sequence, with_expression, with_step};
ghost use Rattle.porch_check.specs.Operators.{all_tree, any_tree, row_tree, with_last, with_last_step};
ghost use Rattle.porch_rows.specs.Sequences.{sequence_tree};
ghost use Rattle.porch_rows.specs.inside.Parts.{step_of};

use crate::pairs::pair_of;
use crate::parts::{Parts, parts_of};
use porch_typed::{Expression, Operator};
use sqlite_items::{Boxed, Items};
use std::alloc::{AllocError, Global};

/// A row of an operand, or a begun one with a step more.
pub(crate) fn add_step(
    alloc: Global,
    begun: bool,
    e: Expression,
    operator: Operator,
    operand: Expression,
) -> Result<Expression, AllocError>
    ensures { IfOk result (λ t. expression_of t
        ≡ row_tree begun (expression_of e) operator (expression_of operand)) }
{
    if begun {
        longer_row(alloc, e, operator, operand)
    } else {
        new_row(alloc, e, operator, operand)
    }
}

#[tactic(auto, using(crate::proofs::Heads::row_after_other))]
fn longer_row(
    alloc: Global,
    e: Expression,
    operator: Operator,
    operand: Expression,
) -> Result<Expression, AllocError>
    ensures { IfOk result (λ t. expression_of t
        ≡ row_tree true (expression_of e) operator (expression_of operand)) }
{
    match parts_of(e) {
        Parts::Row(first, steps) => with_step(first, steps, operator, operand),
        Parts::AllOf(first, more) => new_row(alloc, all_of(first, more), operator, operand),
        Parts::AnyOf(first, more) => new_row(alloc, any_of(first, more), operator, operand),
        Parts::Sequence(first, more) => new_row(alloc, sequence_of(first, more), operator, operand),
        Parts::Other(e) => new_row(alloc, e, operator, operand),
    }
}

/// A row of two operands.
pub fn new_row(
    alloc: Global,
    e: Expression,
    operator: Operator,
    operand: Expression,
) -> Result<Expression, AllocError>
    ensures { IfOk result (λ t. expression_of t
        ≡ row (expression_of e) (with_step operator (expression_of operand) no_steps)) }
{
    let mut steps = Items::new(alloc);
    steps.push((operator, operand))?;
    let first = Boxed::new(alloc, e)?;
    Ok(row_of(first, steps))
}

fn with_step(
    first: Boxed<Expression>,
    mut steps: Items<(Operator, Expression)>,
    operator: Operator,
    operand: Expression,
) -> Result<Expression, AllocError>
    ensures { IfOk result (λ t. expression_of t ≡ row (expression_of first)
        (with_last_step (steps_of (map step_of steps)) operator (expression_of operand))) }
{
    steps.push((operator, operand))?;
    Ok(row_of(first, steps))
}

fn row_of(first: Boxed<Expression>, steps: Items<(Operator, Expression)>) -> Expression
    ensures { expression_of result ≡ row (expression_of first) (steps_of (map step_of steps)) }
{
    Expression::Row(first, steps)
}

/// A row of `&&`, or a begun one with an operand more.
pub(crate) fn add_to_all(
    alloc: Global,
    begun: bool,
    e: Expression,
    operand: Expression,
) -> Result<Expression, AllocError>
    ensures { IfOk result (λ t. expression_of t
        ≡ all_tree begun (expression_of e) (expression_of operand)) }
{
    if begun {
        longer_all(alloc, e, operand)
    } else {
        new_all(alloc, e, operand)
    }
}

#[tactic(auto, using(crate::proofs::Heads::all_after_other))]
fn longer_all(alloc: Global, e: Expression, operand: Expression) -> Result<Expression, AllocError>
    ensures { IfOk result (λ t. expression_of t
        ≡ all_tree true (expression_of e) (expression_of operand)) }
{
    match parts_of(e) {
        Parts::AllOf(first, more) => with_all(first, more, operand),
        Parts::AnyOf(first, more) => new_all(alloc, any_of(first, more), operand),
        Parts::Sequence(first, more) => new_all(alloc, sequence_of(first, more), operand),
        Parts::Row(first, steps) => new_all(alloc, row_of(first, steps), operand),
        Parts::Other(e) => new_all(alloc, e, operand),
    }
}

fn new_all(alloc: Global, e: Expression, operand: Expression) -> Result<Expression, AllocError>
    ensures { IfOk result (λ t. expression_of t
        ≡ all_of (expression_of e) (with_expression (expression_of operand) no_expressions)) }
{
    let (first, more) = pair_of(alloc, e, operand)?;
    Ok(all_of(first, more))
}

fn with_all(
    first: Boxed<Expression>,
    mut more: Items<Expression>,
    operand: Expression,
) -> Result<Expression, AllocError>
    ensures { IfOk result (λ t. expression_of t ≡ all_of (expression_of first)
        (with_last (expressions_of (map expression_of more)) (expression_of operand))) }
{
    more.push(operand)?;
    Ok(all_of(first, more))
}

fn all_of(first: Boxed<Expression>, more: Items<Expression>) -> Expression
    ensures { expression_of result
        ≡ all_of (expression_of first) (expressions_of (map expression_of more)) }
{
    Expression::AllOf(first, more)
}

/// A row of `||`, or a begun one with an operand more.
pub(crate) fn add_to_any(
    alloc: Global,
    begun: bool,
    e: Expression,
    operand: Expression,
) -> Result<Expression, AllocError>
    ensures { IfOk result (λ t. expression_of t
        ≡ any_tree begun (expression_of e) (expression_of operand)) }
{
    if begun {
        longer_any(alloc, e, operand)
    } else {
        new_any(alloc, e, operand)
    }
}

#[tactic(auto, using(crate::proofs::Heads::any_after_other))]
fn longer_any(alloc: Global, e: Expression, operand: Expression) -> Result<Expression, AllocError>
    ensures { IfOk result (λ t. expression_of t
        ≡ any_tree true (expression_of e) (expression_of operand)) }
{
    match parts_of(e) {
        Parts::AnyOf(first, more) => with_any(first, more, operand),
        Parts::AllOf(first, more) => new_any(alloc, all_of(first, more), operand),
        Parts::Sequence(first, more) => new_any(alloc, sequence_of(first, more), operand),
        Parts::Row(first, steps) => new_any(alloc, row_of(first, steps), operand),
        Parts::Other(e) => new_any(alloc, e, operand),
    }
}

fn new_any(alloc: Global, e: Expression, operand: Expression) -> Result<Expression, AllocError>
    ensures { IfOk result (λ t. expression_of t
        ≡ any_of (expression_of e) (with_expression (expression_of operand) no_expressions)) }
{
    let (first, more) = pair_of(alloc, e, operand)?;
    Ok(any_of(first, more))
}

fn with_any(
    first: Boxed<Expression>,
    mut more: Items<Expression>,
    operand: Expression,
) -> Result<Expression, AllocError>
    ensures { IfOk result (λ t. expression_of t ≡ any_of (expression_of first)
        (with_last (expressions_of (map expression_of more)) (expression_of operand))) }
{
    more.push(operand)?;
    Ok(any_of(first, more))
}

fn any_of(first: Boxed<Expression>, more: Items<Expression>) -> Expression
    ensures { expression_of result
        ≡ any_of (expression_of first) (expressions_of (map expression_of more)) }
{
    Expression::AnyOf(first, more)
}

/// Expressions with a comma between them, or a begun sequence with one more.
pub fn add_to_sequence(
    alloc: Global,
    begun: bool,
    e: Expression,
    operand: Expression,
) -> Result<Expression, AllocError>
    ensures { IfOk result (λ t. expression_of t
        ≡ sequence_tree begun (expression_of e) (expression_of operand)) }
{
    if begun {
        longer_sequence(alloc, e, operand)
    } else {
        new_sequence(alloc, e, operand)
    }
}

#[tactic(auto, using(crate::proofs::Heads::sequence_after_other))]
fn longer_sequence(
    alloc: Global,
    e: Expression,
    operand: Expression,
) -> Result<Expression, AllocError>
    ensures { IfOk result (λ t. expression_of t
        ≡ sequence_tree true (expression_of e) (expression_of operand)) }
{
    match parts_of(e) {
        Parts::Sequence(first, more) => with_sequence(first, more, operand),
        Parts::AllOf(first, more) => new_sequence(alloc, all_of(first, more), operand),
        Parts::AnyOf(first, more) => new_sequence(alloc, any_of(first, more), operand),
        Parts::Row(first, steps) => new_sequence(alloc, row_of(first, steps), operand),
        Parts::Other(e) => new_sequence(alloc, e, operand),
    }
}

fn new_sequence(alloc: Global, e: Expression, operand: Expression) -> Result<Expression, AllocError>
    ensures { IfOk result (λ t. expression_of t
        ≡ sequence (expression_of e) (with_expression (expression_of operand) no_expressions)) }
{
    let (first, more) = pair_of(alloc, e, operand)?;
    Ok(sequence_of(first, more))
}

fn with_sequence(
    first: Boxed<Expression>,
    mut more: Items<Expression>,
    operand: Expression,
) -> Result<Expression, AllocError>
    ensures { IfOk result (λ t. expression_of t ≡ sequence (expression_of first)
        (with_last (expressions_of (map expression_of more)) (expression_of operand))) }
{
    more.push(operand)?;
    Ok(sequence_of(first, more))
}

pub(crate) fn sequence_of(first: Boxed<Expression>, more: Items<Expression>) -> Expression
    ensures { expression_of result
        ≡ sequence (expression_of first) (expressions_of (map expression_of more)) }
{
    Expression::Sequence(first, more)
}
