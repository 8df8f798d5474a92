//! What becomes of an operand's tree.

ghost use Rattle.std.specs.Prelude.{◌≡◌, IfOk};
ghost use Rattle.porch_typed.specs.Views.{expression_of};
ghost use Rattle.porch_typed.specs.Mirror.{no_expressions, sequence, with_expression};
ghost use Rattle.porch_check.specs.Operands.{null_as};
ghost use Rattle.porch_operands.specs.Views.{became};
ghost use Rattle.porch_rows.specs.inside.Heads.{is_constant};

use crate::drops::drop_tree;
use crate::pairs::pair_of;
use crate::rows::sequence_of;
use porch_operands::Becomes;
use porch_typed::Expression;
use sqlite_items::Boxed;
use std::alloc::{AllocError, Global};

/// The tree that becomes of an operand's.
pub fn become_of(alloc: Global, e: Expression, becomes: Becomes) -> Result<Expression, AllocError>
    ensures { IfOk result (λ t. expression_of t ≡ became becomes (expression_of e)) }
{
    match becomes {
        Becomes::Itself => Ok(e),
        Becomes::Null(shape) => null_as(alloc, e, shape),
        Becomes::Converted(kind) => Ok(Expression::Conversion(kind, Boxed::new(alloc, e)?)),
        Becomes::Discarded => Ok(Expression::Discard(Boxed::new(alloc, e)?)),
    }
}

/// The tree that becomes of an operand's, as what a node holds.
pub fn boxed_as(
    alloc: Global,
    e: Expression,
    becomes: Becomes,
) -> Result<Boxed<Expression>, AllocError>
    ensures { IfOk result (λ t. expression_of t ≡ became becomes (expression_of e)) }
{
    let e = become_of(alloc, e, becomes)?;
    Boxed::new(alloc, e)
}

// What else a null operand evaluates is evaluated first.
#[tactic(auto, using(crate::proofs::Heads::constant_null, crate::proofs::Heads::other_null))]
fn null_as(alloc: Global, e: Expression, shape: u32) -> Result<Expression, AllocError>
    ensures { IfOk result (λ t. expression_of t ≡ null_as (expression_of e) shape) }
{
    if is_constant(&e) {
        drop_tree(e);
        Ok(Expression::NullPointer(shape))
    } else {
        behind(alloc, e, Expression::NullPointer(shape))
    }
}

fn behind(alloc: Global, first: Expression, last: Expression) -> Result<Expression, AllocError>
    ensures { IfOk result (λ t. expression_of t
        ≡ sequence (expression_of first) (with_expression (expression_of last) no_expressions)) }
{
    let (first, more) = pair_of(alloc, first, last)?;
    Ok(sequence_of(first, more))
}

fn is_constant(e: &Expression) -> bool
    ensures { result ≡ is_constant (expression_of e.now) }
{
    matches!(e, Expression::Constant(_, _))
}
