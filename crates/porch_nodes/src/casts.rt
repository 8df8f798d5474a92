//! Casts.

ghost use Rattle.std.specs.Prelude.{◌≡◌, IfOk, IfErr, Ok};
ghost use Rattle.porch_typed.specs.Views.{expression_of};
ghost use Rattle.porch_check.specs.Shapes.{shape_of};
ghost use Rattle.porch_check.specs.Operands.{operand};
ghost use Rattle.porch_check.specs.Operators.{cast_form};
ghost use Rattle.porch_operands.specs.Nodes.{cast_with};
ghost use Rattle.porch_operands.specs.Views.{as_typed};
ghost use Rattle.porch_nodes.specs.Answers.{Refuses};

use crate::unary::value_of;
use porch_lex::SourceFault;
use porch_operands::casts::{Cast, cast_to};
use porch_operands::{Table, Typed};
use porch_rows::{become_of, drop_tree};
use porch_typed::Expression;
use std::alloc::{AllocError, Global};

/// A cast of a value to the type of a number.
pub fn cast_value<T: Table>(
    alloc: Global,
    at: u32,
    shape: u32,
    value: Typed,
    table: &T,
) -> Result<Typed, SourceFault>
    ensures made { IfOk result (λ x.
        cast_form (shape_of (T.scopes table.now).shapes shape) at shape (as_typed value)
        ≡ Ok (operand (as_typed x))) }
    ensures refused { IfErr result (λ f. Refuses f
        (cast_form (shape_of (T.scopes table.now).shapes shape) at shape (as_typed value))) }
{
    match cast_to(table.class(shape), at, shape, value.sort) {
        Ok(cast) => Ok(cast_of(alloc, value.tree, cast)?),
        Err(refusal) => {
            drop_tree(value.tree);
            Err(SourceFault::Refused(refusal))
        }
    }
}

fn cast_of(alloc: Global, e: Expression, cast: Cast) -> Result<Typed, AllocError>
    ensures { IfOk result (λ x. operand (as_typed x) ≡ cast_with (expression_of e) cast) }
{
    let tree = become_of(alloc, e, cast.operand)?;
    Ok(value_of(tree, cast.value))
}
