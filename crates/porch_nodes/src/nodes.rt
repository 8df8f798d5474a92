//! Operators between two values.

ghost use Rattle.std.specs.Prelude.{◌≡◌, IfOk, IfErr, Ok};
ghost use Rattle.porch_typed.specs.Views.{expression_of};
ghost use Rattle.porch_check.specs.Operands.{typed_as};
ghost use Rattle.porch_check.specs.Operators.{joined, tree_of};
ghost use Rattle.porch_operands.specs.Views.{as_typed, as_value, operation_with};
ghost use Rattle.porch_nodes.specs.Answers.{Refuses};

use porch_lex::SourceFault;
use porch_operands::operators::operation;
use porch_operands::{Operation, Sort, Table, Typed};
use porch_rows::{drop_tree, operator_tree};
use porch_tree::Infix;
use porch_typed::Expression;
use std::alloc::{AllocError, Global};

/// An operator behind what stands to the left of it. `begun` says whether that ends with an operator of
/// the same level, and `at` is the place of the first operand.
pub fn join<T: Table>(
    alloc: Global,
    sign: Infix,
    at: u32,
    begun: bool,
    left: Typed,
    right: Typed,
    table: &T,
) -> Result<Typed, SourceFault>
    ensures joined { IfOk result (λ x.
        joined sign at begun (as_typed left) (as_typed right) (T.scopes table.now)
        ≡ Ok (as_typed x)) }
    ensures refused { IfErr result (λ f. Refuses f
        (joined sign at begun (as_typed left) (as_typed right) (T.scopes table.now))) }
{
    match operation(sign, at, left.sort, right.sort, table) {
        Ok(operation) => Ok(operated(alloc, sign, begun, left, operation, right.tree)?),
        Err(refusal) => {
            drop_tree(left.tree);
            drop_tree(right.tree);
            Err(SourceFault::Refused(refusal))
        }
    }
}

fn operated(
    alloc: Global,
    sign: Infix,
    begun: bool,
    left: Typed,
    operation: Operation,
    right: Expression,
) -> Result<Typed, AllocError>
    ensures { IfOk result (λ x. as_typed x
        ≡ typed_as (tree_of sign begun (as_typed left)
        (operation_with (expression_of right) operation)) (as_value operation.value)) }
{
    let tree = operator_tree(alloc, sign, begun, left, operation, right)?;
    Ok(Typed {
        tree,
        sort: Sort::of(operation.value),
    })
}
