//! Places that values lead to.

ghost use Rattle.std.specs.Prelude.{◌≡◌, IfOk, IfErr, Ok};
ghost use Rattle.porch_typed.specs.Views.{expression_of, place_of};
ghost use Rattle.porch_typed.specs.Mirror.{no_steps, row, with_step};
ghost use Rattle.porch_typed.specs.Mirror as tree;
ghost use Rattle.porch_check.specs.Operands as operands;
ghost use Rattle.porch_check.specs.Operators.{index_form, pointee_form};
ghost use Rattle.porch_operands.specs.Views.{as_typed, as_value};
ghost use Rattle.porch_nodes.specs.Answers.{Refuses};

use porch_lex::SourceFault;
use porch_operands::places::Element;
use porch_operands::{Table, Typed, places};
use porch_rows::{drop_tree, new_row};
use porch_typed::{Expression, Place};
use sqlite_items::Boxed;
use std::alloc::{AllocError, Global};

/// A place, and the type of what is there.
#[derive(Drop)]
pub struct Object {
    pub place: Place,
    pub shape: u32,
}

/// `*` in front of an operand.
pub fn pointee<T: Table>(
    alloc: Global,
    at: u32,
    operand: Typed,
    table: &T,
) -> Result<Object, SourceFault>
    ensures made { IfOk result (λ o.
        pointee_form at (T.scopes table.now) (as_typed operand) (as_value operand.sort.value)
        ≡ Ok (operands.place (place_of o.place) o.shape)) }
    ensures refused { IfErr result (λ f. Refuses f
        (pointee_form at (T.scopes table.now) (as_typed operand) (as_value operand.sort.value))) }
{
    match places::pointee(at, operand.sort.value, table) {
        Ok(shape) => Ok(object_behind(alloc, operand.tree, shape)?),
        Err(refusal) => {
            drop_tree(operand.tree);
            Err(SourceFault::Refused(refusal))
        }
    }
}

fn object_behind(alloc: Global, pointer: Expression, shape: u32) -> Result<Object, AllocError>
    ensures { IfOk result (λ o. operands.place (place_of o.place) o.shape
        ≡ operands.place (tree.pointee (expression_of pointer)) shape) }
{
    let pointer = Boxed::new(alloc, pointer)?;
    Ok(Object {
        place: Place::Pointee(pointer),
        shape,
    })
}

/// `left[right]` of a pointer and an integer in either order.
pub fn index<T: Table>(
    alloc: Global,
    at: u32,
    left: Typed,
    right: Typed,
    table: &T,
) -> Result<Object, SourceFault>
    ensures made { IfOk result (λ o.
        index_form at (T.scopes table.now) (as_typed left) (as_value left.sort.value)
        (as_typed right) (as_value right.sort.value)
        ≡ Ok (operands.place (place_of o.place) o.shape)) }
    ensures refused { IfErr result (λ f. Refuses f
        (index_form at (T.scopes table.now) (as_typed left) (as_value left.sort.value)
        (as_typed right) (as_value right.sort.value))) }
{
    match places::index(at, left.sort.value, right.sort.value, table) {
        Ok(element) => Ok(element_of(alloc, left.tree, element, right.tree)?),
        Err(refusal) => {
            drop_tree(left.tree);
            drop_tree(right.tree);
            Err(SourceFault::Refused(refusal))
        }
    }
}

fn element_of(
    alloc: Global,
    left: Expression,
    element: Element,
    right: Expression,
) -> Result<Object, AllocError>
    ensures { IfOk result (λ o. operands.place (place_of o.place) o.shape
        ≡ operands.place (tree.pointee (row (expression_of left)
        (with_step element.operator (expression_of right) no_steps))) element.shape) }
{
    let pointer = new_row(alloc, left, element.operator, right)?;
    object_behind(alloc, pointer, element.shape)
}
