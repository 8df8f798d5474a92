//! The operation that comes next.

ghost use Rattle.std.specs.Prelude.{◌≡◌, ◌<◌, ◌≤◌, ◌^◌, length, slice_get, Some, None, IfSome, IfNone};
ghost use Rattle.porch_bytes.specs.Column.{code_of};
ghost use Rattle.porch_load.specs.Loaded.{setting_in, IsLoaded};
ghost use Rattle.porch_operations.specs.declared.operation.Operation.TheVariants as operation;
ghost use Rattle.porch_stack.specs.Holding.{frame_of, IsSort};
ghost use Rattle.porch_stack.specs.Next.{DoesNext, HasPassings};

use crate::spot::Held;
use porch_frames::Passing;
use porch_instructions::instruction::Source;
use porch_load::{Body, Loaded};
use porch_operations::operation::{Calling, Operation};

/// What an operation is to the frames: a call, a return, or neither.
#[derive(Clone, Copy)]
pub enum Sort {
    Enters(Calling),
    Leaves(Option<Source>),
    Plain,
}

pub fn sort_of(operation: &Operation) -> Sort
    ensures { IsSort operation.now result }
{
    match *operation {
        Operation::Call(calling) => Sort::Enters(calling),
        Operation::Return(source) => Sort::Leaves(source),
        Operation::Act(_) => Sort::Plain,
        Operation::Skip => Sort::Plain,
        Operation::Copy(_, _, _) => Sort::Plain,
        Operation::Allocate(_, _, _) => Sort::Plain,
        Operation::Free(_) => Sort::Plain,
        Operation::Show(_, _, _) => Sort::Plain,
        Operation::Text(_, _) => Sort::Plain,
        Operation::Jump(_) => Sort::Plain,
        Operation::Branch(_, _) => Sort::Plain,
        Operation::Turn => Sort::Plain,
        Operation::Checkpoint => Sort::Plain,
    }
}

/// The operation that comes next in a frame; none where its function has ended.
pub fn next_operation(loaded: &Loaded, frame: &Held) -> Option<Operation>
    requires loaded { IsLoaded loaded.now }
    requires within { frame.now.function < length loaded.now.bodies.items }
    ensures some { IfSome result (DoesNext loaded.now (frame_of frame.now)) }
    ensures none { IfNone result (slice_get (code_of loaded.now.program
        (setting_in loaded.now) frame.now.function) frame.now.next ≡ None) }
{
    let body = body_at(&loaded.bodies, frame.function as usize);
    operation_at(&body.operations, frame.next)
}

pub(crate) fn body_at(bodies: &[Body], function: usize) -> &Body
    requires { function < length bodies.now }
    ensures { slice_get bodies.now function ≡ Some result.now }
{
    &bodies[function]
}

fn operation_at(operations: &[Operation], next: usize) -> Option<Operation>
    ensures { result ≡ slice_get operations.now next }
{
    operations.get(next).copied()
}
