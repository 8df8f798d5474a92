//! One step, over the parts of a machine.

ghost use Rattle.std.specs.Prelude.{◌≡◌, ◌≤◌, ◌<◌, ◌+◌, ◌^◌, length, vec_capacity};
ghost use Rattle.porch_bytes.specs.Column.{next};
ghost use Rattle.porch_operations.specs.Operations.{work};
ghost use Rattle.porch_load.specs.Loaded.{setting_in};
ghost use Rattle.porch_stack.specs.Answers.{next_of, Stays};
ghost use Rattle.porch_stack.specs.declared.spot.Stage.TheVariants.{Running};
ghost use Rattle.porch_stack.specs.Holding.{frame_of, state_of};
ghost use Rattle.porch_stack.specs.Next.{DoesNext};
ghost use Rattle.porch_run.specs.inside.Whole.{AreWhole};

use crate::plain::do_operation;
use porch_heap::Heap;
use porch_load::Loaded;
use porch_operations::operation::Operation;
use porch_stack::next::Sort;
use porch_stack::spot::{Spot, Stage};
use porch_stack::step::Step;
use porch_stack::{enter, enter_main, leave_at_end, leave_by_return, next_operation, sort_of};

/// Takes a step. After the end of `main` nothing changes.
pub(crate) fn advance(
    loaded: &Loaded,
    spot: &mut Spot,
    memory: &mut [u8],
    heap: &mut Heap,
    shown: &mut Vec<u8>,
) -> Step
    requires whole { AreWhole loaded.now spot.old (length memory.old) heap.old
        (vec_capacity shown.old) }
    requires few { spot.old.turns ≤ 2 ^ 62 }
    ensures column { next loaded.now.program (setting_in loaded.now)
        (state_of spot.old (work memory.old heap.old shown.old.items))
        ≡ next_of result (state_of spot.new (work memory.new heap.new shown.new.items)) }
    ensures stays { Stays result
        (state_of spot.old (work memory.old heap.old shown.old.items))
        (state_of spot.new (work memory.new heap.new shown.new.items)) }
    ensures whole { AreWhole loaded.now spot.new (length memory.new) heap.new
        (vec_capacity shown.new) }
    ensures turns { spot.new.turns ≤ spot.old.turns + 1 }
{
    match spot.stage {
        Stage::Before => enter_main(loaded, spot, memory),
        Stage::Running => advance_in_function(loaded, spot, memory, heap, shown),
        Stage::Over => Step::Ended { value: 0 },
    }
}

// A step in a function: its next command, or its end.
fn advance_in_function(
    loaded: &Loaded,
    spot: &mut Spot,
    memory: &mut [u8],
    heap: &mut Heap,
    shown: &mut Vec<u8>,
) -> Step
    requires whole { AreWhole loaded.now spot.old (length memory.old) heap.old
        (vec_capacity shown.old) }
    requires stage { spot.old.stage ≡ Running }
    requires few { spot.old.turns ≤ 2 ^ 62 }
    ensures column { next loaded.now.program (setting_in loaded.now)
        (state_of spot.old (work memory.old heap.old shown.old.items))
        ≡ next_of result (state_of spot.new (work memory.new heap.new shown.new.items)) }
    ensures stays { Stays result
        (state_of spot.old (work memory.old heap.old shown.old.items))
        (state_of spot.new (work memory.new heap.new shown.new.items)) }
    ensures whole { AreWhole loaded.now spot.new (length memory.new) heap.new
        (vec_capacity shown.new) }
    ensures turns { spot.new.turns ≤ spot.old.turns + 1 }
{
    match next_operation(loaded, &spot.frame) {
        None => leave_at_end(loaded, spot, memory),
        Some(operation) => advance_by(loaded, spot, memory, heap, shown, &operation),
    }
}

// A step by the operation that comes next.
fn advance_by(
    loaded: &Loaded,
    spot: &mut Spot,
    memory: &mut [u8],
    heap: &mut Heap,
    shown: &mut Vec<u8>,
    operation: &Operation,
) -> Step
    requires whole { AreWhole loaded.now spot.old (length memory.old) heap.old
        (vec_capacity shown.old) }
    requires stage { spot.old.stage ≡ Running }
    requires does { DoesNext loaded.now (frame_of spot.old.frame) operation.now }
    requires few { spot.old.turns ≤ 2 ^ 62 }
    ensures column { next loaded.now.program (setting_in loaded.now)
        (state_of spot.old (work memory.old heap.old shown.old.items))
        ≡ next_of result (state_of spot.new (work memory.new heap.new shown.new.items)) }
    ensures stays { Stays result
        (state_of spot.old (work memory.old heap.old shown.old.items))
        (state_of spot.new (work memory.new heap.new shown.new.items)) }
    ensures whole { AreWhole loaded.now spot.new (length memory.new) heap.new
        (vec_capacity shown.new) }
    ensures turns { spot.new.turns ≤ spot.old.turns + 1 }
{
    match sort_of(operation) {
        Sort::Enters(calling) => enter(loaded, spot, memory, calling),
        Sort::Leaves(source) => leave_by_return(loaded, spot, memory, source),
        Sort::Plain => do_operation(loaded, spot, memory, heap, shown, operation),
    }
}
