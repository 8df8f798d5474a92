//! Whether the next step counts a turn.

ghost use Rattle.std.specs.Prelude.{◌≡◌, ◌<◌, ℕ, length, slice_get};
ghost use Rattle.porch_bytes.specs.ByteRun.{counts_next};
ghost use Rattle.porch_abstract.specs.whole.Run.{counts};
ghost use Rattle.porch_bytes.specs.Column.{code_of};
ghost use Rattle.porch_load.specs.Bodies.{counts_turn_of};
ghost use Rattle.porch_load.specs.Loaded.{setting_in, IsLoaded};
ghost use Rattle.porch_stack.specs.declared.spot.Stage.TheVariants.{Running};
ghost use Rattle.porch_stack.specs.Holding.{phase_in, Stands};

use porch_load::Loaded;
use porch_operations::operation::Operation;
use porch_stack::next_operation;
use porch_stack::spot::{Held, Spot, Stage};

/// Whether the next step counts a turn. The call of `main` does.
pub(crate) fn counts_next(loaded: &Loaded, spot: &Spot) -> bool
    requires loaded { IsLoaded loaded.now }
    requires stands { (size : ℕ) × Stands loaded.now spot.now size }
    ensures { result ≡ counts_next loaded.now.program (setting_in loaded.now)
        (phase_in spot.now) }
{
    match spot.stage {
        Stage::Before => true,
        Stage::Running => counts_in_function(loaded, &spot.frame),
        Stage::Over => false,
    }
}

fn counts_in_function(loaded: &Loaded, frame: &Held) -> bool
    requires loaded { IsLoaded loaded.now }
    requires within { frame.now.function < length loaded.now.bodies.items }
    ensures { result ≡ counts (slice_get (code_of loaded.now.program (setting_in loaded.now)
        frame.now.function) frame.now.next) }
{
    match next_operation(loaded, frame) {
        None => false,
        Some(operation) => counts_turn(&operation),
    }
}

fn counts_turn(operation: &Operation) -> bool
    ensures { result ≡ counts_turn_of operation.now }
{
    match *operation {
        Operation::Turn => true,
        Operation::Call(_) => true,
        Operation::Act(_)
        | Operation::Skip
        | Operation::Copy(_, _, _)
        | Operation::Allocate(_, _, _)
        | Operation::Free(_)
        | Operation::Show(_, _, _)
        | Operation::Text(_, _)
        | Operation::Jump(_)
        | Operation::Branch(_, _)
        | Operation::Return(_)
        | Operation::Checkpoint => false,
    }
}
