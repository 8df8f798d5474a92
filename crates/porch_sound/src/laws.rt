//! What operations on objects keep. The function is a law, and has nothing to run.

ghost use Rattle.porch_sound.specs.Laws.{KeepTypes};

use porch_types::{
    leaves_add_up, leaves_are_scalars, rows_are_found, rows_lie_inside, subobjects_nest,
};

/// What is read of a typed store has its type, and what changes a typed store keeps it typed.
pub fn operations_keep_types()
    ensures { KeepTypes }
{
    leaves_add_up();
    leaves_are_scalars();
    rows_are_found();
    rows_lie_inside();
    subobjects_nest();
}
