//! When operations may be done where a machine stands. The function is a law, and has nothing to run.

ghost use Rattle.porch_stack.specs.Doing.{NextMayBeDone, OperationsComeNext, SpotsMayBeMoved};

use porch_load::sound_operations_hold;

/// The operation that comes next in a function may be done where the machine stands, and the next step is where it leads.
pub fn next_operations_may_be_done()
    ensures { NextMayBeDone }
{
    sound_operations_hold();
}

/// What stands at a place of a function's code comes next in a frame that is there.
pub fn operations_come_next()
    ensures { OperationsComeNext }
{}

/// A machine may stand at each place of the innermost frame's function, after any number of turns.
pub fn spots_may_be_moved()
    ensures { SpotsMayBeMoved }
{}
