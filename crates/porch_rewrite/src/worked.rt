//! Programs that are rewritten, which the check computes.

ghost use Rattle.porch_rewrite.specs.Worked.{IsRewritten};

/// Only functions that reach a checkpoint change, also where they reach it by calling one another.
pub fn functions_that_reach_a_checkpoint_change()
    ensures { IsRewritten }
{}
