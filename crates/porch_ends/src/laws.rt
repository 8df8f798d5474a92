//! What is proved of every run of a valid program. The functions are laws, and have nothing to run.

ghost use Rattle.porch_ends.specs.Left.{StepsComeNearer, RunsEnd};

/// Each step that goes on leaves less of a run.
pub fn steps_come_nearer()
    ensures { StepsComeNearer }
{}

/// From each state, a run comes to an end.
pub fn runs_end()
    ensures { RunsEnd }
{}
