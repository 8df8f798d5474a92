//! What a run in one call has to do with the run of the definition. The function is a law, and has nothing to run.

ghost use Rattle.porch_run.specs.Running.{RunsArePartsOfRuns};

/// A run in one call is a part of the definition's run: where it is paused the run is, and where a step answered, the run
/// goes on by that step.
pub fn runs_are_parts_of_runs()
    ensures { RunsArePartsOfRuns }
{}
