//! What is proved of every run of a flat program.

ghost use Rattle.std.specs.Prelude.{ℕ};
ghost use Rattle.porch_flat.specs.declared.whole.Flat.{Flat};
ghost use Rattle.porch_objects.specs.Meaning.{Environment};
ghost use Rattle.porch_abstract.specs.whole.Run.{IsOneRun, RunsEnd, TellsNothing};

/// A run has one end, whatever the number of steps that is counted to, and a program one meaning.
pub fn runs_have_one_end()
    ensures { (flat : Flat) (under : Environment) (n : ℕ) → IsOneRun flat under n }
{}

/// From each state, a run of a valid program comes to an end, whether it saves its frames or not.
pub fn runs_end()
    ensures { RunsEnd }
{}

/// Where no step tells anything, a run tells nothing.
pub fn silent_steps_tell_nothing()
    ensures { TellsNothing }
{}
