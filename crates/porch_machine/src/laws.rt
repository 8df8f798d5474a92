//! What is true of whole runs over bytes.

ghost use Rattle.porch_machine.specs.Laws.{PreparedStands, RunsAgree, RunsAreOne, RunsEnd};

/// The bytes of a machine before turn 1 stand for the state before turn 1.
pub fn prepared_bytes_stand()
    ensures { PreparedStands }
{}

/// A run over bytes has one end.
pub fn runs_are_one()
    ensures { RunsAreOne }
{}

/// A run over bytes of a valid program agrees with what the program means.
pub fn runs_agree()
    ensures { RunsAgree }
{}

/// Each run over bytes of a valid program ends.
pub fn runs_end()
    ensures { RunsEnd }
{}
