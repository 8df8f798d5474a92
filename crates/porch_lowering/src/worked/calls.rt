//! Statements, calls and what is shown.

ghost use Rattle.porch_lowering.specs.worked.Agree.{AllAgree};
ghost use Rattle.porch_lowering.specs.worked.Statements.{loop_programs, call_programs, shown_programs};

/// Loops and switches go round, are left, and pause.
#[tactic(auto, unfolding(crate::proofs::Runs::runs_compute))]
pub fn loops_agree()
    ensures { AllAgree 9 loop_programs }
{}

/// Calls give values or none, and pause before a turn too many.
#[tactic(auto, unfolding(crate::proofs::Runs::runs_compute))]
pub fn calls_agree()
    ensures all { AllAgree 9 call_programs }
    ensures early { AllAgree 2 call_programs }
    ensures none { AllAgree 0 call_programs }
{}

/// Bytes, numbers and texts are shown.
#[tactic(auto, unfolding(crate::proofs::Runs::runs_compute))]
pub fn bytes_agree()
    ensures { AllAgree 9 shown_programs }
{}
