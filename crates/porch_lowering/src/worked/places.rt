//! Pointers, arrays, structs and blocks.

ghost use Rattle.porch_lowering.specs.worked.Agree.{AllAgree, AgreesInEach, whole};
ghost use Rattle.porch_lowering.specs.worked.Places.{place_programs, bad_pointers};

/// Objects are reached, changed, copied and ended.
#[tactic(auto, unfolding(crate::proofs::Runs::runs_compute))]
pub fn places_agree()
    ensures { AllAgree 9 place_programs }
{}

/// Acts of pointers.
#[tactic(auto, unfolding(crate::proofs::Runs::runs_compute))]
pub fn bad_pointers_agree()
    ensures { AllAgree 9 bad_pointers }
{}

/// A program with calls, a list of blocks, checkpoints and output, in each width of `long`.
#[tactic(auto, unfolding(crate::proofs::Runs::runs_compute))]
pub fn a_whole_program_agrees()
    ensures { AgreesInEach whole 9 }
{}
