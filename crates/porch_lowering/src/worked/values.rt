//! Operators, conversions, choices and assignments.

ghost use Rattle.std.specs.Prelude.{[], ◌∷◌};
ghost use Rattle.porch_lowering.specs.worked.Agree.{AllAgree};
ghost use Rattle.porch_lowering.specs.worked.Values.{same_kinds, missing_values, missing_left, value_programs};

/// Values are computed in order, and each act is met where the source meets it.
#[tactic(auto, unfolding(crate::proofs::Runs::runs_compute))]
pub fn values_agree()
    ensures { AllAgree 9 value_programs }
{}

/// A value that has its kind is not converted, but is used: it may be missing.
#[tactic(auto, unfolding(crate::proofs::Runs::runs_compute))]
pub fn conversions_use_values()
    ensures same { AllAgree 9 (same_kinds ∷ []) }
    ensures missing { AllAgree 9 missing_values }
{}

/// A left operand that stands in its variable is read before the right one's conversion meets an act.
#[tactic(auto, unfolding(crate::proofs::Runs::runs_compute))]
pub fn left_operands_are_read_first()
    ensures { AllAgree 9 missing_left }
{}
