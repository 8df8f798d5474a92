//! Each operator once.

ghost use Rattle.porch_mean.specs.worked.Operators.{EachOperator, Shifts, EachComparison, ConvertsToTheCommonKind, Unaries, Conversions, Assignments, Choices};

/// Operators on two integers, and on one.
#[tactic(auto, unfolding(crate::proofs::Runs::runs_compute))]
pub fn integers_are_operated_on()
    ensures each { EachOperator }
    ensures shifts { Shifts }
    ensures comparisons { EachComparison }
    ensures common { ConvertsToTheCommonKind }
    ensures unaries { Unaries }
    ensures conversions { Conversions }
{}

/// What assignments, increments and choices give.
#[tactic(auto, unfolding(crate::proofs::Runs::runs_compute))]
pub fn values_are_given()
    ensures assignments { Assignments }
    ensures choices { Choices }
{}
