//! Calls: arguments, values, recursion, and objects that end with their call.

ghost use Rattle.porch_mean.specs.worked.Calls.{Recurses, CallsEachOther, MainWithoutAValueGivesZero, MainMayEnd, DropsNoValue, UsesNoValue, StarUsesItsOperand, UsesBeforeConversions, ObjectsEndWithTheirCall, CallersObjectsLive, ArgumentsAreConverted, ArgumentsComeBeforeTheTurn};

/// Functions call themselves and each other, and `main` gives 0 where it gives nothing.
#[tactic(auto, unfolding(crate::proofs::Runs::runs_compute))]
pub fn calls_return()
    ensures recursion { Recurses }
    ensures each_other { CallsEachOther }
    ensures main_gives { MainWithoutAValueGivesZero }
    ensures main_ends { MainMayEnd }
{}

/// A value that no call gave may be dropped, and is missed where it is used.
#[tactic(auto, unfolding(crate::proofs::Runs::runs_compute))]
pub fn values_are_used()
    ensures dropped { DropsNoValue }
    ensures used { UsesNoValue }
    ensures star { StarUsesItsOperand }
    ensures converted { UsesBeforeConversions }
{}

/// Arguments come first, and variables live up to the end of their call.
#[tactic(auto, unfolding(crate::proofs::Runs::runs_compute))]
pub fn variables_live()
    ensures ended { ObjectsEndWithTheirCall }
    ensures of_callers { CallersObjectsLive }
    ensures converted { ArgumentsAreConverted }
    ensures turn { ArgumentsComeBeforeTheTurn }
{}
