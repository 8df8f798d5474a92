//! Structs: copies with what has no value, members, and initialisers.

ghost use Rattle.porch_mean.specs.worked.Structs.{CopiesNoValue, ReadsWhatWasCopied, CopiesByChoice, ReadsBeforeTheNextOperand, ReachesAStructThroughNull, ReachesTheValueFirst, ReachesMembers, Initialises, InitialisesByNoValue, GlobalsAreFilled};

/// A struct is copied as it is, and what has no value is missed only where it is read.
#[tactic(auto, unfolding(crate::proofs::Runs::runs_compute))]
pub fn structs_are_copied()
    ensures no_value { CopiesNoValue }
    ensures read { ReadsWhatWasCopied }
    ensures choice { CopiesByChoice }
    ensures operand { ReadsBeforeTheNextOperand }
{}

/// A struct is reached at once, and its members through it.
#[tactic(auto, unfolding(crate::proofs::Runs::runs_compute))]
pub fn structs_are_reached()
    ensures null { ReachesAStructThroughNull }
    ensures value_first { ReachesTheValueFirst }
    ensures members { ReachesMembers }
{}

/// What objects begin with.
#[tactic(auto, unfolding(crate::proofs::Runs::runs_compute))]
pub fn objects_are_initialised()
    ensures filled { Initialises }
    ensures no_value { InitialisesByNoValue }
    ensures globals { GlobalsAreFilled }
{}
