//! One past the end of a row, over `checkpoint()`.

ghost use Rattle.porch_mean.specs.worked.Ends.{HeldAsArgument, HeldAsOperand, HeldAsPlace, HeldAsLeftValue, Stored, MadeLater, ElementsStay, LastEndsStay, ReachedInACall, CopiedWithAStruct};

/// A shared end that an unfinished expression holds is forgotten, too.
#[tactic(auto, unfolding(crate::proofs::Runs::runs_compute))]
pub fn held_ends_are_forgotten()
    ensures argument { HeldAsArgument }
    ensures operand { HeldAsOperand }
    ensures place { HeldAsPlace }
    ensures left_value { HeldAsLeftValue }
{}

/// A stored shared end is forgotten, and what isn't one stays.
#[tactic(auto, unfolding(crate::proofs::Runs::runs_compute))]
pub fn stored_ends_are_forgotten()
    ensures stored { Stored }
    ensures later { MadeLater }
    ensures element { ElementsStay }
    ensures last { LastEndsStay }
    ensures in_a_call { ReachedInACall }
    ensures copied { CopiedWithAStruct }
{}
