//! Where a run stops, and the marks that it makes.

ghost use Rattle.porch_mean.specs.worked.Turns.{PausesBeforeACall, PausesBehindTheCondition, PausesBeforeTheBody, CountsCallsAndRounds, MarksComeInOrder, MarksTellTurns, CallocGivesNull};

/// A run stops where one turn too many would begin.
#[tactic(auto, unfolding(crate::proofs::Runs::runs_compute))]
pub fn runs_pause()
    ensures call { PausesBeforeACall }
    ensures condition { PausesBehindTheCondition }
    ensures body { PausesBeforeTheBody }
    ensures counts { CountsCallsAndRounds }
{}

/// Checkpoints, allocations and frees are marked in order.
#[tactic(auto, unfolding(crate::proofs::Runs::runs_compute))]
pub fn marks_are_made()
    ensures order { MarksComeInOrder }
    ensures turns { MarksTellTurns }
    ensures calloc { CallocGivesNull }
{}
