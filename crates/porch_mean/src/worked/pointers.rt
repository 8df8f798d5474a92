//! Pointers to pointers, rows of rows, and a list on the heap.

ghost use Rattle.porch_mean.specs.worked.Whole.{WholeProgramRuns};
ghost use Rattle.porch_mean.specs.worked.Pointers.{PointersToPointers, RowsOfRows, StepsThroughAnArray, ListsAreBuiltAndFreed};

/// Pointers lead through arrays, through each other, and from block to block.
#[tactic(auto, unfolding(crate::proofs::Runs::runs_compute))]
pub fn pointers_lead()
    ensures pointers { PointersToPointers }
    ensures rows { RowsOfRows }
    ensures steps { StepsThroughAnArray }
    ensures lists { ListsAreBuiltAndFreed }
{}

/// A program with calls, a list of blocks, checkpoints and output.
#[tactic(auto, unfolding(crate::proofs::Runs::runs_compute))]
pub fn a_whole_program_runs()
    ensures { WholeProgramRuns }
{}
