//! Each undefined act, and what is none beside it.

ghost use Rattle.porch_mean.specs.worked.Acts.{MeetsOverflow, LeastHasNoRemainder, CharsGoThroughInt, MeetsDivide, MeetsShift, ShiftsByWidth, MeetsNarrow, ConvertsFirst, ReadsNoValue, ReadsItself, MeetsAccess, MeetsRow, MeetsRelation, MeetsCompare, MeetsFree, MeetsCount, PointersEndWithTheirObject, HeldPointersEnd, FreesOnlyWholeBlocks, CountsHaveAnEnd, LongsGoByWidth, ConversionsGoByWidth};

/// Acts of integers, among them those that depend on the width of long.
#[tactic(auto, unfolding(crate::proofs::Runs::runs_compute))]
pub fn integers_meet_acts()
    ensures overflow { MeetsOverflow }
    ensures remainder { LeastHasNoRemainder }
    ensures small_kinds { CharsGoThroughInt }
    ensures divide { MeetsDivide }
    ensures shift { MeetsShift }
    ensures shift_by_width { ShiftsByWidth }
    ensures narrow { MeetsNarrow }
    ensures conversion { ConvertsFirst }
    ensures longs { LongsGoByWidth }
    ensures conversions { ConversionsGoByWidth }
{}

/// A value that isn't there is read.
#[tactic(auto, unfolding(crate::proofs::Runs::runs_compute))]
pub fn values_are_missing()
    ensures never_given { ReadsNoValue }
    ensures itself { ReadsItself }
    ensures ended { PointersEndWithTheirObject }
    ensures held { HeldPointersEnd }
{}

/// Acts of pointers, and of allocations.
#[tactic(auto, unfolding(crate::proofs::Runs::runs_compute))]
pub fn pointers_meet_acts()
    ensures access { MeetsAccess }
    ensures row { MeetsRow }
    ensures relation { MeetsRelation }
    ensures compare { MeetsCompare }
    ensures free { MeetsFree }
    ensures count { MeetsCount }
    ensures inside { FreesOnlyWholeBlocks }
    ensures great_count { CountsHaveAnEnd }
{}
