//! Programs that are worked out, which the check computes.

ghost use Rattle.porch_abstract.specs.whole.Worked.{CallsReturn, EndsAreForgotten, BlocksEnd, TextsAreShown, MarksAreTold, OperatorsCompute, PlacesAreReached, JumpsLead, StructsAreCopied};

/// A call's value comes back, each call counts a turn, and a run stops before one too many.
pub fn calls_return()
    ensures { CallsReturn }
{}

/// An end that is shared lasts up to the next CHECKPOINT, and is a fault where it is used behind it.
pub fn ends_are_forgotten()
    ensures { EndsAreForgotten }
{}

/// What is allocated is there until it is freed, which only a pointer to its begin does.
pub fn blocks_end()
    ensures { BlocksEnd }
{}

/// A text is shown up to its byte 0, which has to come; the commands for saving do nothing.
pub fn texts_are_shown()
    ensures { TextsAreShown }
{}

/// A run tells its checkpoints, its allocations, and the frees that end one.
pub fn marks_are_told()
    ensures { MarksAreTold }
{}

/// Each operator and comparison gives its result, or meets what it has none for.
pub fn operators_compute()
    ensures { OperatorsCompute }
{}

/// Pointers reach the parts of an object, compare where they may, and KILL forgets all of it.
pub fn places_are_reached()
    ensures { PlacesAreReached }
{}

/// A jump leads backward to a label that a TURN follows, or forward.
pub fn jumps_lead()
    ensures { JumpsLead }
{}

/// A struct is copied with what has no value, and a difference is in elements.
pub fn structs_are_copied()
    ensures { StructsAreCopied }
{}
