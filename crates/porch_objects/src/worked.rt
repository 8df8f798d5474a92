//! Worked cases of what is done through pointers, which the check computes.

ghost use Rattle.porch_objects.specs.Worked.{StepsStayInTheRow, EndsAreForgotten, PointersAreCompared, LeavesAreReached, AllocationsAreFreed, TextsEndInTheirRow};

/// Arithmetic stays in the row of its pointer, and an end that is shared lasts up to the next `checkpoint()`.
pub fn steps_and_ends()
    ensures steps { StepsStayInTheRow }
    ensures ends { EndsAreForgotten }
    ensures comparisons { PointersAreCompared }
{}

/// What is read, written, allocated, freed and shown through pointers.
pub fn accesses()
    ensures leaves { LeavesAreReached }
    ensures allocations { AllocationsAreFreed }
    ensures texts { TextsEndInTheirRow }
{}
