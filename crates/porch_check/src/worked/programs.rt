//! Typed programs of small texts, whole.

ghost use Rattle.porch_check.specs.worked.Programs.{ProgramsSmall, ProgramsList, ProgramsFills};

/// Types get their numbers in the order in which they are complete, and pointers to all of them stand behind them.
pub fn programs_are_typed()
    ensures small { ProgramsSmall }
    ensures list { ProgramsList }
    ensures fills { ProgramsFills }
{}
