//! Worked cases of the meaning, which the check computes.

ghost use Rattle.porch_meaning.specs.Worked.{CountsToThree, PausesBehindThreeTurns, Overflows, ReadsNoValue, ReadsItself, AssignsNoValue, LoopsNest, LoopNeverRuns, ReturnsFromLoop, Compares, GroupsToTheLeft, LeftOperandFirst, ThenTheRight, BudgetOfOne, ShowsLowBytes};

/// Programs that end.
pub fn ends()
    ensures counts { CountsToThree }
    ensures nests { LoopsNest }
    ensures never_runs { LoopNeverRuns }
    ensures returns_from_loop { ReturnsFromLoop }
    ensures compares { Compares }
    ensures groups { GroupsToTheLeft }
    ensures shows { ShowsLowBytes }
{}

/// Programs whose turns are used up.
pub fn pauses()
    ensures counting { PausesBehindThreeTurns }
    ensures at_once { BudgetOfOne }
{}

/// Programs that meet an undefined act.
pub fn meets_acts()
    ensures overflows { Overflows }
    ensures reads { ReadsNoValue }
    ensures reads_itself { ReadsItself }
    ensures assigns { AssignsNoValue }
    ensures left { LeftOperandFirst }
    ensures right { ThenTheRight }
{}
