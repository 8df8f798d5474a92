//! Statements and initialisers.

ghost use Rattle.porch_check.specs.worked.Statements.{StatementsStandWhereTheyMayBreaks, StatementsStandWhereTheyMayContinues, StatementsStandWhereTheyMayNoResult, StatementsStandWhereTheyMayResult, StatementsStandWhereTheyMayCondition, StatementsStandWhereTheyMaySwitch, StatementsStandWhereTheyMayCase, StatementsStandWhereTheyMayRange, StatementsStandWhereTheyMaySameCase, StatementsStandWhereTheyMayDefault, StatementsStandWhereTheyMayAll, InitialisersFitMore, InitialisersFitNoPart, InitialisersFitLonger, InitialisersFitCall, InitialisersFitOnePast, InitialisersFitNoIndex, InitialisersFitEitherOrder, InitialisersFitInnerArray, InitialisersFitLocal, InitialisersFitArray, InitialisersFitFunction, InitialisersFitConstants};

/// break, continue, return and switch.
pub fn statements_stand_where_they_may()
    ensures breaks { StatementsStandWhereTheyMayBreaks }
    ensures continues { StatementsStandWhereTheyMayContinues }
    ensures no_result { StatementsStandWhereTheyMayNoResult }
    ensures result { StatementsStandWhereTheyMayResult }
    ensures condition { StatementsStandWhereTheyMayCondition }
    ensures switch { StatementsStandWhereTheyMaySwitch }
    ensures case { StatementsStandWhereTheyMayCase }
    ensures range { StatementsStandWhereTheyMayRange }
    ensures same_case { StatementsStandWhereTheyMaySameCase }
    ensures default { StatementsStandWhereTheyMayDefault }
    ensures all { StatementsStandWhereTheyMayAll }
{}

/// Initialisers give no more than there is; those of globals and in braces are constants.
pub fn initialisers_fit()
    ensures more { InitialisersFitMore }
    ensures no_part { InitialisersFitNoPart }
    ensures longer { InitialisersFitLonger }
    ensures call { InitialisersFitCall }
    ensures one_past { InitialisersFitOnePast }
    ensures no_index { InitialisersFitNoIndex }
    ensures either_order { InitialisersFitEitherOrder }
    ensures inner_array { InitialisersFitInnerArray }
    ensures local { InitialisersFitLocal }
    ensures array { InitialisersFitArray }
    ensures function { InitialisersFitFunction }
    ensures constants { InitialisersFitConstants }
{}
