//! Declared types.

ghost use Rattle.porch_check.specs.worked.Types.{ObjectsAreCompleteVoid, ObjectsAreCompleteIncomplete, ObjectsAreCompleteParameter, ObjectsAreCompleteMember, ObjectsAreCompleteFunction, ObjectsAreCompleteElement, ObjectsAreCompleteOfBlock, ObjectsAreCompleteComplete, PointeesAreCompletedVoid, PointeesAreCompletedFunction, PointeesAreCompletedNever, PointeesAreCompletedInParameters, PointeesAreCompletedOwnParameters, PointeesAreCompletedUsed, PointeesAreCompletedLater, FunctionsAreDeclaredAlikeArray, FunctionsAreDeclaredAlikeFunction, FunctionsAreDeclaredAlikeNoFunction, FunctionsAreDeclaredAlikeNameless, FunctionsAreDeclaredAlikeOtherType, FunctionsAreDeclaredAlikeStructParameter, FunctionsAreDeclaredAlikeIncompleteParameter, FunctionsAreDeclaredAlikeStructResult, FunctionsAreDeclaredAlikeArrayParameter, ConstantsAreAskedForZero, ConstantsAreAskedForObject, ConstantsAreAskedForOverflow, ConstantsAreAskedForNotEvaluated, ConstantsAreAskedForCountedUp, ConstantsAreAskedForEnumeration, ConstantsAreAskedForNarrow, TypesAreSmallArray, TypesAreSmallStructure, TypesAreSmallAll, TypesAreSmallMost, MainIsThereParameter, MainIsThereBeforeTheSum, MainIsThereEmptyList};

/// Objects, parameters, members and elements are complete.
pub fn objects_are_complete()
    ensures void { ObjectsAreCompleteVoid }
    ensures incomplete { ObjectsAreCompleteIncomplete }
    ensures parameter { ObjectsAreCompleteParameter }
    ensures member { ObjectsAreCompleteMember }
    ensures function { ObjectsAreCompleteFunction }
    ensures element { ObjectsAreCompleteElement }
    ensures of_block { ObjectsAreCompleteOfBlock }
    ensures complete { ObjectsAreCompleteComplete }
{}

/// A pointee is completed somewhere in the text, and where it is used.
pub fn pointees_are_completed()
    ensures void { PointeesAreCompletedVoid }
    ensures function { PointeesAreCompletedFunction }
    ensures never { PointeesAreCompletedNever }
    ensures in_parameters { PointeesAreCompletedInParameters }
    ensures own_parameters { PointeesAreCompletedOwnParameters }
    ensures used { PointeesAreCompletedUsed }
    ensures later { PointeesAreCompletedLater }
{}

/// Results, bodies and later declarations of functions.
pub fn functions_are_declared_alike()
    ensures array { FunctionsAreDeclaredAlikeArray }
    ensures function { FunctionsAreDeclaredAlikeFunction }
    ensures no_function { FunctionsAreDeclaredAlikeNoFunction }
    ensures nameless { FunctionsAreDeclaredAlikeNameless }
    ensures other_type { FunctionsAreDeclaredAlikeOtherType }
    ensures struct_parameter { FunctionsAreDeclaredAlikeStructParameter }
    ensures incomplete_parameter { FunctionsAreDeclaredAlikeIncompleteParameter }
    ensures struct_result { FunctionsAreDeclaredAlikeStructResult }
    ensures array_parameter { FunctionsAreDeclaredAlikeArrayParameter }
{}

/// Counts of arrays and enumeration constants are constants, folded under both widths of long.
pub fn constants_are_asked_for()
    ensures zero { ConstantsAreAskedForZero }
    ensures object { ConstantsAreAskedForObject }
    ensures overflow { ConstantsAreAskedForOverflow }
    ensures not_evaluated { ConstantsAreAskedForNotEvaluated }
    ensures counted_up { ConstantsAreAskedForCountedUp }
    ensures enumeration { ConstantsAreAskedForEnumeration }
    ensures narrow { ConstantsAreAskedForNarrow }
{}

/// Types and globals have a limited number of leaves.
pub fn types_are_small()
    ensures array { TypesAreSmallArray }
    ensures structure { TypesAreSmallStructure }
    ensures all { TypesAreSmallAll }
    ensures most { TypesAreSmallMost }
{}

/// There is a main without parameters that gives an int, and this is asked before the sum of the globals.
pub fn main_is_there()
    ensures parameter { MainIsThereParameter }
    ensures before_the_sum { MainIsThereBeforeTheSum }
    ensures empty_list { MainIsThereEmptyList }
{}
