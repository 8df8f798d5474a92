//! Calls: functions, the library, allocations and literals.

ghost use Rattle.porch_check.specs.worked.Calls.{FunctionsAreCalledNotCalled, FunctionsAreCalledParentheses, FunctionsAreCalledNumber, FunctionsAreCalledOperandsFirst, FunctionsAreCalledArgument, FunctionsAreCalledObject, TheLibraryIsCalledPutchar, TheLibraryIsCalledPuts, TheLibraryIsCalledFree, TheLibraryIsCalledCheckpoint, TheLibraryIsCalledAll, AllocationsHaveSizesOutside, AllocationsHaveSizesParentheses, AllocationsHaveSizesObject, AllocationsHaveSizesTwo, AllocationsHaveSizesNone, AllocationsHaveSizesCount, AllocationsHaveSizesForms, LiteralsAreShownPointer, LiteralsAreShownParentheses, LiteralsAreShownUnsigned, LiteralsAreShownBegins, FormatsAreMatchedConversion, FormatsAreMatchedNumber, FormatsAreMatchedKind, FormatsAreMatchedText, FormatsAreMatchedNoLiteral, FormatsAreMatchedNothing, FormatsAreMatchedMatched};

/// A function is called by its name, with one argument for each parameter.
pub fn functions_are_called()
    ensures not_called { FunctionsAreCalledNotCalled }
    ensures parentheses { FunctionsAreCalledParentheses }
    ensures number { FunctionsAreCalledNumber }
    ensures operands_first { FunctionsAreCalledOperandsFirst }
    ensures argument { FunctionsAreCalledArgument }
    ensures object { FunctionsAreCalledObject }
{}

/// putchar, puts, free and checkpoint.
pub fn the_library_is_called()
    ensures putchar { TheLibraryIsCalledPutchar }
    ensures puts { TheLibraryIsCalledPuts }
    ensures free { TheLibraryIsCalledFree }
    ensures checkpoint { TheLibraryIsCalledCheckpoint }
    ensures all { TheLibraryIsCalledAll }
{}

/// sizeof stands in an allocation, bare.
pub fn allocations_have_sizes()
    ensures outside { AllocationsHaveSizesOutside }
    ensures parentheses { AllocationsHaveSizesParentheses }
    ensures object { AllocationsHaveSizesObject }
    ensures two { AllocationsHaveSizesTwo }
    ensures none { AllocationsHaveSizesNone }
    ensures count { AllocationsHaveSizesCount }
    ensures forms { AllocationsHaveSizesForms }
{}

/// A string literal is an argument of printf or puts, or begins an array of char.
pub fn literals_are_shown()
    ensures pointer { LiteralsAreShownPointer }
    ensures parentheses { LiteralsAreShownParentheses }
    ensures unsigned { LiteralsAreShownUnsigned }
    ensures begins { LiteralsAreShownBegins }
{}

/// The arguments of printf match its format.
pub fn formats_are_matched()
    ensures conversion { FormatsAreMatchedConversion }
    ensures number { FormatsAreMatchedNumber }
    ensures kind { FormatsAreMatchedKind }
    ensures text { FormatsAreMatchedText }
    ensures no_literal { FormatsAreMatchedNoLiteral }
    ensures nothing { FormatsAreMatchedNothing }
    ensures matched { FormatsAreMatchedMatched }
{}
