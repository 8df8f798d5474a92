//! Operands and operators.

ghost use Rattle.porch_check.specs.worked.Operators.{PlacesAreChangedAssigned, PlacesAreChangedAddress, PlacesAreChangedIncrement, PlacesAreChangedCast, PlacesAreChangedPlace, PointersAreNotCastFrom, PointersAreNotCastTo, PointersAreNotCastOther, PointersAreNotCastSecond, PointersAreNotCastOwn, UnsignedAndLongAreApartSum, UnsignedAndLongAreApartCompared, UnsignedAndLongAreApartChosen, UnsignedAndLongAreApartBy, UnsignedAndLongAreApartWins, UnsignedAndLongAreApartNotJoined, OperandsFitProduct, OperandsFitSum, OperandsFitDifference, OperandsFitRelation, OperandsFitEquality, OperandsFitCount, OperandsFitComplement, OperandsFitPointee, OperandsFitIndex, OperandsFitMember, OperandsFitArray, OperandsFitStructure, OperandsFitCondition, OperandsFitNoPlace, OperandsFitVoid, OperandsFitFit, OperandsFitStructs, NullAgreesSum, NullAgreesCharacter, NullAgreesInteger, NullAgreesNull};

/// `&`, `++`, `--` and the left of an assignment take places.
pub fn places_are_changed()
    ensures assigned { PlacesAreChangedAssigned }
    ensures address { PlacesAreChangedAddress }
    ensures increment { PlacesAreChangedIncrement }
    ensures cast { PlacesAreChangedCast }
    ensures place { PlacesAreChangedPlace }
{}

/// A cast to or from a pointer stands in front of an allocation of its pointee alone.
pub fn pointers_are_not_cast()
    ensures from { PointersAreNotCastFrom }
    ensures to { PointersAreNotCastTo }
    ensures other { PointersAreNotCastOther }
    ensures second { PointersAreNotCastSecond }
    ensures own { PointersAreNotCastOwn }
{}

/// unsigned int is joined with long by no operator.
pub fn unsigned_and_long_are_apart()
    ensures sum { UnsignedAndLongAreApartSum }
    ensures compared { UnsignedAndLongAreApartCompared }
    ensures chosen { UnsignedAndLongAreApartChosen }
    ensures by { UnsignedAndLongAreApartBy }
    ensures wins { UnsignedAndLongAreApartWins }
    ensures not_joined { UnsignedAndLongAreApartNotJoined }
{}

/// Each operator takes the operands that it is for.
pub fn operands_fit()
    ensures product { OperandsFitProduct }
    ensures sum { OperandsFitSum }
    ensures difference { OperandsFitDifference }
    ensures relation { OperandsFitRelation }
    ensures equality { OperandsFitEquality }
    ensures count { OperandsFitCount }
    ensures complement { OperandsFitComplement }
    ensures pointee { OperandsFitPointee }
    ensures index { OperandsFitIndex }
    ensures member { OperandsFitMember }
    ensures array { OperandsFitArray }
    ensures structure { OperandsFitStructure }
    ensures condition { OperandsFitCondition }
    ensures no_place { OperandsFitNoPlace }
    ensures void { OperandsFitVoid }
    ensures fit { OperandsFitFit }
    ensures structs { OperandsFitStructs }
{}

/// The constant 0 and NULL agree with every pointer; no other integer does.
pub fn null_agrees()
    ensures sum { NullAgreesSum }
    ensures character { NullAgreesCharacter }
    ensures integer { NullAgreesInteger }
    ensures null { NullAgreesNull }
{}
