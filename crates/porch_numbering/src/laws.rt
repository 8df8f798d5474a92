//! The last types of a text are a program's. The functions are laws, and have nothing to run.

ghost use Rattle.porch_numbering.specs.Laws.{LastTypesAreTypes, LastTypesAreAnEnd, FirstTypesMayBeLast};

/// The types of a whole text, in the order in which they became complete, are a list of types.
pub fn last_types_are_types()
    ensures { LastTypesAreTypes }
{}

/// A program with these types is one that the text may come to.
pub fn last_types_are_an_end()
    ensures { LastTypesAreAnEnd }
{}

/// The types that a text begins with may be its last: nothing is asked that no types meet.
pub fn first_types_may_be_last()
    ensures { FirstTypesMayBeLast }
{}
