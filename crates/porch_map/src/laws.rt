//! What the first values of globals are. The function is a law, and has nothing to run.

ghost use Rattle.porch_map.specs.Values.{ValuesAreOfGlobals};

/// Where types and places are a program's, the values are those of its globals with their initialisers.
pub fn values_are_of_globals()
    ensures { ValuesAreOfGlobals }
{}
