//! What the cells and sources of a function's commands are in its frames. The functions are laws, and have nothing to run.

ghost use Rattle.porch_instructions.specs.Variables.{CellsAreVariables, SourcesAreOperands, PointeesAreTypes};

/// The cell of a variable is the variable, what an operand is read from has its number, and what a scope says of a
/// pointer's type is so.
pub fn scopes_are_of_functions()
    ensures cells { CellsAreVariables }
    ensures sources { SourcesAreOperands }
    ensures pointees { PointeesAreTypes }
{}
