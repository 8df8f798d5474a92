//! What is proved of rewriting.

ghost use Rattle.porch_rewrite.specs.Laws.{KeepsRules, SameMeaning, VariablesHaveNumbers};

use porch_abstract::whole::laws::{runs_end, runs_have_one_end};
use porch_flat::whole::reaching_is_least;

/// The rewritten program means what the plain one does: output, marks, turns and ending, in each environment and to each
/// number of turns.
pub fn rewriting_keeps_the_meaning()
    ensures { SameMeaning }
{
    runs_end();
    runs_have_one_end();
}

/// The rewritten program keeps every rule, that on commands for saving and rebuilding frames among them.
pub fn rewriting_keeps_the_rules()
    ensures { KeepsRules }
{
    reaching_is_least();
}

/// No function of a program that keeps its rules has more variables than there are numbers for them.
pub fn variables_have_numbers()
    ensures { VariablesHaveNumbers }
{}
