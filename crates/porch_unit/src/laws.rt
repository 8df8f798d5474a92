//! What holds of the builder over all lists of tokens. The function is a law, and has nothing to run.

ghost use Rattle.std.specs.Prelude.{◌≡◌, List, Some};
ghost use Rattle.porch_tree.specs.Mirror.{TranslationUnit};
ghost use Rattle.porch_tree.specs.Pieces.{Spelled};
ghost use Rattle.porch_tree.specs.Grammar.{IsDeepUnit};
ghost use Rattle.porch_unit.specs.Units.{unit_of_tokens};

use porch_declarations::{declarations_pass, heads_pass};
use porch_parts::{bases_start, plains_start, single_expressions_end, whole_expressions_end};

/// Of the tokens of a unit comes this unit, however deep its parts lie.
pub fn each_unit_is_built()
    ensures built { (ts : List Spelled) (u : TranslationUnit) → IsDeepUnit ts u →
        unit_of_tokens ts ≡ Some u }
{
    whole_expressions_end();
    single_expressions_end();
    bases_start();
    plains_start();
    declarations_pass();
    heads_pass();
}
