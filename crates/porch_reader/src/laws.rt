//! What holds of every list of tokens. The function is a law, and has nothing to run.

ghost use Rattle.std.specs.Prelude.{◌≡◌, ℕ, List};
ghost use Rattle.porch_tree.specs.Mirror.{TranslationUnit};
ghost use Rattle.porch_tree.specs.Pieces.{Spelled};
ghost use Rattle.porch_tree.specs.Grammar.{IsUnit};
ghost use Rattle.porch_lex.specs.declared.refusal.Refusal.{Refusal};
ghost use Rattle.porch_lex.specs.declared.token.Token.{Token};
ghost use Rattle.porch_lex.specs.Words.{spelled};
ghost use Rattle.porch_reader.specs.Answers.{IsGrammarFault};

use porch_unit::each_unit_is_built;
use porch_walk::laws::each_unit_is_read_whole;

/// Tokens are those of one unit at most, a text breaks at most one rule of the grammar first, and none where
/// a unit has its tokens.
pub fn a_text_has_one_answer()
    ensures unit { (ts : List Spelled) (u v : TranslationUnit) → IsUnit ts u → IsUnit ts v → u ≡ v }
    ensures fault { (text : List ℕ) (ts : List Token) (r s : Refusal) → IsGrammarFault text ts r
        → IsGrammarFault text ts s → r ≡ s }
    ensures unit_or_fault { (text : List ℕ) (ts : List Token) (u : TranslationUnit) (r : Refusal)
        → IsUnit (spelled text ts) u → IsGrammarFault text ts r → ⊥ }
{
    each_unit_is_built();
    each_unit_is_read_whole();
}
