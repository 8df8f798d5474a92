//! What holds of every text. The functions are laws, and have nothing to run.

ghost use Rattle.std.specs.Prelude.{◌≡◌, ℕ, List};
ghost use Rattle.porch_lex.specs.declared.refusal.Refusal.{Refusal};
ghost use Rattle.porch_lex.specs.declared.token.Token.{Token};
ghost use Rattle.porch_lex.specs.Tokens.{IsTokens};
ghost use Rattle.porch_lex.specs.Words.{spelled};
ghost use Rattle.porch_syntax.specs.Tree.{Program};
ghost use Rattle.porch_source.specs.Comments.{KeepsPlaces, without_comments};
ghost use Rattle.porch_source.specs.Sources.{IsSourceOf, IsUnbuilt, IsFirstRefusal};

use porch_lex::laws::{a_text_is_read_in_one_way, tokens_stand_in_order};
use porch_syntax::a_text_is_one_program;

/// A text is the source of at most one program, breaks at most one rule first, and is never two of a
/// program, refused, and not built yet.
pub fn a_text_has_one_answer()
    ensures program { (text : List ℕ) (p q : Program) → IsSourceOf text p → IsSourceOf text q
        → p ≡ q }
    ensures fault { (text : List ℕ) (r s : Refusal) → IsFirstRefusal text r → IsFirstRefusal text s
        → r ≡ s }
    ensures program_or_fault { (text : List ℕ) (p : Program) (r : Refusal) → IsSourceOf text p
        → IsFirstRefusal text r → ⊥ }
    ensures program_or_unbuilt { (text : List ℕ) (p : Program) → IsSourceOf text p
        → IsUnbuilt text → ⊥ }
    ensures unbuilt_or_fault { (text : List ℕ) (r : Refusal) → IsUnbuilt text
        → IsFirstRefusal text r → ⊥ }
{
    a_text_is_read_in_one_way();
    a_text_is_one_program();
}

/// Without its comments and includes a text has byte by byte what it had, or white space in its place, and
/// each token is spelled as before.
pub fn tokens_keep_their_places()
    ensures bytes { (text : List ℕ) (ts : List Token) → IsTokens text ts
        → KeepsPlaces text (without_comments text ts) }
    ensures tokens { (text : List ℕ) (ts : List Token) → IsTokens text ts
        → spelled (without_comments text ts) ts ≡ spelled text ts }
{
    tokens_stand_in_order();
}
