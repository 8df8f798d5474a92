//! What holds of the tokens of every text. The functions are laws, and have nothing to run.

ghost use Rattle.std.specs.Prelude.{◌≡◌, ◌≤◌, List, ℕ, length, Some};
ghost use Rattle.porch_lex.specs.declared.refusal.Refusal.{Refusal};
ghost use Rattle.porch_lex.specs.declared.token.Token.{Token};
ghost use Rattle.porch_lex.specs.Spelling.{IsSpelling, AreSpelled, AreLongest};
ghost use Rattle.porch_lex.specs.declared.token.TokenKind.TheVariants.{Whole};
ghost use Rattle.porch_lex.specs.Constants.{constant_value, number_in};
ghost use Rattle.porch_lex.specs.Literals.{if_byte};
ghost use Rattle.porch_lex.specs.Values.{whole_of, byte_in};
ghost use Rattle.porch_lex.specs.Tokens.{IsTokens, IsFirstLexFault, IsRising, bytes_of_tokens};

/// A text has at most one list of tokens and at most one first fault, and never both.
#[tactic(auto, using(crate::proofs::Readings::tokens_alone, crate::proofs::Readings::first_fault_alone, crate::proofs::Readings::tokens_or_fault))]
pub fn a_text_is_read_in_one_way()
    ensures tokens { (text : List ℕ) (ts us : List Token) → IsTokens text ts → IsTokens text us
        → ts ≡ us }
    ensures fault { (text : List ℕ) (r s : Refusal) → IsFirstLexFault text r
        → IsFirstLexFault text s → r ≡ s }
    ensures either { (text : List ℕ) (ts : List Token) (r : Refusal) → IsTokens text ts
        → IsFirstLexFault text r → ⊥ }
{}

/// Tokens stand in order in their text and don't overlap. So there are at most as many as the text has
/// bytes, and together they have at most as many bytes as it.
#[tactic(auto, using(crate::proofs::Rising::tokens_rise, crate::proofs::Rising::tokens_are_few, crate::proofs::Rising::tokens_are_small))]
pub fn tokens_stand_in_order()
    ensures rising { (text : List ℕ) (ts : List Token) → IsTokens text ts
        → IsRising 0 ts (length text) }
    ensures count { (text : List ℕ) (ts : List Token) → IsTokens text ts
        → length ts ≤ length text }
    ensures bytes { (text : List ℕ) (ts : List Token) → IsTokens text ts
        → bytes_of_tokens ts ≤ length text }
{}

/// The bytes of a token spell it: a keyword and a mark are their own, a name is a word that is no
/// keyword, a constant and a literal are whole and right.
#[tactic(auto, using(crate::proofs::Spelled::tokens_are_spelled))]
pub fn tokens_are_spelled()
    ensures { (text : List ℕ) (ts : List Token) → IsTokens text ts → AreSpelled text ts }
{}

/// Each token is the longest possible: no more bytes from its first one on spell a token.
#[tactic(auto, using(crate::proofs::Longest::tokens_are_longest))]
pub fn tokens_are_the_longest()
    ensures { (text : List ℕ) (ts : List Token) → IsTokens text ts → AreLongest text ts }
{}

/// The value of a right constant, and of an escape that is taken, is the number of its digits.
#[tactic(auto, using(crate::proofs::Values::values_fit, crate::proofs::Values::bytes_fit))]
pub fn values_are_numbers()
    ensures whole { (cs : List ℕ) → IsSpelling Whole cs → whole_of cs ≡ constant_value cs }
    ensures escape { (base : ℕ) (digits : List ℕ) (m n : ℕ)
        → if_byte (number_in base digits) m ≡ Some n → byte_in base digits ≡ number_in base digits }
{}
