//! What the definitions say of some small texts. The functions are laws, and have nothing to run.

ghost use Rattle.std.specs.Prelude.{◌≡◌, ◌<◌, ℕ, List, ◌∷◌, [], length, true, false, codes};
ghost use Rattle.porch_tree.specs.declared.word.Keyword.TheVariants.{Int};
ghost use Rattle.porch_tree.specs.declared.word.Mark.TheVariants.{PlusPlus, Plus, ShiftRightEqual, ShiftRight, Arrow, Dot, Slash};
ghost use Rattle.porch_lex.specs.declared.refusal.Rule.TheVariants.{Byte, Word, WideConstant, Outside, TooLarge};
ghost use Rattle.porch_lex.specs.declared.token.TokenKind.TheVariants.{Name, Keyword, Whole, Character, Text, Mark};
ghost use Rattle.porch_lex.specs.declared.lexeme.Lexeme.TheVariants.{End, Gap, Token, Fault};
ghost use Rattle.porch_lex.specs.Lexemes.{lexeme_at};
ghost use Rattle.porch_lex.specs.Tokens.{IsTokens, IsFirstLexFault, source_limit, token_at, refusal_at};

/// `a+++b` is `a`, `++`, `+`, `b`, and a slash begins a comment only before a star.
pub fn marks_are_the_longest()
    ensures twice { lexeme_at false (codes "+++b") ≡ Token (Mark PlusPlus) 2 }
    ensures once { lexeme_at false (codes "+b") ≡ Token (Mark Plus) 1 }
    ensures three { lexeme_at false (codes ">>=1") ≡ Token (Mark ShiftRightEqual) 3 }
    ensures two { lexeme_at false (codes ">> =1") ≡ Token (Mark ShiftRight) 2 }
    ensures arrow { lexeme_at false (codes "->") ≡ Token (Mark Arrow) 2 }
    ensures dot { lexeme_at false (codes "...") ≡ Token (Mark Dot) 1 }
    ensures slash { lexeme_at false (codes "//*x*/") ≡ Token (Mark Slash) 1 }
{}

/// A keyword is the whole word.
pub fn words_are_the_longest()
    ensures keyword { lexeme_at true (codes "int*") ≡ Token (Keyword Int) 3 }
    ensures name { lexeme_at true (codes "int_8 x") ≡ Token Name 5 }
    ensures end { lexeme_at false [] ≡ End }
{}

/// The suffixes and the greatest values of constants.
pub fn constants_have_limits()
    ensures int { lexeme_at false (codes "2147483647;") ≡ Token Whole 10 }
    ensures past_int { lexeme_at false (codes "2147483648;") ≡ Fault WideConstant }
    ensures unsigned { lexeme_at false (codes "0xFFFFffff") ≡ Token Whole 10 }
    ensures past_unsigned { lexeme_at false (codes "040000000000") ≡ Fault WideConstant }
    ensures long { lexeme_at false (codes "0x80000000L") ≡ Fault WideConstant }
    ensures unsigned_long { lexeme_at false (codes "4294967295lU)") ≡ Token Whole 12 }
    ensures zero { lexeme_at false (codes "0") ≡ Token Whole 1 }
{}

/// What isn't formed as a constant.
pub fn constants_have_a_form()
    ensures no_digits { lexeme_at false (codes "0x;") ≡ Fault Word }
    ensures suffix { lexeme_at false (codes "1ull;") ≡ Fault Word }
    ensures octal { lexeme_at false (codes "08") ≡ Fault Word }
    ensures dot { lexeme_at false (codes "1.5") ≡ Fault Word }
    ensures letter_first { lexeme_at false (codes "77777777777777y") ≡ Fault Word }
{}

/// Literals end at their quote, and hold only characters.
pub fn literals_hold_characters()
    ensures plain { lexeme_at false (codes "'\"'+1") ≡ Token Character 3 }
    ensures octal { lexeme_at false (codes "'\\377'") ≡ Token Character 6 }
    ensures past_a_byte { lexeme_at false (codes "'\\400'") ≡ Fault Word }
    ensures two { lexeme_at false (codes "'\\18'") ≡ Fault Word }
    ensures none { lexeme_at false (codes "'''") ≡ Fault Word }
    ensures text { lexeme_at false (codes "\"a\\x00041'\\\"\"\"b\"") ≡ Token Text 13 }
    ensures too_long { lexeme_at false (codes "\"\\x1ff\"") ≡ Fault Word }
    ensures newline { lexeme_at false (codes "\"a\nb\"") ≡ Fault Word }
{}

/// Comments, and what may stand after a `#`.
pub fn gaps_have_no_tokens()
    ensures comment { lexeme_at true (codes "/*/ **/x") ≡ Gap 7 false }
    ensures unended { lexeme_at true (codes "/*/") ≡ Fault Word }
    ensures header { lexeme_at true (codes "# include<stdio.h> \t\nint") ≡ Gap 20 false }
    ensures own { lexeme_at true (codes "#include \"porch.h\"") ≡ Gap 18 false }
    ensures other { lexeme_at true (codes "#include <string.h>\n") ≡ Fault Outside }
    ensures more { lexeme_at true (codes "#include <stdio.h> /**/\n") ≡ Fault Outside }
    ensures late { lexeme_at false (codes "#include <stdio.h>\n") ≡ Fault Byte }
    ensures newline { lexeme_at false (codes "\n#") ≡ Gap 1 true }
    ensures blank { lexeme_at false (codes " #") ≡ Gap 1 false }
    ensures byte { lexeme_at false (codes "@") ≡ Fault Byte }
{}

/// A whole text: `#include <stdio.h>` and `a+++b` in the next line.
pub fn a_small_text_has_these_tokens()
    ensures { IsTokens (codes "#include <stdio.h>\na+++b")
        (token_at Name 19 1 ∷ token_at (Mark PlusPlus) 20 2 ∷ token_at (Mark Plus) 22 1
        ∷ token_at Name 23 1 ∷ []) }
{}

/// The first rule that is broken: the size before the tokens, and of these the first wrong one.
#[tactic(auto, using(crate::proofs::Readings::large))]
pub fn the_first_broken_rule_is_named()
    ensures word { IsFirstLexFault (codes "int 08;@") (refusal_at 4 Word) }
    ensures byte { IsFirstLexFault (codes "x;\n/**/#") (refusal_at 7 Byte) }
    ensures large { (text : List ℕ) → source_limit < length text
        → IsFirstLexFault text (refusal_at 0 TooLarge) }
{}
