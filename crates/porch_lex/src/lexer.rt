//! From a text to its tokens.

ghost use Rattle.std.specs.Prelude.{◌≡◌, ◌⊎◌, List, [], Err, IfOk, IfErr, OnOk, MatchResult};
ghost use Rattle.porch_lex.specs.declared.refusal.Refusal.{Refusal};
ghost use Rattle.porch_lex.specs.declared.refusal.SourceFault.TheVariants.{NoMemory, Refused};
ghost use Rattle.porch_lex.specs.declared.token.Token.{Token};
ghost use Rattle.porch_lex.specs.Tokens.{IsTokens, IsFirstLexFault, IsLexFault};

use crate::character::rest_from;
use crate::lexeme::{Lexeme, next_lexeme};
use crate::refusal::{Refusal, Rule, SourceFault};
use crate::token::Token;
use std::alloc::Global;

/// The greatest number of bytes of a source.
pub const SOURCE_LIMIT: usize = 1_048_576;

/// The tokens of a text, or the first rule that it breaks: its size comes before its tokens, and of
/// these the first one that is wrong is named.
pub fn lex(alloc: Global, text: &[u8]) -> Result<Vec<Token>, SourceFault>
    ensures read { IfOk result (λ v. IsTokens text.now v.items) }

    // Whatever is the tokens of the text is what comes, want of memory apart.
    ensures only { (ts : List Token) → IsTokens text.now ts →
        MatchResult result (λ v. v.items ≡ ts) (λ e. e ≡ NoMemory) }
    ensures refused { IfErr result (IsLexFault text.now) }

    // Whatever is the first broken rule is what comes, want of memory apart.
    ensures fault { (r : Refusal) → IsFirstLexFault text.now r →
        MatchResult result (λ v. ⊥) (λ e. (e ≡ NoMemory) ⊎ (e ≡ Refused r)) }
{
    read(alloc, text)
}

fn read(alloc: Global, text: &[u8]) -> Result<Vec<Token>, SourceFault>
    ensures read { IfOk result (λ v. IsTokens text.now v.items) }
    ensures refused { IfErr result (IsLexFault text.now) }
{
    let mut tokens = Vec::new(alloc);
    fill(text, &mut tokens)?;
    Ok(tokens)
}

fn fill(text: &[u8], tokens: &mut Vec<Token>) -> Result<(), SourceFault>
    requires { tokens.old.items ≡ [] }
    ensures read { OnOk result (IsTokens text.now tokens.new.items) }
    ensures refused { IfErr result (IsLexFault text.now) }
{
    if text.len() > SOURCE_LIMIT {
        return Err(SourceFault::Refused(Refusal {
            at: 0,
            rule: Rule::TooLarge,
        }));
    }
    let mut at = 0;
    let mut fresh = true;
    'lexemes: loop {
        match next_lexeme(fresh, rest_from(text, at)) {
            Lexeme::End => return Ok(()),
            Lexeme::Gap(length, next) => {
                at += length;
                fresh = next;
            }
            Lexeme::Token(kind, length) => {
                let to = at + length;
                tokens.push(Token {
                    kind,
                    from: at as u32,
                    to: to as u32,
                })?;
                at = to;
                fresh = false;
            }
            Lexeme::Fault(rule) => {
                return Err(SourceFault::Refused(Refusal {
                    at: at as u32,
                    rule,
                }));
            }
        }
    }
}
