//! The one call: from the tokens of a text to its tree.

ghost use Rattle.std.specs.Prelude.{◌≡◌, ◌⊎◌, ◌≤◌, length, slice_get, IfOk, IfErr, MatchResult};
ghost use Rattle.porch_tree.specs.Mirror.{TranslationUnit};
ghost use Rattle.porch_tree.specs.Views.{unit_of};
ghost use Rattle.porch_tree.specs.Grammar.{IsUnit, place_of};
ghost use Rattle.porch_lex.specs.declared.refusal.Refusal.{Refusal};
ghost use Rattle.porch_lex.specs.declared.refusal.SourceFault.TheVariants.{Refused, NoMemory};
ghost use Rattle.porch_lex.specs.Tokens.{IsTokens, source_limit};
ghost use Rattle.porch_lex.specs.Words.{spelled};
ghost use Rattle.porch_depth.specs.Faults.{fault_of};
ghost use Rattle.porch_depth.specs.Told.{IsFaultless};
ghost use Rattle.porch_reader.specs.Answers.{rule_of, IsGrammarFault, IsFault};

use crate::laws::a_text_has_one_answer;
use porch_depth::{FaultyToken, GrammarFault, first_fault};
use porch_items::unit;
use porch_lex::{Refusal, Rule, SourceFault, Token};
use porch_tree::Tree;
use std::alloc::Global;

/// The tree of a text with these tokens, or the first rule of the grammar that it breaks, with its place.
pub fn parse(alloc: Global, text: &[u8], tokens: &[Token]) -> Result<Tree, SourceFault>
    requires lexed { IsTokens text.now tokens.now }
    ensures read { IfOk result
        (λ tree. IsUnit (spelled text.now tokens.now) (unit_of text.now tree)) }
    ensures refused { IfErr result (IsFault text.now tokens.now) }

    // Whichever of the two is so of the text is what comes, want of memory apart.
    ensures only { (u : TranslationUnit) → IsUnit (spelled text.now tokens.now) u
        → MatchResult result (λ tree. unit_of text.now tree ≡ u) (λ e. e ≡ NoMemory) }
    ensures fault { (r : Refusal) → IsGrammarFault text.now tokens.now r
        → MatchResult result (λ _. ⊥) (λ e. (e ≡ NoMemory) ⊎ (e ≡ Refused r)) }
{
    a_text_has_one_answer();
    read(alloc, text, tokens)
}

// the same, one way round
fn read(alloc: Global, text: &[u8], tokens: &[Token]) -> Result<Tree, SourceFault>
    requires { IsTokens text.now tokens.now }
    ensures read { IfOk result
        (λ tree. IsUnit (spelled text.now tokens.now) (unit_of text.now tree)) }
    ensures refused { IfErr result (IsFault text.now tokens.now) }
{
    match first_fault(alloc, text, tokens) {
        Ok(None) => read_unit(alloc, text, tokens),
        Ok(Some(faulty)) => Err(SourceFault::Refused(refusal_of(text, tokens, faulty))),
        Err(_) => Err(SourceFault::NoMemory),
    }
}

// tokens that are a unit
fn read_unit(alloc: Global, text: &[u8], tokens: &[Token]) -> Result<Tree, SourceFault>
    requires { IsFaultless (spelled text.now tokens.now) }
    ensures read { IfOk result
        (λ tree. IsUnit (spelled text.now tokens.now) (unit_of text.now tree)) }
    ensures refused { IfErr result (λ e. e ≡ NoMemory) }
{
    match unit(alloc, text, tokens) {
        Ok(Some(tree)) => Ok(tree),
        Ok(None) => unreachable!(),
        Err(_) => Err(SourceFault::NoMemory),
    }
}

// what a text is refused with that has a fault of the grammar
fn refusal_of(text: &[u8], tokens: &[Token], faulty: FaultyToken) -> Refusal
    requires { length text.now ≤ source_limit }
    ensures place { result.at
        ≡ place_of (length text.now) (slice_get (spelled text.now tokens.now) faulty.token) }
    ensures rule { result.rule ≡ rule_of (fault_of faulty.fault) }
{
    Refusal {
        at: place_of_token(text, tokens, faulty.token),
        rule: rule_of_fault(faulty.fault),
    }
}

fn rule_of_fault(fault: GrammarFault) -> Rule
    ensures { result ≡ rule_of (fault_of fault) }
{
    match fault {
        GrammarFault::Syntax => Rule::Syntax,
        GrammarFault::Nesting => Rule::Nesting,
        GrammarFault::Outside => Rule::Outside,
    }
}

// the first byte of a token, or the end of the text
#[tactic(auto, using(crate::proofs::Places::place_in))]
fn place_of_token(text: &[u8], tokens: &[Token], number: usize) -> u32
    requires { length text.now ≤ source_limit }
    ensures { result
        ≡ place_of (length text.now) (slice_get (spelled text.now tokens.now) number) }
{
    match token_at(tokens, number) {
        Some(token) => token.from,
        None => text.len() as u32,
    }
}

fn token_at(tokens: &[Token], number: usize) -> Option<Token>
    ensures { result ≡ slice_get tokens.now number }
{
    tokens.get(number).copied()
}
