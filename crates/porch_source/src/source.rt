//! The one call: from a text to its program.

ghost use Rattle.std.specs.Prelude.{◌≡◌, ◌⊎◌, ◌≤◌, ℕ, List, length, slice_get, IfOk, IfErr, MatchResult};
ghost use Rattle.porch_lex.specs.declared.refusal.Refusal.{Refusal};
ghost use Rattle.porch_tree.specs.Grammar.{place_of};
ghost use Rattle.porch_lex.specs.Tokens.{IsTokens, source_limit};
ghost use Rattle.porch_lex.specs.Words.{spelled};
ghost use Rattle.porch_depth.specs.Faults.{fault_of};
ghost use Rattle.porch_syntax.specs.Language.{IsSource};
ghost use Rattle.porch_syntax.specs.Tree.{Program, program_of};
ghost use Rattle.porch_source.specs.declared.fault.SourceFault.TheVariants.{Refused, Unbuilt, NoMemory};
ghost use Rattle.porch_source.specs.Sources.{IsAccepted, IsSourceOf, IsUnbuilt, IsFirstRefusal, IsFault, rule_of};
ghost use Rattle.porch_source.specs.inside.Faults.{lex_fault};

use crate::comments::without_comments;
use crate::fault::SourceFault;
use crate::laws::a_text_has_one_answer;
use porch_depth::{FaultyToken, GrammarFault, first_fault};
use porch_lex::{Refusal, Rule, Token, lex};
use porch_syntax::{Tree, parse};
use std::alloc::Global;

/// The program that a text is the source of, or the first rule that the text breaks: its size comes first,
/// then its tokens, then its grammar. A text that breaks none, and isn't in the part of the language that
/// runs yet, is `Unbuilt`.
pub fn read_program(alloc: Global, text: &[u8]) -> Result<Tree, SourceFault>
    ensures read { IfOk result (λ tree. IsSourceOf text.now (program_of tree)) }
    ensures refused { IfErr result (IsFault text.now) }

    // Whichever of the three is so of the text is what comes, want of memory apart.
    ensures only { (p : Program) → IsSourceOf text.now p
        → MatchResult result (λ tree. program_of tree ≡ p) (λ e. e ≡ NoMemory) }
    ensures fault { (r : Refusal) → IsFirstRefusal text.now r
        → MatchResult result (λ _. ⊥) (λ e. (e ≡ NoMemory) ⊎ (e ≡ Refused r)) }
    ensures unbuilt { IsUnbuilt text.now
        → MatchResult result (λ _. ⊥) (λ e. (e ≡ NoMemory) ⊎ (e ≡ Unbuilt)) }
{
    a_text_has_one_answer();
    read(alloc, text)
}

// the same, one way round
fn read(alloc: Global, text: &[u8]) -> Result<Tree, SourceFault>
    ensures read { IfOk result (λ tree. IsSourceOf text.now (program_of tree)) }
    ensures refused { IfErr result (IsFault text.now) }
{
    match lex(alloc, text) {
        Ok(tokens) => read_tokens(alloc, text, tokens.as_slice()),
        Err(fault) => Err(fault_of_lex(fault)),
    }
}

// a text that has these tokens
fn read_tokens(alloc: Global, text: &[u8], tokens: &[Token]) -> Result<Tree, SourceFault>
    requires { IsTokens text.now tokens.now }
    ensures read { IfOk result (λ tree. IsSourceOf text.now (program_of tree)) }
    ensures refused { IfErr result (IsFault text.now) }
{
    match first_fault(alloc, text, tokens) {
        Ok(None) => read_accepted(alloc, text, tokens),
        Ok(Some(faulty)) => Err(SourceFault::Refused(refusal_of(text, tokens, faulty))),
        Err(_) => Err(SourceFault::NoMemory),
    }
}

// a text whose tokens are accepted
fn read_accepted(alloc: Global, text: &[u8], tokens: &[Token]) -> Result<Tree, SourceFault>
    requires { IsAccepted text.now tokens.now }
    ensures read { IfOk result (λ tree. IsSourceOf text.now (program_of tree)) }
    ensures refused { IfErr result (IsFault text.now) }
{
    match without_comments(alloc, text, tokens) {
        Ok(clean) => read_clean(alloc, clean.as_slice()),
        Err(_) => Err(SourceFault::NoMemory),
    }
}

// a text that is accepted, without its comments and includes
fn read_clean(alloc: Global, clean: &[u8]) -> Result<Tree, SourceFault>
    ensures read { IfOk result (λ tree. IsSource clean.now (program_of tree)) }
    ensures unbuilt { IfErr result (λ e. (e ≡ NoMemory)
        ⊎ (e ≡ Unbuilt) × ((p : Program) → IsSource clean.now p → ⊥)) }
{
    match parse(alloc, clean) {
        Ok(Some(tree)) => Ok(tree),
        Ok(None) => Err(SourceFault::Unbuilt),
        Err(_) => Err(SourceFault::NoMemory),
    }
}

// what a text is refused with that breaks a rule of tokens
fn fault_of_lex(fault: porch_lex::SourceFault) -> SourceFault
    ensures { result ≡ lex_fault fault }
{
    match fault {
        porch_lex::SourceFault::Refused(refusal) => SourceFault::Refused(refusal),
        porch_lex::SourceFault::NoMemory => SourceFault::NoMemory,
    }
}

// what a text is refused with that has a fault of the grammar
fn refusal_of(text: &[u8], tokens: &[Token], faulty: FaultyToken) -> Refusal
    requires { length text.now ≤ source_limit }
    ensures place { result.at
        ≡ place_of (length text.now) (slice_get (spelled text.now tokens.now) faulty.token) }
    ensures rule { result.rule ≡ rule_of (fault_of faulty.fault) }
{
    Refusal {
        at: place_of_token(text, tokens, faulty.token),
        rule: rule_of_fault(faulty.fault),
    }
}

fn rule_of_fault(fault: GrammarFault) -> Rule
    ensures { result ≡ rule_of (fault_of fault) }
{
    match fault {
        GrammarFault::Syntax => Rule::Syntax,
        GrammarFault::Nesting => Rule::Nesting,
        GrammarFault::Outside => Rule::Outside,
    }
}

// the first byte of a token, or the end of the text
#[tactic(auto, using(crate::proofs::Places::place_in))]
fn place_of_token(text: &[u8], tokens: &[Token], number: usize) -> u32
    requires { length text.now ≤ source_limit }
    ensures { result
        ≡ place_of (length text.now) (slice_get (spelled text.now tokens.now) number) }
{
    match token_at(tokens, number) {
        Some(token) => token.from,
        None => text.len() as u32,
    }
}

fn token_at(tokens: &[Token], number: usize) -> Option<Token>
    ensures { result ≡ slice_get tokens.now number }
{
    tokens.get(number).copied()
}
