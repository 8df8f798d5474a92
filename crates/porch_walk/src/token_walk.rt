//! A walk that its caller leads, token by token.

ghost use Rattle.std.specs.Prelude.{◌≡◌, IfOk, List, ℕ, reverse};
ghost use Rattle.porch_lex.specs.Words.{spelled_token};
ghost use Rattle.porch_walk.specs.Walk.{Stage as Standing, start};
ghost use Rattle.porch_walk.specs.Walks.{IsAt, Took, step_by, knows};

use crate::along::bytes_of;
use crate::stage::{Stage, name_bytes, take_word};
use crate::symbol::Symbol;
use indexmap::IndexSet;
use porch_lex::{Token, word_at};
use std::alloc::{AllocError, Global};

/// A walk over the tokens of a text.
#[derive(Drop)]
pub struct TokenWalk<'t> {
    stage: Stage<'t>,
}

impl<'t> TokenWalk<'t> {
    /// A walk that has read nothing.
    #[tactic(auto, using(crate::proofs::Walks::at_start))]
    pub fn new(alloc: Global) -> TokenWalk<'t>
        ensures { IsAt result start }
    {
        TokenWalk {
            stage: Stage {
                types: IndexSet::new(alloc),
                fresh: &[],
                inside: false,
                pending: Vec::new(alloc),
            },
        }
    }

    /// What may still be to come, the next part last.
    pub fn pending(&self) -> &[Symbol]
        ensures { (s : Standing) → IsAt self.now s → reverse result.now ≡ s.pending }
    {
        &self.stage.pending
    }

    /// Whether a token is a name that is a typedef name here.
    #[tactic(auto, using(crate::proofs::Walks::known_at))]
    pub fn knows(&self, text: &[u8], token: Token) -> bool
        ensures { (s : Standing) → IsAt self.now s
            → result ≡ knows s (spelled_token text.now token) }
    {
        self.stage
            .types
            .contains(name_bytes(word_at(token), bytes_of(text, token)))
    }

    /// Goes on with one more token, where it can come. Behind one that can't, the walk stands nowhere.
    #[tactic(auto, using(crate::proofs::Walks::took_at))]
    pub fn take(&mut self, text: &'t [u8], token: Token) -> Result<bool, AllocError>
        ensures { IfOk result (λ b. (s : Standing) → IsAt self.old s
            → Took b (step_by s (spelled_token text.now token)) self.new) }
    {
        take_word(&mut self.stage, word_at(token), bytes_of(text, token))
    }
}
