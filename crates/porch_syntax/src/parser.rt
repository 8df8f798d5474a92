//! The one call.

ghost use Rattle.std.specs.Prelude.{List, ℕ, ◌≡◌, ◌≤◌, ◌^◌, length, IfOk, IfSome};
ghost use Rattle.std.specs.Option.{option_map};
ghost use Rattle.porch_syntax.specs.Language.{IsSource};
ghost use Rattle.porch_syntax.specs.inside.Source.{source_of};
ghost use Rattle.porch_syntax.specs.Tree.{Program, program_of};

use crate::lexer::tokens;
use crate::program::program;
use crate::tree::Tree;
use std::alloc::{AllocError, Global};

const MOST_BYTES: usize = 1048576;

#[tactic(auto, unfolding(crate::specs::inside::Source::source_of))]
fn read(alloc: Global, text: &[u8]) -> Result<Option<Tree>, AllocError>
    requires { length text.now ≤ 2 ^ 20 }
    ensures { IfOk result (λ found. option_map program_of found ≡ source_of text.now) }
{
    match tokens(alloc, text)? {
        Some(found) => program(alloc, found.as_slice()),
        None => Ok(None),
    }
}

/// The tree of a program's text, or `None` where the text is no program. An error is want of memory.
pub fn parse(alloc: Global, text: &[u8]) -> Result<Option<Tree>, AllocError>
    ensures read { IfOk result
        (λ found. IfSome found (λ tree. IsSource text.now (program_of tree))) }
    ensures only { IfOk result (λ found. (p : Program) → IsSource text.now p
        → option_map program_of found ≡ Some p) }
{
    if text.len() > MOST_BYTES {
        Ok(None)
    } else {
        read(alloc, text)
    }
}

/// A text is at most one program. The function is a law, and has nothing to run.
pub fn a_text_is_one_program()
    ensures { (text : List ℕ) (p q : Program) → IsSource text p → IsSource text q → p ≡ q }
{}
