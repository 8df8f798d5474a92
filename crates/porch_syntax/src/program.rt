//! From tokens to a tree.

ghost use Rattle.std.specs.Prelude.{◌≡◌, IfOk};
ghost use Rattle.std.specs.Option.{option_map};
ghost use Rattle.porch_syntax.specs.Tree.{program_of};
ghost use Rattle.porch_syntax.specs.inside.Program.{written_of, phase_of, body_of, program_at, program_in, run, beginning, read_program};

use crate::statement::{Phase, Written, advance};
use crate::token::Token;
use crate::tree::Tree;
use sqlite_items::Items;
use std::alloc::{AllocError, Global};

/// What stands behind `int main(void) {`.
fn body(tokens: &[Token]) -> Option<&[Token]>
    ensures { option_map (λ b. b.now) result ≡ body_of tokens.now }
{
    match tokens {
        [
            Token::Int,
            Token::Main,
            Token::OpenParenthesis,
            Token::Void,
            Token::CloseParenthesis,
            Token::OpenBrace,
            rest @ ..,
        ] => Some(rest),
        _ => None,
    }
}

fn tree_at(written: Written, phase: Phase) -> Option<Tree>
    ensures { option_map program_of result ≡ program_at (written_of written) (phase_of phase) }
{
    let Written {
        variables,
        blocks: _,
        statements,
    } = written;
    match phase {
        Phase::Over => Some(Tree {
            declarations: variables,
            statements,
        }),
        Phase::Declarations => None,
        Phase::Statements => None,
        Phase::Declaring => None,
        Phase::Declared => None,
        Phase::Assigning(_) => None,
        Phase::Looping => None,
        Phase::Entering(_) => None,
        Phase::Printing => None,
        Phase::Printed(_) => None,
        Phase::Reading(_, _) => None,
    }
}

fn tree_of(alloc: Global, tokens: &[Token]) -> Result<Option<Tree>, AllocError>
    ensures { IfOk result
        (λ found. option_map program_of found ≡ program_in (run tokens.now beginning)) }
{
    let mut written = Written {
        variables: Items::new(alloc),
        blocks: Items::new(alloc),
        statements: Items::new(alloc),
    };
    let mut phase = Phase::Declarations;
    for token in tokens {
        match advance(alloc, &mut written, phase, *token)? {
            Some(next) => phase = next,
            None => return Ok(None),
        }
    }
    Ok(tree_at(written, phase))
}

/// The tree of these tokens, where they are a program's.
pub fn program(alloc: Global, tokens: &[Token]) -> Result<Option<Tree>, AllocError>
    ensures { IfOk result (λ found. option_map program_of found ≡ read_program tokens.now) }
{
    match body(tokens) {
        Some(inner) => tree_of(alloc, inner),
        None => Ok(None),
    }
}
