//! From tokens to the declaration that they are.

ghost use Rattle.std.specs.Prelude.{ℕ, ◌≡◌, Bool, List, [], map, Some, None, IfOk};
ghost use Rattle.std.specs.Option.{option_map};
ghost use Rattle.porch_tree.specs.Mirror as mirror;
ghost use Rattle.porch_tree.specs.Views.{declaration_of};
ghost use Rattle.porch_tree.specs.Pieces.{declaration_pieces};
ghost use Rattle.porch_tree.specs.Formed.{IsDeclaration};
ghost use Rattle.porch_tree.specs.Names.{ReadsDeclaration};
ghost use Rattle.porch_tree.specs.Grammar.{AreMatched};
ghost use Rattle.porch_lex.specs.Words.{spelled};
ghost use Rattle.porch_declarations.specs.declared.stage.Declarer.{Declarer};
ghost use Rattle.porch_declarations.specs.Declarations as declarations;
ghost use Rattle.porch_declarations.specs.Declarations.{at_start, run, declaration_in};
ghost use Rattle.porch_declarations.specs.Shown.{stage_of};

use crate::laws::declarations_are_built;
use crate::stage::{Declarer, Stage};
use crate::step::read_token;
use indexmap::IndexSet;
use porch_lex::Token;
use porch_parts::{Reader, Turn, begins};
use porch_tree::Declaration;
use sqlite_items::{Boxed, Items};
use std::alloc::{AllocError, Global};

/// The declaration that these tokens of a text are, if they are one, these names being typedef names.
/// Whether tokens that come to a declaration are one is not said.
pub fn declaration(
    alloc: Global,
    text: &[u8],
    types: &IndexSet<&[u8]>,
    tokens: &[Token],
) -> Result<Option<Boxed<Declaration>>, AllocError>
    ensures read { IfOk result (λ found. (inside : Bool) (d : mirror.Declaration) (uses : ℕ) →
        IsDeclaration d → ReadsDeclaration (map (λ k. k.now) types.now.keys) d →
        AreMatched (spelled text.now tokens.now) (declaration_pieces inside d uses []) →
        option_map (declaration_of text.now) found ≡ Some d) }
{
    declarations_are_built();
    read(alloc, text, types, tokens)
}

fn read(
    alloc: Global,
    text: &[u8],
    types: &IndexSet<&[u8]>,
    tokens: &[Token],
) -> Result<Option<Boxed<Declaration>>, AllocError>
    ensures { IfOk result (λ found. option_map (declaration_of text.now) found
        ≡ declarations.declaration_of (map (λ k. k.now) types.now.keys)
        (spelled text.now tokens.now)) }
{
    let mut declarer = Declarer {
        reader: Reader {
            frames: Items::new(alloc),
            parts: Items::new(alloc),
        },
        braces: Items::new(alloc),
    };
    let stage = read_tokens(alloc, text, types, &mut declarer, tokens)?;
    Ok(declared(stage))
}

fn read_tokens(
    alloc: Global,
    text: &[u8],
    types: &IndexSet<&[u8]>,
    declarer: &mut Declarer,
    tokens: &[Token],
) -> Result<Stage, AllocError>
    ensures { IfOk result (λ s. stage_of text.now declarer.new s
        ≡ run (map (λ k. k.now) types.now.keys) at_start (spelled text.now tokens.now)) }
{
    let mut stage = Stage::AtStart;
    for token in tokens {
        let begins = begins(types, text, *token);
        stage = read_token(alloc, declarer, stage, begins, *token)?;
    }
    Ok(stage)
}

fn declared(stage: Stage) -> Option<Boxed<Declaration>>
    ensures { (text : List ℕ) (declarer : Declarer) → option_map (declaration_of text) result
        ≡ declaration_in (stage_of text declarer stage) }
{
    match stage {
        Stage::Over(declaration) => Some(declaration),
        Stage::AtStart | Stage::Broken => None,
        Stage::InTyped(_, turn) => leave(turn),
        Stage::InDeclared(_, turn) => leave(turn),
        Stage::InValue(_, _, turn) => leave(turn),
        Stage::AtInitial(_, _) | Stage::Headed(_, _) => None,
        Stage::BehindInitial(_, _, _) => None,
    }
}

// what is being read is no declaration yet
fn leave(_turn: Turn) -> Option<Boxed<Declaration>>
    ensures { result ≡ None }
{
    None
}
