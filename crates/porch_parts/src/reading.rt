//! From tokens to the expression that they are.

ghost use Rattle.std.specs.Prelude.{ℕ, ◌≡◌, Bool, true, List, [], map, Some, IfOk};
ghost use Rattle.std.specs.Option.{option_map};
ghost use Rattle.porch_tree.specs.Mirror as mirror;
ghost use Rattle.porch_tree.specs.Views.{expr_of};
ghost use Rattle.porch_tree.specs.Pieces.{expr_pieces};
ghost use Rattle.porch_tree.specs.Formed.{IsExpr};
ghost use Rattle.porch_tree.specs.Names.{ReadsExpr};
ghost use Rattle.porch_tree.specs.Grammar.{AreMatched};
ghost use Rattle.porch_lex.specs.Words.{spelled};
ghost use Rattle.porch_parse.specs.Building.{awaits};
ghost use Rattle.porch_parts.specs.declared.reader.Turn.TheVariants as turn;
ghost use Rattle.porch_parts.specs.Parts.{in_expr, run, expr_of_state, expression_of};
ghost use Rattle.porch_parts.specs.Shown.{state_of};

use crate::reader::{Reader, Turn, read_token};
use crate::step::outermost;
use crate::types::begins;
use indexmap::IndexSet;
use porch_lex::Token;
use porch_parse::{Phase, finish};
use porch_tree::Expr;
use sqlite_items::Items;
use std::alloc::{AllocError, Global};

/// The expression that these tokens of a text are, if they are one, these names being typedef names.
/// Whether tokens that come to an expression are one is not said.
pub fn expression(
    alloc: Global,
    text: &[u8],
    types: &IndexSet<&[u8]>,
    tokens: &[Token],
) -> Result<Option<Expr>, AllocError>
    ensures read { IfOk result (λ found. (inside : Bool) (e : mirror.Expr) (uses : ℕ) →
        IsExpr e → ReadsExpr (map (λ k. k.now) types.now.keys) e true →
        AreMatched (spelled text.now tokens.now) (expr_pieces inside e uses []) →
        option_map (expr_of text.now) found ≡ Some e) }
{
    read(alloc, text, types, tokens)
}

fn read(
    alloc: Global,
    text: &[u8],
    types: &IndexSet<&[u8]>,
    tokens: &[Token],
) -> Result<Option<Expr>, AllocError>
    ensures { IfOk result (λ found. option_map (expr_of text.now) found
        ≡ expression_of (map (λ k. k.now) types.now.keys) (spelled text.now tokens.now)) }
{
    let mut reader = Reader {
        frames: Items::new(alloc),
        parts: Items::new(alloc),
    };
    let turn = read_tokens(alloc, text, types, &mut reader, tokens)?;
    end(alloc, &mut reader, turn)
}

fn read_tokens(
    alloc: Global,
    text: &[u8],
    types: &IndexSet<&[u8]>,
    reader: &mut Reader,
    tokens: &[Token],
) -> Result<Turn, AllocError>
    requires no_frames { reader.old.frames ≡ [] }
    requires no_parts { reader.old.parts ≡ [] }
    ensures { IfOk result (λ t. state_of text.now reader.new.frames reader.new.parts t
        ≡ run (map (λ k. k.now) types.now.keys) (in_expr [] (awaits []))
        (spelled text.now tokens.now)) }
{
    let mut turn = Turn::Expr(Phase::Awaits);
    for token in tokens {
        let begins = begins(types, text, *token);
        turn = read_token(alloc, reader, turn, begins, *token)?;
    }
    Ok(turn)
}

fn end(alloc: Global, reader: &mut Reader, turn: Turn) -> Result<Option<Expr>, AllocError>
    ensures { IfOk result (λ found. (text : List ℕ) → option_map (expr_of text) found
        ≡ expr_of_state (state_of text reader.old.frames reader.old.parts turn)) }
{
    match turn {
        Turn::Type(_) => Ok(None),
        Turn::Expr(phase) => end_expr(alloc, reader, phase),
    }
}

fn end_expr(alloc: Global, reader: &mut Reader, phase: Phase) -> Result<Option<Expr>, AllocError>
    ensures { IfOk result (λ found. (text : List ℕ) → option_map (expr_of text) found
        ≡ expr_of_state (state_of text reader.old.frames reader.old.parts (turn.Expr phase))) }
{
    if outermost(&reader.parts) {
        finish(alloc, &mut reader.frames, phase)
    } else {
        Ok(None)
    }
}
