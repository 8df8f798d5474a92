//! From tokens to the unit that they are.

ghost use Rattle.std.specs.Prelude.{ℕ, ◌≡◌, [], List, Some, None, if◌then◌else◌, IfOk};
ghost use Rattle.std.specs.Option.{option_map};
ghost use Rattle.porch_tree.specs.Mirror.{TranslationUnit};
ghost use Rattle.porch_tree.specs.Views.{unit_of};
ghost use Rattle.porch_tree.specs.Grammar.{IsDeepUnit};
ghost use Rattle.porch_lex.specs.Words.{spelled_token, spelled};
ghost use Rattle.porch_unit.specs.Units as units;
ghost use Rattle.porch_unit.specs.Units.{start, run, unit_in, unit_of_tokens};
ghost use Rattle.porch_statements.specs.declared.frame.Builder.{Builder};
ghost use Rattle.porch_statements.specs.Shown.{items_of, state_of};
ghost use Rattle.porch_items.specs.inside.Reading.{AreTypes, HasStepped};

use crate::step::read_token;
use crate::typedef::learn;
use indexmap::IndexSet;
use porch_declarations::Declarer;
use porch_lex::Token;
use porch_parts::{Reader, begins};
use porch_statements::{Builder, Point, let_go};
use porch_tree::{Item, Tree};
use porch_unit::each_unit_is_built;
use sqlite_items::Items;
use std::alloc::{AllocError, Global};

/// The tree of the unit that these tokens of a text are, if they are one. Whether tokens that come to a
/// unit are one is not said, nor how deep their parts lie: the parts of a tree lie as deep, and it is
/// dropped by recursion.
pub fn unit(alloc: Global, text: &[u8], tokens: &[Token]) -> Result<Option<Tree>, AllocError>
    ensures read { IfOk result (λ found. (u : TranslationUnit) →
        IsDeepUnit (spelled text.now tokens.now) u
        → option_map (unit_of text.now) found ≡ Some u) }
{
    each_unit_is_built();
    read(alloc, text, tokens)
}

fn read(alloc: Global, text: &[u8], tokens: &[Token]) -> Result<Option<Tree>, AllocError>
    ensures { IfOk result (λ found. option_map (unit_of text.now) found
        ≡ unit_of_tokens (spelled text.now tokens.now)) }
{
    let mut builder = Builder {
        items: Items::new(alloc),
        frames: Items::new(alloc),
        declarer: Declarer {
            reader: Reader {
                frames: Items::new(alloc),
                parts: Items::new(alloc),
            },
            braces: Items::new(alloc),
        },
    };
    match read_tokens(alloc, text, &mut builder, tokens) {
        Ok(point) => Ok(tree_at(builder, point)),
        Err(error) => {
            let_go(builder);
            Err(error)
        }
    }
}

// the tree, where a unit can end
fn tree_at(builder: Builder, point: Point) -> Option<Tree>
    ensures { (text : List ℕ) → option_map (unit_of text) result
        ≡ unit_in (state_of text builder point) }
{
    let over = ends_here(&point);
    let_go(point);
    let Builder {
        items,
        frames,
        declarer,
    } = builder;
    let_go(frames);
    let_go(declarer);
    tree_of(items, over)
}

fn tree_of(items: Items<Item>, over: bool) -> Option<Tree>
    ensures { (text : List ℕ) → option_map (unit_of text) result
        ≡ (if over then Some (items_of text items) else None) }
{
    if over {
        Some(Tree { items })
    } else {
        let_go(items);
        None
    }
}

fn ends_here(point: &Point) -> bool
    ensures { (text : List ℕ) (builder : Builder) →
        result ≡ units.ends_here (state_of text builder point.now).point }
{
    match point {
        Point::AtItem => true,
        Point::BehindTypedef => true,
        Point::InTypedef(_) => false,
        Point::InItem(_) => false,
        Point::InDeclaration(_) => false,
        Point::AtFirst => false,
        Point::AtStatement => false,
        Point::AtParenthesis(_) => false,
        Point::AtValue(_) => false,
        Point::InValue(_, _) => false,
        Point::AtEnd(_) => false,
        Point::AtBrace { at: _, value: _ } => false,
        Point::AtColon { at: _ } => false,
        Point::Ended(_) => false,
        Point::Broken => false,
    }
}

// One more token.
fn read_one<'t>(
    alloc: Global,
    builder: &mut Builder,
    types: &mut IndexSet<&'t [u8]>,
    text: &'t [u8],
    point: Point,
    token: Token,
) -> Result<Point, AllocError>
    ensures { IfOk result (λ x. (names : List (List ℕ)) → AreTypes types.old.keys names →
        HasStepped names (state_of text.now builder.old point) (spelled_token text.now token)
        types.new.keys (state_of text.now builder.new x)) }
{
    let begins = begins(types, text, token);
    let next = read_token(alloc, builder, point, begins, token)?;
    match learn(types, text, builder, &next) {
        Ok(()) => Ok(next),
        Err(error) => {
            let_go(next);
            Err(error)
        }
    }
}

#[tactic(auto, using(crate::proofs::Readings::at_start, crate::proofs::Readings::has_read_on, crate::proofs::Readings::has_read_all))]
fn read_tokens(
    alloc: Global,
    text: &[u8],
    builder: &mut Builder,
    tokens: &[Token],
) -> Result<Point, AllocError>
    requires no_items { builder.old.items ≡ [] }
    requires no_frames { builder.old.frames ≡ [] }
    ensures { IfOk result (λ x. state_of text.now builder.new x
        ≡ run [] start (spelled text.now tokens.now)) }
{
    let mut types = IndexSet::new(alloc);
    let mut point = Point::AtItem;
    for token in tokens {
        point = read_one(alloc, builder, &mut types, text, point, *token)?;
    }
    Ok(point)
}
