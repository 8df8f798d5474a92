//! The typedef names of a text, as far as it has been read.

ghost use Rattle.std.specs.Prelude.{ℕ, ◌≡◌, ◌∷◌, [], List, take, drop, IfOk};
ghost use Rattle.porch_tree.specs.Names.{name_in};
ghost use Rattle.porch_tree.specs.Views.{declarator_of, item_of};
ghost use Rattle.porch_lex.specs.Words.{bytes_between};
ghost use Rattle.porch_unit.specs.Units as units;
ghost use Rattle.porch_unit.specs.Units.{with_last, learned};
ghost use Rattle.porch_statements.specs.declared.frame.Builder.{Builder};
ghost use Rattle.porch_statements.specs.Shown.{items_of, state_of};
ghost use Rattle.porch_items.specs.inside.Reading.{AreTypes};

use indexmap::IndexSet;
use porch_statements::{Builder, Point};
use porch_tree::{Core, Declarator, Item, Name};
use std::alloc::AllocError;

/// Learns the name of a typedef that has just ended.
pub(crate) fn learn<'t>(
    types: &mut IndexSet<&'t [u8]>,
    text: &'t [u8],
    builder: &Builder,
    point: &Point,
) -> Result<(), AllocError>
    ensures { IfOk result (λ _. (names : List (List ℕ)) → AreTypes types.old.keys names
        → AreTypes types.new.keys (learned names (state_of text.now builder.now point.now))) }
{
    if is_behind_typedef(point) {
        learn_last(types, text, builder.items.as_slice())
    } else {
        Ok(())
    }
}

// The bytes of a name. The tests keep it right for every text and name, whatever they have to do with
// one another.
fn bytes_of(text: &[u8], name: Name) -> &[u8]
    ensures { result.now ≡ bytes_between text.now name.at name.to }
{
    let count = name.to.saturating_sub(name.at);
    front_of(rest_from(text, name.at as usize), count as usize)
}

#[tactic(auto, using(crate::proofs::Typedefs::drop_all))]
fn rest_from(text: &[u8], at: usize) -> &[u8]
    ensures { result.now ≡ drop at text.now }
{
    if at < text.len() { &text[at..] } else { &[] }
}

#[tactic(auto, using(crate::proofs::Typedefs::take_all))]
fn front_of(text: &[u8], count: usize) -> &[u8]
    ensures { result.now ≡ take count text.now }
{
    if count < text.len() {
        &text[..count]
    } else {
        text
    }
}

// The name that a declarator declares. It recurses as deep as parentheses lie in one another.
fn declared_name<'t>(declarator: &Declarator, text: &'t [u8]) -> &'t [u8]
    ensures { result.now ≡ name_in (declarator_of text.now declarator.now) }
{
    match &declarator.core {
        Core::Lacking => &[],
        Core::Named(name) => bytes_of(text, *name),
        Core::Inner { at: _, declarator } => declared_name(declarator.get(), text),
    }
}

#[tactic(auto, using(crate::proofs::Typedefs::types_more))]
fn add_name<'t>(types: &mut IndexSet<&'t [u8]>, name: &'t [u8]) -> Result<(), AllocError>
    ensures { IfOk result (λ _. (names : List (List ℕ)) → AreTypes types.old.keys names
        → AreTypes types.new.keys (name.now ∷ names)) }
{
    types.insert(name)?;
    Ok(())
}

fn learn_item<'t>(
    types: &mut IndexSet<&'t [u8]>,
    text: &'t [u8],
    item: &Item,
) -> Result<(), AllocError>
    ensures { IfOk result (λ _. (names : List (List ℕ)) → AreTypes types.old.keys names
        → AreTypes types.new.keys (with_last names (item_of text.now item.now ∷ []))) }
{
    match item {
        Item::Typedef {
            base: _,
            declarator,
        } => add_name(types, declared_name(declarator, text)),
        Item::Declaration(_) => Ok(()),
        Item::Function(_) => Ok(()),
    }
}

fn learn_last<'t>(
    types: &mut IndexSet<&'t [u8]>,
    text: &'t [u8],
    items: &[Item],
) -> Result<(), AllocError>
    ensures { IfOk result (λ _. (names : List (List ℕ)) → AreTypes types.old.keys names
        → AreTypes types.new.keys (with_last names (items_of text.now items.now))) }
{
    match items {
        [] => Ok(()),
        [.., item] => learn_item(types, text, item),
    }
}

fn is_behind_typedef(point: &Point) -> bool
    ensures { (text : List ℕ) (builder : Builder) →
        result ≡ units.is_behind_typedef (state_of text builder point.now).point }
{
    match point {
        Point::BehindTypedef => true,
        Point::AtItem => false,
        Point::InTypedef(_) => false,
        Point::InItem(_) => false,
        Point::InDeclaration(_) => false,
        Point::AtFirst => false,
        Point::AtStatement => false,
        Point::AtParenthesis(_) => false,
        Point::AtValue(_) => false,
        Point::InValue(_, _) => false,
        Point::AtEnd(_) => false,
        Point::AtBrace { at: _, value: _ } => false,
        Point::AtColon { at: _ } => false,
        Point::Ended(_) => false,
        Point::Broken => false,
    }
}
