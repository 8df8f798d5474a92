//! The tags of structs that the scope of the file completes.

ghost use Rattle.std.specs.Prelude.{◌≡◌, map, IfOk, OnOk};
ghost use Rattle.porch_tree.specs.Views.{item_of, unit_of};
ghost use Rattle.porch_check.specs.Braces.{unit_braces};
ghost use Rattle.porch_braces.specs.inside.Puts as behind;

use crate::initials::put_entries;
use crate::tags::{put_base, put_declarator};
use porch_scopes::Completes;
use porch_tree::tree::{Item, Tree};
use std::alloc::{AllocError, Global};

/// The tags of structs that a brace in the scope of the file completes.
#[tactic(auto, using(crate::proofs::Behind::unit_tags))]
pub fn unit_tags<'t>(
    alloc: Global,
    text: &'t [u8],
    tree: &Tree,
) -> Result<Completes<'t>, AllocError>
    ensures { IfOk result (λ tags. tags ≡ unit_braces (unit_of text.now tree.now)) }
{
    let mut tags = Completes::new(alloc);
    put_items(text, tree.items.as_slice(), &mut tags)?;
    Ok(tags)
}

fn put_items<'t>(text: &'t [u8], items: &[Item], tags: &mut Completes<'t>) -> Result<(), AllocError>
    ensures { OnOk result (tags.new ≡ behind.put_unit (map (item_of text.now) items.now) tags.old) }
{
    for item in items {
        put_item(text, item, tags)?;
    }
    Ok(())
}

fn put_item<'t>(text: &'t [u8], item: &Item, tags: &mut Completes<'t>) -> Result<(), AllocError>
    ensures { OnOk result (tags.new ≡ behind.put_item (item_of text.now item.now) tags.old) }
{
    match item {
        Item::Typedef { base, declarator } => {
            put_base(text, base, tags)?;
            put_declarator(text, declarator, tags)
        }
        Item::Declaration(declaration) => {
            put_base(text, &declaration.base, tags)?;
            put_entries(text, declaration.entries.as_slice(), tags)
        }
        Item::Function(function) => {
            put_base(text, &function.base, tags)?;
            put_declarator(text, &function.declarator, tags)
        }
    }
}
