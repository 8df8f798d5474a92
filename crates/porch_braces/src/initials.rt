//! The tags of structs that the braces of initialisers complete.

ghost use Rattle.std.specs.Prelude.{◌≡◌, map, OnOk};
ghost use Rattle.std.specs.Option.{option_map};
ghost use Rattle.porch_tree.specs.Views.{initial_of, initials_of, entry_of};
ghost use Rattle.porch_braces.specs.inside.Puts as behind;

use crate::tags::{put_declarator, put_expr};
use porch_scopes::Completes;
use porch_tree::tree::{Entry, Initial};
use std::alloc::AllocError;

pub(crate) fn put_entries<'t>(
    text: &'t [u8],
    entries: &[Entry],
    tags: &mut Completes<'t>,
) -> Result<(), AllocError>
    ensures { OnOk result (tags.new
        ≡ behind.put_entries (map (entry_of text.now) entries.now) tags.old) }
{
    for entry in entries {
        put_entry(text, entry, tags)?;
    }
    Ok(())
}

fn put_entry<'t>(text: &'t [u8], entry: &Entry, tags: &mut Completes<'t>) -> Result<(), AllocError>
    ensures { OnOk result (tags.new ≡ behind.put_entry (entry_of text.now entry.now) tags.old) }
{
    put_declarator(text, &entry.declarator, tags)?;
    put_beginning(text, &entry.initial, tags)
}

fn put_beginning<'t>(
    text: &'t [u8],
    initial: &Option<Initial>,
    tags: &mut Completes<'t>,
) -> Result<(), AllocError>
    ensures { OnOk result (tags.new
        ≡ behind.put_beginning (option_map (initial_of text.now) initial.now) tags.old) }
{
    match initial {
        None => Ok(()),
        Some(initial) => put_initial(text, initial, tags),
    }
}

#[cycle(put_initial)]
fn put_initial<'t>(
    text: &'t [u8],
    initial: &Initial,
    tags: &mut Completes<'t>,
) -> Result<(), AllocError>
    ensures { OnOk result (tags.new
        ≡ behind.put_initial (initial_of text.now initial.now) tags.old) }
{
    match initial {
        Initial::Value(e) => put_expr(text, e, tags),
        Initial::Braced {
            at: _,
            items,
            comma: _,
        } => put_initials(text, items.as_slice(), tags),
    }
}

#[cycle(put_initial)]
fn put_initials<'t>(
    text: &'t [u8],
    initials: &[Initial],
    tags: &mut Completes<'t>,
) -> Result<(), AllocError>
    ensures { OnOk result (tags.new
        ≡ behind.put_initials (initials_of (map (initial_of text.now) initials.now)) tags.old) }
{
    for part in initials {
        put_initial(text, part, tags)?;
    }
    Ok(())
}
