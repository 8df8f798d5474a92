//! Names that are bound to something in scopes, and a table that finds the newest binding of each.

ghost use Rattle.std.specs.Prelude.{◌≡◌, ◌∷◌, [], List, reverse, length, true, is_some, OnOk, OnErr};
ghost use Rattle.std.specs.Str.{bytes_eq};
ghost use Rattle.indexmap.specs.IndexMap.{insert_entry};
ghost use Rattle.porch_scopes.specs.Views.{bound};
ghost use Rattle.porch_scopes.specs.inside.Bindings.{at, Finds, FindsSome};
ghost use Rattle.porch_scopes.specs.inside.Stacked.{at_depth, value_in};
ghost use Rattle.porch_scopes.specs.declared.bindings.Binding as b;

use indexmap::IndexMap;
use std::alloc::AllocError;

/// What a name is bound to, and how many scopes stand around the one that binds it.
#[derive(Clone, Copy)]
pub(crate) struct Found<V> {
    pub(crate) depth: usize,
    pub(crate) value: V,
}

/// A name that a scope binds, and what it was bound to before.
#[derive(Clone, Copy)]
pub(crate) struct Binding<'t, V> {
    pub(crate) name: &'t [u8],
    pub(crate) value: V,
    pub(crate) hidden: Option<Found<V>>,
}

/// The newest binding of a name.
pub(crate) fn find<'t, V: Copy>(
    known: &IndexMap<&'t [u8], Option<Found<V>>>,
    name: &[u8],
) -> Option<Found<V>>
    ensures { result ≡ at name.now known.now.entries }
{
    match known.get(name) {
        Some(found) => *found,
        None => None,
    }
}

/// What was found, wherever it was bound.
pub(crate) fn value_of<V: Copy>(found: Option<Found<V>>) -> Option<V>
    ensures { result ≡ value_in found }
{
    match found {
        Some(found) => Some(found.value),
        None => None,
    }
}

/// What was found, where so many scopes stand around the one that binds it.
pub(crate) fn within<V: Copy>(found: Option<Found<V>>, depth: usize) -> Option<V>
    ensures { result ≡ at_depth depth found }
{
    match found {
        Some(found) => {
            if found.depth == depth {
                Some(found.value)
            } else {
                None
            }
        }
        None => None,
    }
}

/// Binds a name in a scope, around which so many stand.
pub(crate) fn bind<'t, V: Copy>(
    known: &mut IndexMap<&'t [u8], Option<Found<V>>>,
    layer: &mut Vec<Binding<'t, V>>,
    depth: usize,
    name: &'t [u8],
    value: V,
) -> Result<(), AllocError>
    ensures finds { OnOk result ((ls : List (List (b.Binding V))) → depth ≡ length ls
        → Finds known.old.entries (reverse layer.old.items ∷ ls)
        → Finds known.new.entries (reverse layer.new.items ∷ ls)) }
    ensures bound { OnOk result (bound layer.new.items
        ≡ (name.now, value) ∷ bound layer.old.items) }
    ensures known_stays { OnErr result (known.new.entries ≡ known.old.entries) }
    ensures layer_stays { OnErr result (layer.new.items ≡ layer.old.items) }
{
    let hidden = find(known, name);
    layer.reserve(1)?;
    known.insert(name, Some(Found { depth, value }))?;
    layer.push_reserved(Binding {
        name,
        value,
        hidden,
    });
    Ok(())
}

/// Takes the bindings of the innermost scope out of the table, the newest first.
pub(crate) fn unbind<'t, V: Copy>(
    known: &mut IndexMap<&'t [u8], Option<Found<V>>>,
    layer: &[Binding<'t, V>],
)
    requires bound { FindsSome known.old.entries (reverse layer.now) }
    ensures finds { (ls : List (List (b.Binding V)))
        → Finds known.old.entries (reverse layer.now ∷ ls) → Finds known.new.entries ([] ∷ ls) }
{
    let mut left = layer.len();
    while left > 0 {
        left -= 1;
        let binding = &layer[left];
        restore(known, binding.name, binding.hidden);
    }
}

// Binds a name again to what it was bound to before. It takes no memory, since the name is there.
fn restore<'t, V: Copy>(
    known: &mut IndexMap<&'t [u8], Option<Found<V>>>,
    name: &'t [u8],
    hidden: Option<Found<V>>,
)
    requires there { is_some (at name.now known.old.entries) ≡ true }
    ensures { known.new.entries
        ≡ insert_entry (λ a b. bytes_eq a.now b.now) known.old.entries name.entry hidden }
{
    let _ = known.insert(name, hidden);
}
