//! Entries by rising number: which one has a number, and the objects of it.
ghost use Rattle.std.specs.Prelude.{◌≡◌, ℕ, ◌++◌, ◌∷◌, [], IfSome, IfNone, filter, OnOk, OnErr, slice_get};
ghost use Rattle.std.specs.Option.{option_map};
ghost use Rattle.porch_objects.specs.Store.{variables_in, changed_calls, innermost_in, callers_in};
ghost use Rattle.porch_objects.specs.Pointers.{without_block};
ghost use Rattle.porch_live.specs.Innermost.{first_variables, with_first};
ghost use Rattle.porch_live.specs.inside.Edits.{done, first_becomes};
ghost use Rattle.porch_live.specs.inside.Entries.{IsRising, IsBelow, StandsAt, HasNone, stacked, blocks_of, ended, is_live};

use crate::edit::Edit;
use crate::entry::Entry;
use crate::object::Object;
use crate::value::Value;
use std::alloc::AllocError;

/// The object of an entry.
pub(crate) fn object_in(entries: &[Entry], number: u64, index: usize) -> Option<&Object>
    requires { IsRising 0 entries.now }
    ensures { option_map (λ object. object.now) result
        ≡ slice_get (variables_in entries.now number) index }
{
    match index_of(entries, number) {
        Some(at) => entries[at].object(index),
        None => None,
    }
}

/// Changes an object of an entry, where it is there.
pub(crate) fn edit_in(
    entries: &mut Vec<Entry>,
    number: u64,
    index: usize,
    edit: &Edit,
) -> Result<(), AllocError>
    requires { IsRising 0 entries.old.items }
    ensures { entries.new.items
        ≡ changed_calls (done edit.now result) entries.old.items number index }
{
    match index_of(entries, number) {
        Some(at) => {
            let entry = &mut entries[at];
            entry.edit(index, edit)
        }
        None => Ok(()),
    }
}

/// The object of the last entry.
pub(crate) fn last_object(entries: &[Entry], index: usize) -> Option<&Object>
    ensures { (none : ℕ) → option_map (λ object. object.now) result
        ≡ slice_get (variables_in (stacked entries.now [])
        (innermost_in (stacked entries.now []) none)) index }
{
    match entries.last() {
        Some(entry) => entry.object(index),
        None => None,
    }
}

/// Gives the first leaf of an object of the last entry a value, where it is there.
pub(crate) fn set_last(entries: &mut Vec<Entry>, index: usize, value: Value)
    requires { IsRising 0 entries.old.items }
    ensures { (none : ℕ) → entries.new.items ≡ changed_calls (first_becomes value)
        entries.old.items (innermost_in (stacked entries.old.items []) none) index }
{
    let len = entries.len();
    if len > 0 {
        let entry = &mut entries[len - 1];
        entry.set_first(index, value);
    }
}

/// Takes the objects of the last entry out, where there is one.
pub(crate) fn take_last(entries: &mut Vec<Entry>) -> Option<Vec<Object>>
    ensures objects { option_map (λ objects. objects.items) result
        ≡ first_variables (stacked entries.old.items []) }
    ensures calls { stacked entries.new.items [] ≡ with_first (stacked entries.old.items []) [] }
    ensures rising { (low : ℕ) → IsRising low entries.old.items → IsRising low entries.new.items }
    ensures below { (high : ℕ) → IsBelow high entries.old.items → IsBelow high entries.new.items }
{
    let len = entries.len();
    if len > 0 {
        let entry = &mut entries[len - 1];
        Some(entry.take())
    } else {
        None
    }
}

/// Gives the last entry other objects, where there is one.
pub(crate) fn put_last(entries: &mut Vec<Entry>, objects: Vec<Object>)
    ensures calls { stacked entries.new.items []
        ≡ with_first (stacked entries.old.items []) objects.items }
    ensures rising { (low : ℕ) → IsRising low entries.old.items → IsRising low entries.new.items }
    ensures below { (high : ℕ) → IsBelow high entries.old.items → IsBelow high entries.new.items }
{
    let len = entries.len();
    if len > 0 {
        let entry = &mut entries[len - 1];
        entry.put(objects);
    }
}

/// The number of the last entry, and this one where there is none.
pub(crate) fn last_number(entries: &[Entry], none: u64) -> u64
    ensures { result ≡ innermost_in (stacked entries.now []) none }
{
    match entries.last() {
        Some(entry) => entry.number(),
        None => none,
    }
}

/// One entry more at the end.
pub(crate) fn push(entries: &mut Vec<Entry>, entry: Entry) -> Result<(), AllocError>
    ensures pushed { OnOk result (entries.new.items ≡ entries.old.items ++ entry ∷ []) }
    ensures same { OnErr result (entries.new.items ≡ entries.old.items) }
{
    match entries.push(entry) {
        Ok(()) => Ok(()),
        Err(_) => Err(AllocError),
    }
}

/// The last entry goes, where there is one.
pub(crate) fn remove_last(entries: &mut Vec<Entry>)
    ensures calls { stacked entries.new.items [] ≡ callers_in (stacked entries.old.items []) }
    ensures rising { (low : ℕ) → IsRising low entries.old.items → IsRising low entries.new.items }
    ensures below { (high : ℕ) → IsBelow high entries.old.items → IsBelow high entries.new.items }
{
    let _ = entries.pop();
}

/// The allocation of an entry comes to its end. So many entries have none before, and as many as it
/// answers afterwards: they go where they are more than half, so that what ended costs no memory
/// for long, and no time to speak of.
pub(crate) fn end_block(entries: &mut Vec<Entry>, number: u64, freed: usize) -> usize
    requires { IsRising 0 entries.old.items }
    ensures blocks { blocks_of entries.new.items
        ≡ without_block (blocks_of entries.old.items) number }
    ensures rising { IsRising 0 entries.new.items }
    ensures below { (high : ℕ) → IsBelow high entries.old.items → IsBelow high entries.new.items }
{
    end(entries, number);
    let freed = freed.saturating_add(1);
    if freed > entries.len() / 2 {
        remove_ended(entries);
        return 0;
    }
    freed
}

/// The objects of an entry come to their end.
fn end(entries: &mut Vec<Entry>, number: u64)
    requires { IsRising 0 entries.old.items }
    ensures { entries.new.items ≡ ended entries.old.items number }
{
    if let Some(at) = index_of(entries, number) {
        let entry = &mut entries[at];
        entry.end();
    }
}

/// Entries without an object go.
fn remove_ended(entries: &mut Vec<Entry>)
    ensures { entries.new.items ≡ filter is_live entries.old.items }
{
    entries.retain(|entry| entry.is_live());
}

/// Where the entry of a number stands. The last one is asked first, which is the innermost call or
/// the newest allocation; the others by halving.
fn index_of(entries: &[Entry], number: u64) -> Option<usize>
    requires { IsRising 0 entries.now }
    ensures some { IfSome result (λ at. StandsAt entries.now number at) }
    ensures none { IfNone result (HasNone entries.now number) }
{
    let mut low = 0;
    let mut high = entries.len();
    if high > 0 && entries[high - 1].number() == number {
        return Some(high - 1);
    }
    while low < high {
        let middle = low + (high - low) / 2;
        let found = entries[middle].number();
        if found == number {
            return Some(middle);
        }
        if found < number {
            low = middle + 1;
        } else {
            high = middle;
        }
    }
    None
}
