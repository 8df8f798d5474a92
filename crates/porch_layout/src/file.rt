//! The layouts of a layouts file.

ghost use Rattle.std.specs.Prelude.{◌≡◌, ◌<◌, IfOk, None, length, option_map};
ghost use Rattle.std.specs.Prelude.{string_bytes};
ghost use Rattle.std.specs.List.{list_all};
ghost use Rattle.std.specs.BTreeMap.{keys};
ghost use Rattle.porch_layout.specs.Layouts.{IsLayout};
ghost use Rattle.porch_layout.specs.Files.{UnlessMemory, layout_of, layout_in, layout_at};
ghost use Rattle.porch_layout.specs.Files.{number_in, number_at, order_at, choice_of};
ghost use Rattle.porch_layout.specs.Files.{are_layout_keys, is_layout_key};
ghost use Rattle.porch_layout.specs.Rules.{HasNoTable, HasUnknownKey, IsNotToml, Says};
ghost use Rattle.porch_layout.specs.Rules.{RefusesAtKeys, RefusesWhere};
ghost use Rattle.porch_layout.specs.declared.fault.LayoutKey.TheVariants.{File, Name, Other};
ghost use Rattle.porch_layout.specs.declared.fault.LayoutRule.TheVariants.{TooLong, NotToml};
ghost use Rattle.porch_layout.specs.declared.fault.LayoutRule.TheVariants.{NoName, NotTable};
ghost use Rattle.porch_layout.specs.declared.fault.LayoutRule.TheVariants.{UnknownKey};
ghost use Rattle.porch_layout.specs.declared.fault.LayoutRule.TheVariants.{MissingKey, BadValue};
ghost use Rattle.toml.specs.View.{view, table_view};
ghost use Rattle.toml.specs.Data.{get_member};

use crate::fault::{LayoutFault, LayoutKey, LayoutRule};
use crate::layout::Layout;
use std::alloc::Global;
use toml::{Table, Value};

// The longest text of a layouts file, in bytes.
const MOST_BYTES: usize = 65536;

// What a size, and what an alignment, may be in bytes.
const SIZES: [u8; 2] = [4, 8];

const ALIGNMENTS: [u8; 4] = [1, 2, 4, 8];

/// The layout that the table of this name in the text of a layouts file describes.
///
/// The text is TOML of at most 65,536 bytes, one table a layout, each with exactly the eight keys
/// `order` (`"little"` or `"big"`), `long`, `pointer`, `align_short`, `align_int`, `align_long`,
/// `align_pointer` and `least_struct`. The first rule that it breaks is answered.
pub fn layout_from(alloc: Global, text: &[u8], name: &str) -> Result<Layout, LayoutFault>
    ensures answer { UnlessMemory result (layout_of text.now name.now) }
    ensures allowed { IfOk result IsLayout }
    ensures too_long { RefusesWhere result File TooLong (65536 < length text.now) }
    ensures not_toml { RefusesWhere result File NotToml (IsNotToml text.now) }
    ensures no_name { RefusesWhere result Name NoName (Says text.now name.now None) }
    ensures not_table { RefusesWhere result Name NotTable (HasNoTable text.now name.now) }
    ensures unknown_key { RefusesWhere result Other UnknownKey (HasUnknownKey text.now name.now) }
    ensures missing_key { RefusesAtKeys result MissingKey text.now name.now }
    ensures bad_value { RefusesAtKeys result BadValue text.now name.now }
{
    layout_read(alloc, text, name)
}

fn layout_read(alloc: Global, text: &[u8], name: &str) -> Result<Layout, LayoutFault>
    ensures answer { UnlessMemory result (layout_of text.now name.now) }
    ensures allowed { IfOk result IsLayout }
{
    if text.len() > MOST_BYTES {
        return Err(LayoutFault::BadLayout {
            key: LayoutKey::File,
            rule: LayoutRule::TooLong,
        });
    }
    if text.is_empty() {
        return Err(LayoutFault::BadLayout {
            key: LayoutKey::Name,
            rule: LayoutRule::NoName,
        });
    }
    let Ok(text) = std::str::from_utf8(text) else {
        return Err(LayoutFault::BadLayout {
            key: LayoutKey::File,
            rule: LayoutRule::NotToml,
        });
    };
    match toml::table_from_str(alloc, text) {
        Ok(all) => named(value_at(&all, name)),
        Err(e) if e.is_memory() => Err(LayoutFault::NoMemory),
        Err(_) => Err(LayoutFault::BadLayout {
            key: LayoutKey::File,
            rule: LayoutRule::NotToml,
        }),
    }
}

fn value_at<'a>(table: &'a Table, key: &str) -> Option<&'a Value>
    ensures { option_map (λ v. view v.now) result ≡ get_member key.now (table_view table.now) }
{
    table.get(key)
}

// The layout of what has the name asked for.
fn named(found: Option<&Value>) -> Result<Layout, LayoutFault>
    ensures { result ≡ layout_at (option_map (λ v. view v.now) found.entry) }
{
    let Some(found) = found else {
        return Err(LayoutFault::BadLayout {
            key: LayoutKey::Name,
            rule: LayoutRule::NoName,
        });
    };
    match found.as_table() {
        Some(table) => layout_of_table(table),
        None => Err(LayoutFault::BadLayout {
            key: LayoutKey::Name,
            rule: LayoutRule::NotTable,
        }),
    }
}

fn layout_of_table(table: &Table) -> Result<Layout, LayoutFault>
    ensures { result ≡ layout_in (table_view table.now) }
{
    if !has_layout_keys(table) {
        return Err(LayoutFault::BadLayout {
            key: LayoutKey::Other,
            rule: LayoutRule::UnknownKey,
        });
    }
    let big = order(value_at(table, "order"))?;
    let long = number(table, LayoutKey::Long, &SIZES, 8)?;
    let pointer = number(table, LayoutKey::Pointer, &SIZES, 8)?;
    let align_short = number(table, LayoutKey::AlignShort, &ALIGNMENTS, 2)?;
    let align_int = number(table, LayoutKey::AlignInt, &ALIGNMENTS, 4)?;
    let align_long = number(table, LayoutKey::AlignLong, &ALIGNMENTS, long)?;
    let align_pointer = number(table, LayoutKey::AlignPointer, &ALIGNMENTS, pointer)?;
    let least_struct = number(table, LayoutKey::LeastStruct, &ALIGNMENTS, 8)?;
    Ok(Layout {
        big,
        long,
        pointer,
        align_short,
        align_int,
        align_long,
        align_pointer,
        least_struct,
    })
}

fn has_layout_keys(table: &Table) -> bool
    ensures { result ≡ are_layout_keys (table_view table.now) }
{
    is_each_key_known(table)
}

fn is_each_key_known(table: &Table) -> bool
    ensures { result ≡ list_all (λ key. is_layout_key (string_bytes key)) (keys table.now) }
{
    table.keys().all(|key| is_key(key.as_str()))
}

fn is_key(word: &str) -> bool
    ensures { result ≡ is_layout_key word.now }
{
    match word {
        "order"
        | "long"
        | "pointer"
        | "align_short"
        | "align_int"
        | "align_long"
        | "align_pointer"
        | "least_struct" => true,
        _ => false,
    }
}

// Whether the byte order is `big`.
fn order(value: Option<&Value>) -> Result<bool, LayoutFault>
    ensures { result ≡ order_at (option_map (λ v. view v.now) value.entry) }
{
    let Some(value) = value else {
        return Err(LayoutFault::BadLayout {
            key: LayoutKey::Order,
            rule: LayoutRule::MissingKey,
        });
    };
    match value.as_str() {
        Some("big") => Ok(true),
        Some("little") => Ok(false),
        _ => Err(LayoutFault::BadLayout {
            key: LayoutKey::Order,
            rule: LayoutRule::BadValue,
        }),
    }
}

// The value at a key, one of the choices and not above the most.
fn number(table: &Table, key: LayoutKey, choices: &[u8], most: u8) -> Result<u8, LayoutFault>
    ensures { result ≡ number_in key choices.now most (table_view table.now) }
{
    let Some(value) = value_at(table, key.name()) else {
        return Err(LayoutFault::BadLayout {
            key,
            rule: LayoutRule::MissingKey,
        });
    };
    match value.as_integer() {
        Some(size) => match choice(choices, most, size) {
            Some(size) => Ok(size),
            None => Err(LayoutFault::BadLayout {
                key,
                rule: LayoutRule::BadValue,
            }),
        },
        None => Err(LayoutFault::BadLayout {
            key,
            rule: LayoutRule::BadValue,
        }),
    }
}

fn choice(choices: &[u8], most: u8, size: i64) -> Option<u8>
    ensures { result ≡ choice_of choices.now most size }
{
    choices
        .iter()
        .copied()
        .find(|n| i64::from(*n) == size && *n <= most)
}
