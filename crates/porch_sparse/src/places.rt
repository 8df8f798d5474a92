//! Values by place: the first one, those that were written, and a pattern that stands at the other places.
ghost use Rattle.std.specs.Prelude.{◌≡◌, ℕ, List, ◌<◌, ◌≤◌, ◌+◌, ◌^◌, true, nat_eq, length, if◌then◌else◌, OnOk};
ghost use Rattle.porch_sparse.specs.inside.Places.{value_at, has_place, among};

use std::alloc::AllocError;
use std::collections::BTreeMap;

/// The value at a place.
pub(crate) fn value_at<V: Copy>(first: V, pattern: &[V], written: &BTreeMap<u64, V>, at: u64) -> V
    requires { 0 < length pattern.now }
    ensures { result ≡ value_at first pattern.now written.now at }
{
    if at == 0 {
        return first;
    }
    match written.get(&at) {
        Some(value) => *value,
        None => pattern[(at % (pattern.len() as u64)) as usize],
    }
}

/// Makes room for a value that is written at a place, which has the value that it had.
pub(crate) fn make_place<V: Copy>(
    pattern: &[V],
    written: &mut BTreeMap<u64, V>,
    at: u64,
) -> Result<(), AllocError>
    requires { 0 < length pattern.now }
    ensures same { (first : V) (i : ℕ) → value_at first pattern.now written.new i
        ≡ value_at first pattern.now written.old i }
    ensures made { OnOk result (has_place written.new at ≡ true) }
    ensures kept { (i : ℕ) → has_place written.old i ≡ true → has_place written.new i ≡ true }
{
    if at == 0 || written.contains_key(&at) {
        return Ok(());
    }
    let value = pattern[(at % (pattern.len() as u64)) as usize];
    match written.insert(at, value) {
        Ok(_) => Ok(()),
        Err(_) => Err(AllocError),
    }
}

/// Makes room for so many values from a place on.
pub(crate) fn make_places<V: Copy>(
    pattern: &[V],
    written: &mut BTreeMap<u64, V>,
    at: u64,
    count: u64,
) -> Result<(), AllocError>
    requires some { 0 < length pattern.now }
    requires short { at + count < 2 ^ 64 }
    ensures same { (first : V) (i : ℕ) → value_at first pattern.now written.new i
        ≡ value_at first pattern.now written.old i }
    ensures made { OnOk result ((i : ℕ) → at ≤ i → i < at + count
        → has_place written.new i ≡ true) }
{
    for ahead in 0..count {
        make_place(pattern, written, at + ahead)?;
    }
    Ok(())
}

/// Writes a value at a place that has room.
pub(crate) fn write<V: Copy>(first: &mut V, written: &mut BTreeMap<u64, V>, at: u64, value: V)
    requires { has_place written.old at ≡ true }
    ensures changed { (pattern : List V) (i : ℕ) → 0 < length pattern
        → value_at first.new pattern written.new i
        ≡ (if nat_eq i at then value else value_at first.old pattern written.old i) }
    ensures kept { (i : ℕ) → has_place written.old i ≡ true → has_place written.new i ≡ true }
{
    if at == 0 {
        *first = value;
        return;
    }
    let _ = written.insert(at, value);
}

/// Writes values from a place on, where each has room.
pub(crate) fn write_all<V: Copy>(
    first: &mut V,
    written: &mut BTreeMap<u64, V>,
    at: u64,
    values: &[V],
)
    requires short { at + length values.now < 2 ^ 64 }
    requires places { (i : ℕ) → at ≤ i → i < at + length values.now
        → has_place written.old i ≡ true }
    ensures { (pattern : List V) (i : ℕ) → 0 < length pattern
        → value_at first.new pattern written.new i
        ≡ among at values.now i (value_at first.old pattern written.old i) }
{
    for ahead in 0..values.len() {
        write(first, written, at + ahead as u64, values[ahead]);
    }
}
