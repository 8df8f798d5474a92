//! The first values of globals.

ghost use Rattle.std.specs.Prelude.{◌≡◌, ◌≤◌, ◌+◌, ◌<◌, ◌^◌, length, pos, slice_index, IfSome, OnSome};
ghost use Rattle.porch_metrics.specs.Extents.{extent_of};
ghost use Rattle.porch_metrics.specs.Places.{place_of};
ghost use Rattle.porch_types.specs.LeafTypes.{leaf_type};
ghost use Rattle.porch_bytes.specs.Leaf.{with_number};
ghost use Rattle.porch_bytes.specs.Shapes.{size_in};
ghost use Rattle.porch_map.specs.Values.{with_leaf, with_first, with_all, with_values};

use porch_bytes::shape::{Shape, write_number};
use porch_flat::{GlobalObject, Init};
use porch_metrics::Metrics;

/// The globals: their types, and where they begin in memory.
#[derive(Clone, Copy)]
pub struct Globals<'a> {
    pub types: &'a [u32],
    pub addresses: &'a [u64],
}

/// Puts the first values of globals into memory. None is answered where a type, a leaf or a global isn't there, or
/// lies outside memory; memory may then have changed. It takes time in the number of initialisers.
pub fn write_globals(
    metrics: &Metrics,
    globals: &Globals<'_>,
    objects: &[GlobalObject],
    memory: &mut [u8],
) -> Option<()>
    ensures values { OnSome result (memory.new
        ≡ with_values metrics.now globals.now.types.now globals.now.addresses.now 0 memory.old
        objects.now) }
    ensures length { length memory.new ≡ length memory.old }
{
    for (number, object) in objects.iter().enumerate() {
        let at = number_at(globals.addresses, number)?;
        write_values(
            metrics,
            globals,
            at,
            object.ty,
            object.inits.as_slice(),
            memory,
        )?;
    }
    Some(())
}

fn number_at(numbers: &[u64], index: usize) -> Option<u64>
    ensures { IfSome result (λ n. n ≡ slice_index numbers.now index) }
{
    if index < numbers.len() {
        Some(numbers[index])
    } else {
        None
    }
}

// Puts the first values of one global.
fn write_values(
    metrics: &Metrics,
    globals: &Globals<'_>,
    at: u64,
    ty: u32,
    inits: &[Init],
    memory: &mut [u8],
) -> Option<()>
    ensures values { OnSome result (memory.new
        ≡ with_all metrics.now globals.now.types.now globals.now.addresses.now at ty memory.old
        inits.now) }
    ensures length { length memory.new ≡ length memory.old }
{
    for init in inits {
        write_value(metrics, globals, at, ty, *init, memory)?;
    }
    Some(())
}

// Puts one first value.
fn write_value(
    metrics: &Metrics,
    globals: &Globals<'_>,
    at: u64,
    ty: u32,
    init: Init,
    memory: &mut [u8],
) -> Option<()>
    ensures values { OnSome result (memory.new
        ≡ with_first metrics.now globals.now.types.now globals.now.addresses.now at ty memory.old
        init) }
    ensures length { length memory.new ≡ length memory.old }
{
    match init {
        Init::Value(leaf, value) => write_leaf(metrics, globals, at, ty, leaf, value, memory),
        Init::Address(leaf, global, target) => {
            match address_of_leaf(metrics, globals, global, target) {
                Some(address) => write_leaf(metrics, globals, at, ty, leaf, address, memory),
                None => None,
            }
        }
    }
}

// The address of a leaf of a global.
fn address_of_leaf(
    metrics: &Metrics,
    globals: &Globals<'_>,
    global: u32,
    target: u32,
) -> Option<i128>
    ensures { IfSome result (λ address. address
        ≡ pos (slice_index globals.now.addresses.now global
        + place_of metrics.now.layout metrics.now.types
        (slice_index globals.now.types.now global) target)) }
{
    let index = global as usize;
    let begin = number_at(globals.addresses, index)?;
    if index >= globals.types.len() {
        return None;
    }
    let place = place_of_leaf(metrics, globals.types[index], target)?;
    Some(i128::from(begin) + i128::from(place))
}

fn place_of_leaf(metrics: &Metrics, ty: u32, leaf: u32) -> Option<u64>
    ensures { IfSome result (λ place. place
        ≡ place_of metrics.now.layout metrics.now.types ty leaf) }
{
    if (ty as usize) < metrics.types().len() {
        Some(metrics.place(ty, u64::from(leaf)))
    } else {
        None
    }
}

// Puts a number into a leaf of an object.
fn write_leaf(
    metrics: &Metrics,
    _globals: &Globals<'_>,
    at: u64,
    ty: u32,
    leaf: u32,
    value: i128,
    memory: &mut [u8],
) -> Option<()>
    ensures values { OnSome result (memory.new
        ≡ with_leaf metrics.now _globals.now.types.now _globals.now.addresses.now at ty leaf
        memory.old value) }
    ensures length { length memory.new ≡ length memory.old }
{
    let place = place_of_leaf(metrics, ty, leaf)?;
    let size = size_of_leaf(metrics, ty, leaf)?;
    let begin = at.checked_add(place)?;
    write_sized(metrics.layout().big, size, begin, value, memory)
}

fn size_of_leaf(metrics: &Metrics, ty: u32, leaf: u32) -> Option<u64>
    ensures { IfSome result (λ size. size ≡ (extent_of metrics.now.layout metrics.now.types
        (leaf_type metrics.now.types ty leaf)).size) }
{
    if (ty as usize) < metrics.types().len() {
        Some(metrics.size(metrics.types().leaf_type(ty, u64::from(leaf))))
    } else {
        None
    }
}

// Puts a number into so many bytes, where they lie in memory and are 1, 2, 4 or 8.
fn write_sized(big: bool, size: u64, at: u64, value: i128, memory: &mut [u8]) -> Option<()>
    ensures bytes { OnSome result (memory.new ≡ with_number big size memory.old at value) }
    ensures length { length memory.new ≡ length memory.old }
{
    let shape = shape_of_size(size)?;
    let end = memory.len() as u64;
    if at <= end && size <= end - at {
        write_number(memory, at as usize, shape, big, value);
        Some(())
    } else {
        None
    }
}

fn shape_of_size(size: u64) -> Option<Shape>
    ensures { IfSome result (λ shape. size_in shape ≡ size) }
{
    if size == 1 {
        Some(Shape::U8)
    } else if size == 2 {
        Some(Shape::U16)
    } else if size == 4 {
        Some(Shape::U32)
    } else if size == 8 {
        Some(Shape::U64)
    } else {
        None
    }
}
