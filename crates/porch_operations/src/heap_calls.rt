//! Blocks that are made and ended.

ghost use Rattle.std.specs.Prelude.{◌≡◌, ◌≤◌, ◌<◌, ◌+◌, ◌*◌, ◌^◌, ℕ, List, length, replicate, pos};
ghost use Rattle.porch_heap.specs.Blocks.{IsAlignment};
ghost use Rattle.porch_heap.specs.Gaps.{place_or_full};
ghost use Rattle.porch_bytes.specs.Leaf.{spliced};
ghost use Rattle.porch_instructions.specs.Instructions.{with_cell, Lies};
ghost use Rattle.porch_operations.specs.Operations.{allocated, placed, freed, leads, work};

use crate::operation::{Effect, Element};
use porch_bytes::bytes::clear;
use porch_heap::Heap;
use porch_instructions::instruction::{Cell, Context};
use porch_instructions::write_cell;
use porch_values::Act;

/// Makes a block of so many elements at the first gap of the heap, unless they are none, too many, or there is no gap.
pub(crate) fn allocate(
    here: &Context,
    memory: &mut [u8],
    heap: &mut Heap,
    target: Cell,
    element: Element,
    count: i128,
) -> Effect
    requires lies { Lies here.now memory.old target }
    requires ends { heap.old.base + heap.old.bytes ≡ length memory.old }
    requires size { 1 ≤ element.size }
    requires small { element.size < 2 ^ 31 }
    requires align { IsAlignment element.align }
    ensures outcome { (shown : List ℕ) → leads (work memory.new heap.new shown) result
        ≡ allocated here.now target element count (work memory.old heap.old shown) }
    ensures length { length memory.new ≡ length memory.old }
{
    if count < 1 || 2147483647 < count {
        return Effect::Traps(Act::Count);
    }
    place_block(here, memory, heap, target, element, count as u32)
}

fn place_block(
    here: &Context,
    memory: &mut [u8],
    heap: &mut Heap,
    target: Cell,
    element: Element,
    count: u32,
) -> Effect
    requires lies { Lies here.now memory.old target }
    requires ends { heap.old.base + heap.old.bytes ≡ length memory.old }
    requires some { 1 ≤ count }
    requires few { count < 2 ^ 31 }
    requires size { 1 ≤ element.size }
    requires small { element.size < 2 ^ 31 }
    requires align { IsAlignment element.align }
    ensures outcome { (shown : List ℕ) → leads (work memory.new heap.new shown) result
        ≡ placed here.now target element count (work memory.old heap.old shown)
        (place_or_full heap.old (count * element.size) element.align) }
    ensures length { length memory.new ≡ length memory.old }
{
    let bytes = bytes_of_elements(count, element.size);
    match heap.take(element.ty, count, bytes, u64::from(element.align)) {
        Ok(at) => {
            fill_new(here, memory, target, at, bytes);
            Effect::Onward
        }
        Err(fault) => Effect::Lacks(fault),
    }
}

fn bytes_of_elements(count: u32, size: u32) -> u64
    requires some { 1 ≤ count }
    requires few { count < 2 ^ 31 }
    requires size { 1 ≤ size }
    requires small { size < 2 ^ 31 }
    ensures value { result ≡ count * size }
    ensures some { 1 ≤ result }
    ensures few { result < 2 ^ 62 }
{
    u64::from(count) * u64::from(size)
}

// Makes the bytes of a new block 0, and the pointer names it.
fn fill_new(here: &Context, memory: &mut [u8], target: Cell, at: u64, bytes: u64)
    requires lies { Lies here.now memory.old target }
    requires within { at + bytes ≤ length memory.old }
    ensures bytes { memory.new
        ≡ with_cell here.now target (spliced memory.old at (replicate bytes 0)) (pos at) }
    ensures length { length memory.new ≡ length memory.old }
{
    clear(memory, at as usize, bytes as usize);
    write_cell(here, memory, target, i128::from(at));
}

/// Ends the block that begins at an address. Null names none.
pub(crate) fn free(heap: &mut Heap, at: u64) -> Effect
    ensures outcome { (memory shown : List ℕ) → leads (work memory heap.new shown) result
        ≡ freed at (work memory heap.old shown) }
{
    if at == 0 {
        return Effect::Onward;
    }
    match heap.give_back(at) {
        Ok(()) => Effect::Onward,
        Err(_) => Effect::Traps(Act::Free),
    }
}
