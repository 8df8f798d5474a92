//! The heap.
ghost use Rattle.std.specs.Prelude.{◌≡◌, ◌+◌, ◌<◌, ◌≤◌, ◌^◌, ◌⊎◌, ◌↔◌, [], length, IfOk, IfErr, IfSome, IfNone, OnOk, OnErr, OnSome, IsOk, IsTrue};
ghost use Rattle.porch_heap.specs.Blocks.{HeapState, IsHeap, IsAlignment, IsFirstGap, HasNoGap, IsFullFor, heap_with, heap_without, begins, block_around};
ghost use Rattle.porch_heap.specs.inside.Searching.{Divides, state};
ghost use Rattle.porch_heap.specs.Gaps.{place_or_full};
ghost use Rattle.porch_heap.specs.Chunks.{blocks_of};
ghost use Rattle.porch_heap.specs.inside.Seats.{IsBefore, number_of};
ghost use Rattle.porch_heap.specs.inside.Hints.{Keeps};

use crate::block::{Block, HeapFull, NotABlock};
use crate::blocks::Blocks;
use crate::chunks::Place;
use crate::hint::{Hint, class_of, lower, start_of};
use crate::row::Row;
use std::alloc::{AllocError, Global};
use std::marker::Model;

// The most blocks that may live at once.
const MOST_BLOCKS: usize = 65536;

/// A heap: some bytes from a base address on, with its live blocks in them.
///
/// Contracts see it as its base, its bytes and the list of live blocks by rising address. The blocks
/// lie in the heap, each with at least one byte between it and the next and one behind the last.
#[derive(Drop)]
pub struct Heap {
    bytes: u64,
    live: Row,
    hints: [Hint; 64],
}

impl Model for Heap {
    ghost use Rattle.porch_heap.specs.Blocks.{HeapState};

    ghost Value = { HeapState };

    ghost use Rattle.porch_heap.specs.Chunks.{blocks_of};

    ghost view = { λ h. record { base = h.live.base; bytes = h.bytes; blocks = blocks_of h.live.chunks } };

    ghost use Rattle.porch_heap.specs.inside.Searching.{state};
    ghost use Rattle.porch_heap.specs.inside.Hints.{Keeps};

    ghost invariant = { λ h. Keeps (state h.live.base h.bytes (blocks_of h.live.chunks)) h.hints };
}

impl Heap {
    /// An empty heap of so many bytes from a base address on, with room for 65,536 blocks. No later
    /// call takes memory.
    pub fn new(alloc: Global, base: u64, bytes: u64) -> Result<Heap, AllocError>
        requires { base + bytes < 2 ^ 62 }
        ensures empty { IfOk result (λ h. h ≡ record { base = base; bytes = bytes; blocks = [] }) }
        ensures valid { IfOk result IsHeap }
    {
        let live = Row::new(alloc, base)?;
        let hints = [Hint {
            bytes: 1,
            align: 1,
            low: 0,
        }; 64];
        Ok(Heap { bytes, live, hints })
    }

    /// The address of the heap's first byte.
    pub fn base(&self) -> u64
        ensures { result ≡ self.now.base }
    {
        self.live.base()
    }

    /// How many bytes the heap has.
    pub fn bytes(&self) -> u64
        ensures { result ≡ self.now.bytes }
    {
        self.bytes
    }

    /// The live blocks by rising address.
    pub fn blocks(&self) -> Blocks<'_>
        ensures blocks { result ≡ self.now.blocks }
        ensures valid { IsHeap self.now }
    {
        self.live.blocks()
    }

    /// How many blocks are live, at most 65,536.
    pub fn len(&self) -> usize
        ensures len { result ≡ length self.now.blocks }
        ensures few { result ≤ 65536 }
    {
        self.live.len()
    }

    /// Whether no block is live.
    pub fn is_empty(&self) -> bool
        ensures { IsTrue result ↔ (self.now.blocks ≡ []) }
    {
        self.live.len() == 0
    }

    /// The block that holds the byte at an address, or ends there: whose last byte is the one before.
    pub fn block_at(&self, at: u64) -> Option<Block>
        ensures { result ≡ block_around at self.now.blocks }
    {
        self.live.held(at)
    }

    /// Makes a block for `count` values of the type of number `ty`, of so many bytes in all, at the
    /// lowest place that has room for it, and answers its address; or says that there is none, or that
    /// 65,536 blocks are live. It takes no memory.
    pub fn take(&mut self, ty: u32, count: u32, bytes: u64, align: u64) -> Result<u64, HeapFull>
        requires count { 1 ≤ count }
        requires some { 1 ≤ bytes }
        requires bytes { bytes < 2 ^ 62 }
        requires align { IsAlignment align }
        ensures value { result ≡ place_or_full self.old bytes align }
        ensures first { IfOk result (IsFirstGap self.old bytes align) }
        ensures added { IfOk result (λ at.
            self.new ≡ heap_with (record { at = at; ty = ty; count = count; bytes = bytes })
            self.old) }
        ensures room { OnOk result (length self.old.blocks < 65536) }
        ensures full { OnErr result (HasNoGap self.old bytes align
            ⊎ (length self.old.blocks ≡ 65536)) }
        ensures fault { IfErr result (IsFullFor self.old bytes) }
        ensures same { OnErr result (self.new ≡ self.old) }
        ensures valid { IsHeap self.new }
    {
        match place(&mut self.live, &mut self.hints, self.bytes, bytes, align) {
            Some(place) => {
                let at = place.at;
                self.live.insert(
                    place.before,
                    Block {
                        at,
                        ty,
                        count,
                        bytes,
                    },
                );
                Ok(at)
            }
            None => Err(self.full(bytes)),
        }
    }

    /// Ends the live block that begins at an address. It takes no memory.
    pub fn give_back(&mut self, at: u64) -> Result<(), NotABlock>
        ensures begins { IsOk result ↔ IsTrue (begins at self.old.blocks) }
        ensures gone { OnOk result (self.new ≡ heap_without at self.old) }
        ensures same { OnErr result (self.new ≡ self.old) }
        ensures valid { IsHeap self.new }
    {
        match self.live.seat_of(at) {
            Some(seat) => {
                let gap = self.live.gap(seat, self.live.base() + self.bytes);
                self.live.remove(seat);
                lower(&mut self.hints, gap);
                Ok(())
            }
            None => Err(NotABlock),
        }
    }

    // What is told of a request without a place.
    fn full(&self, bytes: u64) -> HeapFull
        ensures fault { IsFullFor self.now bytes result }
    {
        HeapFull {
            asked: bytes,
            largest: self.live.longest_run(self.bytes),
            blocks: self.live.len() as u32,
        }
    }
}

// The first place for a request in a heap of so many bytes, if another block may live.
fn place(live: &mut Row, hints: &mut [Hint; 64], size: u64, bytes: u64, align: u64) -> Option<Place>
    requires keeps { Keeps (state live.old.base size (blocks_of live.old.chunks)) hints.old }
    requires bytes { bytes < 2 ^ 62 }
    requires align { IsAlignment align }
    ensures first { IfSome result (λ p.
        IsFirstGap (state live.old.base size (blocks_of live.old.chunks)) bytes align p.at) }
    ensures index { IfSome result (λ p.
        Divides (blocks_of live.old.chunks) (number_of live.old.chunks p.before) p.at bytes) }
    ensures seat { IfSome result (λ p. IsBefore live.old.chunks p.before) }
    ensures room { OnSome result (length (blocks_of live.old.chunks) < 65536) }
    ensures full { IfNone result
        (HasNoGap (state live.old.base size (blocks_of live.old.chunks)) bytes align
        ⊎ (length (blocks_of live.old.chunks) ≡ 65536)) }
    ensures same { live.new ≡ live.old }
    ensures keeps { Keeps (state live.old.base size (blocks_of live.old.chunks)) hints.new }
{
    if live.len() >= MOST_BLOCKS {
        return None;
    }
    let class = class_of(bytes, align);
    let from = start_of(hints[class.number], live.base(), class.bytes, class.align);
    match live.first_place(size, from, class.bytes, class.align) {
        Some(first) => {
            hints[class.number] = Hint {
                bytes: class.bytes,
                align: class.align,
                low: first.at,
            };
            if class.bytes == bytes && class.align == align {
                return Some(first);
            }
            live.first_place(size, first.at, bytes, align)
        }
        None => None,
    }
}
