//! Some blocks of a heap that stand one behind the other.
ghost use Rattle.std.specs.Prelude.{◌≡◌, ◌+◌, ◌*◌, ◌<◌, ◌≤◌, ◌^◌, ◌++◌, [], length, take, drop, insert, remove, IfOk, IfSome, IfNone};
ghost use Rattle.porch_heap.specs.Blocks.{IsAlignment, Stand};
ghost use Rattle.porch_heap.specs.inside.Searching.{Divides, Head};
ghost use Rattle.porch_heap.specs.Chunks.{ChunkState};
ghost use Rattle.porch_heap.specs.inside.ChunkRow.{NoRoom, IsFound, after};

use crate::block::Block;
use crate::place::{Found, first_in, free_before, width};
use crate::too_large::{NONE, TooLarge};
use std::alloc::{AllocError, Global};
use std::marker::Model;

/// How many blocks a chunk has memory for.
pub(crate) const CHUNK: usize = 128;

/// How many of a full chunk's blocks stay in it when it is split.
pub(crate) const HALF: usize = 64;

/// Some blocks that follow one another, with the free bytes before each of them.
///
/// Contracts see the address from which the bytes before its first block are free, and its blocks. It
/// keeps beside them for which requests no place is before any of them, so that a search can pass it
/// by.
#[derive(Drop)]
pub(crate) struct Chunk {
    from: u64,
    blocks: Vec<Block>,
    too_large: TooLarge,
}

impl Model for Chunk {
    ghost use Rattle.porch_heap.specs.Chunks.{ChunkState};

    ghost Value = { ChunkState };

    ghost view = { λ c. record { from = c.from; blocks = c.blocks.items } };

    ghost use Rattle.std.specs.Prelude.{vec_capacity, ◌≤◌};
    ghost use Rattle.porch_heap.specs.inside.TooLarge.{IsChunk};

    ghost invariant = { λ c. IsChunk c.from c.blocks.items c.too_large × (128 ≤ vec_capacity c.blocks) };
}

impl Chunk {
    /// A chunk of no blocks, with memory for all that it may hold.
    pub(crate) fn new(alloc: Global) -> Result<Chunk, AllocError>
        ensures { IfOk result (λ c. c ≡ record { from = 0; blocks = [] }) }
    {
        let blocks = Vec::with_capacity(alloc, CHUNK)?;
        Ok(Chunk {
            from: 0,
            blocks,
            too_large: NONE,
        })
    }

    /// Where the free bytes before its first block begin.
    pub(crate) fn from(&self) -> u64
        ensures { result ≡ self.now.from }
    {
        self.from
    }

    /// Its blocks.
    pub(crate) fn blocks(&self) -> &[Block]
        ensures blocks { result.now ≡ self.now.blocks }
        ensures few { length self.now.blocks ≤ 128 }
        ensures stand { Stand self.now.from (2 ^ 62) self.now.blocks }
    {
        self.blocks.as_slice()
    }

    /// How many blocks it has.
    pub(crate) fn len(&self) -> usize
        ensures len { result ≡ length self.now.blocks }
        ensures few { result ≤ 128 }
    {
        self.blocks.len()
    }

    /// Where bytes begin to be free behind its last block.
    pub(crate) fn behind(&self) -> u64
        ensures behind { result ≡ after self.now.from self.now.blocks }
        ensures small { result ≤ 2 ^ 62 }
    {
        free_before(self.blocks.as_slice(), self.from, self.blocks.len())
    }

    /// The first place for a request before one of its blocks, where there is none before those in
    /// front of the one of a number.
    pub(crate) fn first_place(&mut self, start: usize, bytes: u64, align: u64) -> Option<Found>
        requires start { start ≤ length self.old.blocks }
        requires none { NoRoom align bytes self.old.from (take start self.old.blocks) }
        requires bytes { bytes < 2 ^ 62 }
        requires align { IsAlignment align }
        ensures found { IfSome result
            (λ f. IsFound self.old.blocks self.old.from bytes align f.index f.at) }
        ensures none { IfNone result (NoRoom align bytes self.old.from self.old.blocks) }
        ensures same { self.new ≡ self.old }
    {
        if self.too_large.at(align) <= bytes {
            return None;
        }
        match first_in(self.blocks.as_slice(), self.from, start, bytes, align) {
            Ok(found) => Some(found),
            Err(least) => {
                self.too_large = self.too_large.with(align, least);
                None
            }
        }
    }

    /// Puts a block before the one of a number, or at the end. It takes no memory.
    pub(crate) fn insert(&mut self, index: usize, block: Block)
        requires room { length self.old.blocks < 128 }
        requires low { self.old.from ≤ block.at }
        requires place { Divides self.old.blocks index block.at block.bytes }
        requires high { block.at + block.bytes < 2 ^ 62 }
        ensures { self.new ≡ record
            { from = self.old.from; blocks = insert self.old.blocks index block } }
    {
        let _ = self.blocks.insert(index, block);
        let gap = width(self.blocks.as_slice(), self.from, index);
        self.too_large = self.too_large.raised(gap);
    }

    /// Takes the block of a number out.
    pub(crate) fn remove(&mut self, index: usize)
        requires within { index < length self.old.blocks }
        ensures { self.new ≡ record
            { from = self.old.from; blocks = remove self.old.blocks index } }
    {
        let _ = self.blocks.remove(index);
        let gap = width(self.blocks.as_slice(), self.from, index);
        self.too_large = self.too_large.raised(gap);
    }

    /// Takes over the free bytes from another address on.
    pub(crate) fn begin_at(&mut self, from: u64)
        requires low { Head (λ b. from ≤ b.at) self.old.blocks }
        requires small { from ≤ 2 ^ 62 }
        ensures { self.new ≡ record { from = from; blocks = self.old.blocks } }
    {
        let gap = width(self.blocks.as_slice(), from, 0);
        self.too_large = self.too_large.raised(gap);
        self.from = from;
    }

    /// Takes all blocks out.
    pub(crate) fn clear(&mut self)
        ensures { self.new ≡ record { from = self.old.from; blocks = [] } }
    {
        self.blocks.clear();
        self.too_large = NONE;
    }

    /// Gives the upper half of its blocks to another chunk, in place of that one's own.
    pub(crate) fn split(&mut self, upper: &mut Chunk)
        requires full { length self.old.blocks ≡ 128 }
        ensures lower { self.new ≡ record
            { from = self.old.from; blocks = take 64 self.old.blocks } }
        ensures upper { upper.new
            ≡ record {
              from = after self.old.from (take 64 self.old.blocks);
              blocks = drop 64
                  self.old.blocks;
            } }
    {
        upper.blocks.clear();
        let _ = upper
            .blocks
            .extend_from_slice(&self.blocks.as_slice()[HALF..]);
        upper.from = free_before(self.blocks.as_slice(), self.from, HALF);
        upper.too_large = self.too_large;
        self.blocks.truncate(HALF);
    }

    /// Takes over the blocks of the chunk that follows it. It takes no memory.
    pub(crate) fn append(&mut self, upper: &Chunk)
        requires next { upper.now.from ≡ after self.old.from self.old.blocks }
        requires room { length self.old.blocks + length upper.now.blocks ≤ 128 }
        ensures { self.new ≡ record
            { from = self.old.from; blocks = self.old.blocks ++ upper.now.blocks } }
    {
        let _ = self.blocks.extend_from_slice(upper.blocks.as_slice());
        self.too_large = self.too_large.joined(upper.too_large);
    }
}
