//! The iterator over the blocks of a heap.
ghost use Rattle.std.specs.Prelude.{◌≡◌};
ghost use Rattle.std.specs.Iterator.{YieldsFirstRef, item_count};
ghost use Rattle.porch_heap.specs.Chunks.{blocks_of};

use crate::block::Block;
use crate::chunk::Chunk;
use std::marker::Model;

/// The live blocks of a heap by rising address, as [`Heap::blocks`](crate::Heap::blocks) lends them.
#[derive(Drop)]
pub struct Blocks<'a> {
    first: &'a [Block],
    others: &'a [Chunk],
}

impl<'a> Model for Blocks<'a> {
    ghost use Rattle.std.specs.Prelude.{List, ◌++◌};
    ghost use Rattle.porch_heap.specs.declared.block.Block.{Block};
    ghost use Rattle.porch_heap.specs.Chunks.{blocks_of};

    ghost Value = { List Block };

    ghost view = { λ b. b.first.now ++ blocks_of b.others.now };
}

impl<'a> Blocks<'a> {
    /// The blocks of chunks.
    pub(crate) fn new(chunks: &'a [Chunk]) -> Blocks<'a>
        ensures { result ≡ blocks_of chunks.now }
    {
        Blocks {
            first: &[],
            others: chunks,
        }
    }
}

impl<'a> Iterator for Blocks<'a> {
    type Item = &'a Block;

    ghost next_gives = { YieldsFirstRef (λ b. b) };

    ghost remaining = { item_count (λ b. b) };

    fn next(&mut self) -> Option<&'a Block> {
        while self.first.is_empty() {
            let (chunk, others) = self.others.split_first()?;
            self.first = chunk.blocks();
            self.others = others;
        }
        let (block, first) = self.first.split_first()?;
        self.first = first;
        Some(block)
    }
}
