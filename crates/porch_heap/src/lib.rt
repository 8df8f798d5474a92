//! The heap of a running program as the list of its live blocks: where the next one goes, which one
//! holds an address, and which one ends.
//!
//! Start at [`Heap`]. A block is put at the lowest place that has room for it and one byte more, so
//! the address just behind a block's last byte belongs to no other block. Only [`Heap::new`] takes
//! memory.
//!
//! The blocks stand in a row of chunks. `row` has what a heap asks of it, over searches (`chunks`) and
//! edits (`edits`) of a list of chunks; `chunk` has one of them, over searches in a list of blocks
//! (`place`). A search is cut short by what is known from earlier ones: of a chunk, which requests are
//! too large for it (`too_large`), and of the whole heap, below which address there is no place
//! (`hint`).
#![tactic(auto)]

mod block;
mod blocks;
mod chunk;
mod chunks;
mod edits;
mod heap;
mod hint;
mod laws;
mod place;
mod row;
mod too_large;

pub use block::{Block, HeapFull, NotABlock};
pub use blocks::Blocks;
pub use heap::Heap;
pub use laws::{
    blocks_lie_apart, first_gap_is_first, heaps_stay_heaps, longest_run_is_longest,
    other_blocks_stay,
};
