//! Worked places in a heap, and long runs of requests against a list in no parts.

ghost use Rattle.porch_heap.specs.Blocks.{IsAlignment};

use porch_heap::{Block, Heap, HeapFull, NotABlock};
use std::process::Abort;
use std::test::Fail;

/// What is asked of a heap, and the answer.
enum Turn {
    /// A type and a count, bytes and an alignment, and the place.
    Takes(u32, u32, u64, u64, u64),
    /// So many chars at an alignment, which find no place; the longest free run, and how many blocks are live.
    FindsNone(u32, u64, u64, u32),
    GivesBack(u64, Result<(), NotABlock>),
    Holds(u64, Option<Block>),
    Counts(usize),
}

const FIRST: Block = Block {
    at: 1000,
    ty: 7,
    count: 2,
    bytes: 8,
};

static BLOCKS_ENDING_BETWEEN: [Turn; 22] = [
    Turn::Takes(7, 2, 8, 8, 1000),
    Turn::Takes(3, 1, 2, 2, 1010),
    Turn::Takes(0, 1, 1, 1, 1013),
    Turn::Takes(7, 1, 4, 4, 1016),
    Turn::Takes(7, 1, 8, 8, 1024),
    Turn::Holds(999, None),
    Turn::Holds(1000, Some(FIRST)),
    Turn::Holds(1008, Some(FIRST)),
    Turn::Holds(1009, None),
    Turn::GivesBack(1001, Err(NotABlock)),
    Turn::GivesBack(1010, Ok(())),
    Turn::GivesBack(1010, Err(NotABlock)),
    Turn::Takes(0, 3, 3, 1, 1009),
    Turn::GivesBack(1000, Ok(())),
    Turn::Takes(0, 9, 9, 1, 1033),
    Turn::Takes(0, 7, 7, 8, 1000),
    Turn::Counts(6),
    Turn::FindsNone(22, 1, 21, 6),
    Turn::FindsNone(20, 2, 21, 6),
    Turn::Takes(0, 20, 20, 1, 1043),
    Turn::Takes(0, 1, 1, 1, 1021),
    Turn::FindsNone(1, 1, 1, 8),
];

static NO_BYTES: [Turn; 1] = [Turn::FindsNone(1, 1, 0, 0)];

static AN_ODD_BASE: [Turn; 4] = [
    Turn::FindsNone(9, 8, 16, 0),
    Turn::Takes(0, 8, 8, 8, 24),
    Turn::FindsNone(7, 1, 7, 1),
    Turn::Takes(0, 6, 6, 1, 17),
];

fn aligned(align: u64) -> u64
    ensures { IsAlignment result }
{
    match align {
        2 => 2,
        4 => 4,
        8 => 8,
        _ => 1,
    }
}

fn take_turn(rt: &impl Abort, heap: &mut Heap, turn: &Turn) {
    match turn {
        Turn::Takes(ty, count, bytes, align, at) => {
            assert!(rt; *count > 0 && *bytes > 0 && *bytes < 1000);
            assert_eq!(rt; heap.take(*ty, *count, *bytes, aligned(*align)), Ok(*at));
        }
        Turn::FindsNone(count, align, largest, blocks) => {
            assert!(rt; *count > 0);
            let full = HeapFull {
                asked: u64::from(*count),
                largest: *largest,
                blocks: *blocks,
            };
            assert_eq!(rt;
                heap.take(0, *count, full.asked, aligned(*align)),
                Err(full)
            );
        }
        Turn::GivesBack(at, answer) => assert_eq!(rt; heap.give_back(*at), *answer),
        Turn::Holds(at, answer) => assert_eq!(rt; heap.block_at(*at), *answer),
        Turn::Counts(count) => {
            assert_eq!(rt; heap.len(), *count);
            assert_eq!(rt; heap.blocks().count(), *count);
        }
    }
}

fn take_turns(rt: &impl Abort, heap: &mut Heap, turns: &[Turn]) {
    for turn in turns {
        take_turn(rt, heap, turn);
    }
}

#[test]
fn places_with_blocks_ending_between(rt: HostRuntime) -> Result<(), Fail> {
    let mut heap = Heap::new(rt.alloc(), 1000, 64)?;
    take_turns(&rt, &mut heap, &BLOCKS_ENDING_BETWEEN);
    Ok(())
}

#[test]
fn a_heap_of_no_bytes(rt: HostRuntime) -> Result<(), Fail> {
    let mut heap = Heap::new(rt.alloc(), 16, 0)?;
    take_turns(&rt, &mut heap, &NO_BYTES);
    Ok(())
}

#[test]
fn an_odd_base(rt: HostRuntime) -> Result<(), Fail> {
    let mut heap = Heap::new(rt.alloc(), 17, 16)?;
    take_turns(&rt, &mut heap, &AN_ODD_BASE);
    Ok(())
}

#[test]
fn the_most_blocks(rt: HostRuntime) -> Result<(), Fail> {
    let mut heap = Heap::new(rt.alloc(), 0, 4_000_000)?;
    for _ in 0..65536u32 {
        assert!(rt; heap.take(0, 1, 1, 1).is_ok());
    }
    assert_eq!(rt;
        heap.take(0, 1, 1, 1),
        Err(HeapFull {
            asked: 1,
            largest: 3_868_928,
            blocks: 65536
        })
    );
    assert_eq!(rt; heap.give_back(2), Ok(()));
    assert_eq!(rt; heap.take(0, 1, 2, 2), Ok(131_072));
    Ok(())
}

// The next of some numbers below 2^31 that look random.
fn next(seed: u32) -> u32 {
    ((u64::from(seed) * 1_103_515_245 + 12_345) % 2_147_483_648) as u32
}

fn alignment(seed: u64) -> u64
    ensures { IsAlignment result }
{
    match seed % 4 {
        0 => 1,
        1 => 2,
        2 => 4,
        _ => 8,
    }
}

// What a list in no parts says: the lowest place for a request among blocks by rising address.
fn lowest(blocks: &[Block], end: u64, bytes: u64, align: u64) -> Option<u64>
    requires { IsAlignment align }
{
    let mut at = 0u64;
    for block in blocks {
        if at.saturating_add(bytes) < block.at {
            return Some(at);
        }
        let behind = block.at.saturating_add(block.bytes).saturating_add(align);
        at = behind - behind % align;
    }
    if at.saturating_add(bytes) < end {
        Some(at)
    } else {
        None
    }
}

fn put(blocks: &mut Vec<Block>, block: Block) -> Result<(), Fail> {
    let index = blocks.iter().take_while(|b| b.at < block.at).count();
    blocks.insert(index, block)?;
    Ok(())
}

fn one_turn(
    rt: &impl Abort,
    heap: &mut Heap,
    blocks: &mut Vec<Block>,
    seed: u64,
) -> Result<(), Fail> {
    if seed % 5 == 0 && !blocks.is_empty() {
        let gone = blocks.remove((seed / 8 % blocks.len() as u64) as usize);
        assert_eq!(rt; heap.give_back(gone.at), Ok(()));
        assert_eq!(rt; heap.give_back(gone.at), Err(NotABlock));
        return Ok(());
    }
    let align = alignment(seed / 8);
    let bytes = seed / 64 % 40 + 1;
    match lowest(blocks.as_slice(), 60_000, bytes, align) {
        Some(at) => {
            assert_eq!(rt; heap.take(7, 1, bytes, align), Ok(at));
            put(
                blocks,
                Block {
                    at,
                    ty: 7,
                    count: 1,
                    bytes,
                },
            )
        }
        None => {
            assert!(rt; heap.take(7, 1, bytes, align).is_err());
            Ok(())
        }
    }
}

// Against a list in no parts, over thousands of turns, in which chunks are split and given up.
#[test]
fn as_a_list_in_no_parts(rt: HostRuntime) -> Result<(), Fail> {
    let mut heap = Heap::new(rt.alloc(), 0, 60_000)?;
    let mut blocks = Vec::new(rt.alloc());
    let mut seed = 1;
    for _ in 0..6000u32 {
        seed = next(seed);
        one_turn(&rt, &mut heap, &mut blocks, u64::from(seed) / 256)?;
    }
    assert!(rt; heap.len() > 1000);
    assert!(rt; heap.blocks().eq(blocks.iter()));
    for block in blocks.iter() {
        assert_eq!(rt; heap.give_back(block.at), Ok(()));
    }
    assert_eq!(rt; heap.blocks().count(), 0);
    Ok(())
}

// Of each 256 blocks only the last one stays, and small ones fill the gaps before it: chunks are split
// until no spare one is left, and then those that follow one another become one.
#[test]
fn spare_chunks_run_out(rt: HostRuntime) -> Result<(), Fail> {
    let mut heap = Heap::new(rt.alloc(), 0, 1_000_000)?;
    for number in 0..32_000u64 {
        assert_eq!(rt; heap.take(8, 1, 8, 1), Ok(9 * number));
    }
    for number in 0..32_000u64 {
        if number % 256 != 255 {
            assert_eq!(rt; heap.give_back(9 * number), Ok(()));
        }
    }
    for number in 0..65_411u64 {
        assert_eq!(rt;
            heap.take(1, 1, 1, 1),
            Ok(number / 1147 * 2304 + number % 1147 * 2)
        );
    }
    assert_eq!(rt; heap.len(), 65_536);
    let mut from = 0;
    for block in heap.blocks() {
        assert!(rt; block.at >= from);
        from = block.at.saturating_add(block.bytes).saturating_add(1);
    }
    Ok(())
}
