//! A frame that a call makes.

ghost use Rattle.std.specs.Prelude.{◌≡◌, ◌≤◌, ◌+◌, length, replicate};
ghost use Rattle.porch_bytes.specs.Leaf.{spliced};
ghost use Rattle.porch_instructions.specs.Instructions.{with_cell, source_value};
ghost use Rattle.porch_frames.specs.Passing.{passed, in_frame, IsPassing, ArePassings, AgreeBelow};

use crate::passing::Passing;
use porch_bytes::bytes::clear;
use porch_bytes::other_bytes_stay;
use porch_instructions::instruction::Context;
use porch_instructions::{read_source, write_cell};

/// Makes a frame of so many bytes at an address after the caller's: its bytes become 0, and its parameters the arguments
/// that the caller's frame had. It takes time in the size of the frame and the number of arguments.
#[tactic(auto, using(crate::proofs::ArgumentsPass::passed_after_clearing))]
pub fn enter_frame(here: &Context, at: u64, size: u64, passings: &[Passing], memory: &mut [u8])
    requires within { at + size ≤ length memory.old }
    requires passings { ArePassings here.now at size passings.now }
    ensures memory { memory.new ≡ passed here.now (in_frame here.now at) passings.now memory.old
        (spliced memory.old at (replicate size 0)) }
    ensures length { length memory.new ≡ length memory.old }
{
    other_bytes_stay();
    clear(memory, at as usize, size as usize);
    let there = Context { at, ..*here };
    pass_arguments(here, &there, size, passings, memory);
}

// Passes arguments one after the other.
fn pass_arguments(
    here: &Context,
    there: &Context,
    _size: u64,
    passings: &[Passing],
    memory: &mut [u8],
)
    requires within { there.now.at + _size ≤ length memory.old }
    requires passings { ArePassings here.now there.now.at _size passings.now }
    ensures memory { memory.new ≡ passed here.now there.now passings.now memory.old memory.old }
    ensures length { length memory.new ≡ length memory.old }
{
    for passing in passings {
        pass_argument(here, there, _size, *passing, memory);
    }
}

// Passes one argument; all bytes before the new frame stay.
#[tactic(auto, using(crate::proofs::ArgumentsPass::cell_agrees))]
fn pass_argument(here: &Context, there: &Context, _size: u64, passing: Passing, memory: &mut [u8])
    requires within { there.now.at + _size ≤ length memory.old }
    requires passing { IsPassing here.now there.now.at _size passing }
    ensures memory { memory.new ≡ with_cell there.now passing.to memory.old
        (source_value here.now passing.from memory.old) }
    ensures agree { AgreeBelow there.now.at memory.old memory.new }
    ensures length { length memory.new ≡ length memory.old }
{
    other_bytes_stay();
    let value = read_source(here, memory, passing.from);
    write_cell(there, memory, passing.to, value);
}
