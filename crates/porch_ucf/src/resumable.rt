//! Whether the rows of a checkpoint can be resumed.

ghost use Rattle.std.specs.Prelude.{◌≡◌, ◌≤◌, ◌<◌, ◌+◌, ◌^◌, length, slice_get, IfErr, OnOk, Some, None};
ghost use Rattle.std.specs.Option.{option_map};
ghost use Rattle.porch_ucf.specs.Reading.{row_place};
ghost use Rattle.porch_flat.specs.whole.Form.{form_of};
ghost use Rattle.porch_flat.specs.whole.Places.{commands_of};
ghost use Rattle.porch_flat.specs.whole.Rewritten.{passes};
ghost use Rattle.porch_ucf.specs.inside.SavedPlaces.{AreSavedPlaces};
ghost use Rattle.porch_ucf.specs.RowFlaws.{call_of, waits_for, function_of, begins_in_main, is_resumable_at, frame_flaw, is_block, block_flaw};

use crate::fault::{ImageFault, Reason};
use crate::front::ROW_BYTES;
use crate::header::HEADER_BYTES;
use crate::image::{BlockRow, FrameRow};
use crate::saved::{places_of, saved_place};
use porch_flat::whole::{Command, Flat, Form, form_of_command, main_number};
use porch_types::Types;

/// The most elements that an allocation may have.
pub const MOST_COUNT: u32 = 2_147_483_647;

/// Refuses the first frame that can't be resumed: the first one has to be that of main, and each has to
/// wait at a call of the next one's function, the last one at a checkpoint.
pub(crate) fn check_frames(
    program: &Flat,
    saved: &[Vec<Option<usize>>],
    frames: &[FrameRow],
) -> Result<(), ImageFault>
    requires few { length frames.now < 2 ^ 32 }
    requires saved { AreSavedPlaces program.now saved.now }
    ensures sound { OnOk result (frame_flaw program.now frames.now ≡ None) }
    ensures flaw { IfErr result (λ fault. frame_flaw program.now frames.now ≡ Some fault) }
{
    for i in 0..frames.len() {
        if !is_resumable_at(program, saved, frames, i) {
            return Err(row_damaged(i, Reason::Frame));
        }
    }
    Ok(())
}

fn is_resumable_at(
    program: &Flat,
    saved: &[Vec<Option<usize>>],
    frames: &[FrameRow],
    i: usize,
) -> bool
    requires within { i < length frames.now }
    requires saved { AreSavedPlaces program.now saved.now }
    ensures { result ≡ is_resumable_at program.now frames.now i }
{
    (0 < i || begins_in_main(program, frames)) && waits(program, saved, frames, i)
}

fn begins_in_main(program: &Flat, frames: &[FrameRow]) -> bool
    ensures { result ≡ begins_in_main program.now frames.now }
{
    match (function_at(frames, 0), main_number(program)) {
        (Some(function), Some(main)) => function as usize == main,
        _ => false,
    }
}

/// The function of a frame.
fn function_at(frames: &[FrameRow], i: usize) -> Option<u32>
    ensures { result ≡ function_of (slice_get frames.now i) }
{
    match frames.get(i) {
        Some(frame) => Some(frame.function),
        None => None,
    }
}

/// Whether the frame waits at a call of the next one's function, or at a checkpoint where none is next.
fn waits(program: &Flat, saved: &[Vec<Option<usize>>], frames: &[FrameRow], i: usize) -> bool
    requires within { i < length frames.now }
    requires saved { AreSavedPlaces program.now saved.now }
    ensures { result ≡ passes
        (λ frame. passes (waits_for (function_of (slice_get frames.now (i + 1))))
        (call_of program.now frame.function frame.call))
        (slice_get frames.now i) }
{
    let frame = frames[i];
    match call_of(program, saved, frame.function, frame.call) {
        Some(command) => waits_for(function_at(frames, i + 1), command),
        None => false,
    }
}

/// The call of a call number in a function: it stands in front of the SAVED that keeps the number.
fn call_of<'a>(
    program: &'a Flat,
    saved: &[Vec<Option<usize>>],
    function: u32,
    number: u32,
) -> Option<&'a Command>
    requires { AreSavedPlaces program.now saved.now }
    ensures { option_map (λ c. form_of c.now) result ≡ call_of program.now function number }
{
    let commands = commands_of(program, function);
    match saved_place(commands, places_of(saved, function), number) {
        Some(place) => commands.get(place.saturating_sub(1)),
        None => None,
    }
}

fn commands_of(program: &Flat, function: u32) -> &[Command]
    ensures { result.now ≡ commands_of (slice_get program.now.functions function) }
{
    match program.functions.get(function as usize) {
        Some(function) => function.commands.as_slice(),
        None => &[],
    }
}

/// Whether a frame may wait at a command for a frame of the next function, or for none.
fn waits_for(next: Option<u32>, command: &Command) -> bool
    ensures { result ≡ waits_for next (form_of command.now) }
{
    match form_of_command(command) {
        Form::Call(_, function, _) => match next {
            Some(next) => next == function,
            None => false,
        },
        Form::Checkpoint => next.is_none(),
        Form::Move(_, _)
        | Form::Cast(_, _)
        | Form::Operator(_, _, _, _)
        | Form::Complement(_, _)
        | Form::Comparison(_, _, _, _)
        | Form::Subobject(_, _, _)
        | Form::Step(_, _, _, _)
        | Form::Difference(_, _, _)
        | Form::Load(_, _)
        | Form::Store(_, _)
        | Form::Copy(_, _)
        | Form::Kill(_)
        | Form::Allocate(_, _, _)
        | Form::Free(_)
        | Form::Show(_, _, _)
        | Form::Text(_, _)
        | Form::Label(_)
        | Form::Jump(_)
        | Form::Branch(_, _)
        | Form::Turn
        | Form::Return(_)
        | Form::Restore(_)
        | Form::Table(_, _)
        | Form::Saved(_, _)
        | Form::Push(_) => false,
    }
}

/// Refuses the first block that has no type of the program, or no size that an allocation can have.
pub(crate) fn check_blocks(
    types: &Types,
    frames: usize,
    blocks: &[BlockRow],
) -> Result<(), ImageFault>
    requires few_frames { frames < 2 ^ 32 }
    requires few_blocks { length blocks.now < 2 ^ 32 }
    ensures sound { OnOk result (block_flaw types.now frames blocks.now ≡ None) }
    ensures flaw { IfErr result (λ fault. block_flaw types.now frames blocks.now ≡ Some fault) }
{
    for (i, block) in blocks.iter().enumerate() {
        if !is_block(types, *block) {
            return Err(row_damaged(frames + i, Reason::Block));
        }
    }
    Ok(())
}

fn is_block(types: &Types, block: BlockRow) -> bool
    ensures { result ≡ is_block types.now block }
{
    (block.ty as usize) < types.len() && 1 <= block.count && block.count <= MOST_COUNT
}

/// A fault at a row.
fn row_damaged(row: usize, reason: Reason) -> ImageFault
    requires { row < 2 ^ 34 }
    ensures { result ≡ ImageFault.Damaged (row_place row) reason }
{
    ImageFault::Damaged {
        place: HEADER_BYTES as u64 + ROW_BYTES * row as u64,
        reason,
    }
}
