//! The calls on a gate. None makes more than three calls on the disk.
ghost use Rattle.std.specs.Prelude.{◌≡◌, ◌+◌, ◌^◌, ◌<◌, ◌≤◌, ◌↔◌, length, take, IsTrue, IfOk, OnOk};
ghost use Rattle.porch_edge.specs.Causes.{HasCause};
ghost use Rattle.porch_edge.specs.Files.{file_of, written};
ghost use Rattle.porch_edge.specs.Disk.{WhereTold, IsSettled, HasFront, TouchesOnly, OnlyLooks, HasNow};
ghost use Rattle.porch_gate.specs.declared.gate.Gate.{Gate};
ghost use Rattle.porch_gate.specs.Gates.{HasNoLetter, HasFirst, IsOpen, IsClosed, IsOpened, closed_bytes, filled_bytes, opened_bytes, ReadsNow, ReadsSameFirst, OldOrClosed, SameFirst, WholeOrClosed};

use crate::Gate;
use porch_edge::{Disk, Failed, FileName};

/// Whether the file is open. `Failed` only where the disk failed.
pub fn is_open<D: Disk>(disk: &mut D, file: FileName, gate: Gate) -> Result<bool, Failed>
    ensures answer { IfOk result
        (λ is. WhereTold (D.state disk.old) (λ fs. IsTrue is ↔ IsOpen gate (file_of file fs))) }
    ensures looks { OnlyLooks (D.state disk.old) (D.state disk.new) }
    ensures cause { HasCause (D.faults disk.old) (D.faults disk.new) result }
{
    if disk.len(file)? < gate.least {
        return Ok(false);
    }
    let mut first = [0];
    let count = disk.read(file, 0, &mut first)?;
    Ok(count == 1 && first[0] == gate.letter)
}

/// Closes the file: writes the byte 0 at place 0 and syncs, where the file is empty or its byte 0 is the letter,
/// and else writes nothing. At each moment the file has its old bytes or is closed. `Failed` only where the disk failed.
pub fn close<D: Disk>(disk: &mut D, file: FileName, gate: Gate) -> Result<(), Failed>
    requires { IsSettled (D.state disk.old) file }
    ensures now { OnOk result
        (HasNow (D.state disk.old) (D.state disk.new) file (closed_bytes gate)) }
    ensures closed { OnOk result (IsClosed (D.state disk.new) file gate) }
    ensures moments { TouchesOnly (D.state disk.old) (D.state disk.new) file (OldOrClosed gate) }
    ensures cause { HasCause (D.faults disk.old) (D.faults disk.new) result }
{
    let mut first = [0];
    let count = disk.read(file, 0, &mut first)?;
    if count == 1 && first[0] != gate.letter {
        return Ok(());
    }
    disk.write_at(file, 0, &[0])?;
    disk.sync(file)
}

/// Writes a piece into the file from the place `at` on, behind its first byte, in one call on the disk. At each moment
/// the first byte is the one that it was, so that a file stays closed whose first byte isn't the letter, after `Failed`
/// too. `Failed` only where the disk failed.
pub fn write_behind<D: Disk>(
    disk: &mut D,
    file: FileName,
    at: u64,
    piece: &[u8],
) -> Result<(), Failed>
    requires behind { 0 < at }
    requires some { HasFirst (D.state disk.old) file }
    requires front { HasFront (D.state disk.old) file }
    ensures now { OnOk result
        (ReadsNow (D.state disk.old) (D.state disk.new) file (λ old. written old at piece.now)) }
    ensures within { OnOk result (at + length piece.now ≤ 2 ^ 62) }
    ensures first { ReadsSameFirst (D.state disk.old) (D.state disk.new) file }
    ensures front { HasFront (D.state disk.new) file }
    ensures moments { TouchesOnly (D.state disk.old) (D.state disk.new) file SameFirst }
    ensures closed { (gate : Gate) → HasNoLetter (D.state disk.old) file gate
        → TouchesOnly (D.state disk.old) (D.state disk.new) file (λ _ c. ¬ IsOpen gate c) }
    ensures cause { HasCause (D.faults disk.old) (D.faults disk.new) result }
{
    disk.write_at(file, at, piece)
}

/// Ends what was written behind the first byte: cuts the file to `len` bytes, at least one, and syncs it. At each moment
/// the first byte is the one that it was, so that a file stays closed whose first byte isn't the letter, after `Failed`
/// too. `Failed` only where the disk failed.
pub fn seal<D: Disk>(disk: &mut D, file: FileName, len: u64) -> Result<(), Failed>
    requires left { 0 < len }
    requires some { HasFirst (D.state disk.old) file }
    requires front { HasFront (D.state disk.old) file }
    ensures now { OnOk result (HasNow (D.state disk.old) (D.state disk.new) file (take len)) }
    ensures first { ReadsSameFirst (D.state disk.old) (D.state disk.new) file }
    ensures front { HasFront (D.state disk.new) file }
    ensures moments { TouchesOnly (D.state disk.old) (D.state disk.new) file SameFirst }
    ensures closed { (gate : Gate) → HasNoLetter (D.state disk.old) file gate
        → TouchesOnly (D.state disk.old) (D.state disk.new) file (λ _ c. ¬ IsOpen gate c) }
    ensures cause { HasCause (D.faults disk.old) (D.faults disk.new) result }
{
    disk.cut(file, len)?;
    disk.sync(file)
}

/// Puts these bytes behind the first: writes them, cuts the file behind them and syncs. At each moment the first
/// byte is the one that it was, so that a file stays closed whose first byte isn't the letter. `Failed` only where
/// the disk failed.
pub fn fill<D: Disk>(disk: &mut D, file: FileName, bytes: &[u8]) -> Result<(), Failed>
    requires settled { IsSettled (D.state disk.old) file }
    requires some { HasFirst (D.state disk.old) file }
    ensures now { OnOk result
        (HasNow (D.state disk.old) (D.state disk.new) file (filled_bytes bytes.now)) }
    ensures moments { TouchesOnly (D.state disk.old) (D.state disk.new) file SameFirst }
    ensures closed { (gate : Gate) → HasNoLetter (D.state disk.old) file gate
        → TouchesOnly (D.state disk.old) (D.state disk.new) file (λ _ c. ¬ IsOpen gate c) }
    ensures cause { HasCause (D.faults disk.old) (D.faults disk.new) result }
{
    write_behind(disk, file, 1, bytes)?;
    seal(disk, file, 1 + bytes.len() as u64)
}

/// Opens the file: writes the letter at place 0 and syncs. At each moment the file is whole or closed. `Failed`
/// only where the disk failed.
pub fn open_gate<D: Disk>(disk: &mut D, file: FileName, gate: Gate) -> Result<(), Failed>
    requires settled { IsSettled (D.state disk.old) file }
    requires long { WhereTold (D.state disk.old) (λ fs. gate.least ≤ length (file_of file fs)) }
    ensures now { OnOk result
        (HasNow (D.state disk.old) (D.state disk.new) file (opened_bytes gate)) }
    ensures opened { OnOk result (IsOpened (D.state disk.new) file gate) }
    ensures moments { TouchesOnly (D.state disk.old) (D.state disk.new) file (WholeOrClosed gate) }
    ensures cause { HasCause (D.faults disk.old) (D.faults disk.new) result }
{
    disk.write_at(file, 0, &[gate.letter])?;
    disk.sync(file)
}
