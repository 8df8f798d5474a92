//! The number of a checkpoint file.
ghost use Rattle.std.specs.Prelude.{◌≡◌, IfOk};
ghost use Rattle.porch_edge.specs.Causes.{HasCause};
ghost use Rattle.porch_edge.specs.Disk.{WhereTold, OnlyLooks};
ghost use Rattle.porch_edge.specs.Files.{file_of};
ghost use Rattle.porch_store.specs.inside.Numbers.{HasNumber};

use byteorder::{BigEndian, ByteOrder};
use porch_edge::{Disk, Failed, FileName};
use porch_gate::{Gate, is_open};

/// The byte 0 of an open checkpoint file: the letter `P`.
pub const CHECKPOINT_LETTER: u8 = b'P';

/// The least number of bytes of an open checkpoint file.
pub const CHECKPOINT_LEAST: u64 = 128;

// Where an open file has its number, as a big-endian u64.
const PLACE: u64 = 16;

/// The gate of a checkpoint file.
pub fn checkpoint() -> Gate
    ensures letter { result.letter ≡ CHECKPOINT_LETTER }
    ensures least { result.least ≡ CHECKPOINT_LEAST }
{
    Gate {
        letter: CHECKPOINT_LETTER,
        least: CHECKPOINT_LEAST,
    }
}

/// The number of an open checkpoint file, or none where the file is closed.
pub(crate) fn open_number<D: Disk>(disk: &mut D, file: FileName) -> Result<Option<u64>, Failed>
    ensures answer { IfOk result
        (λ number. WhereTold (D.state disk.old) (λ fs. HasNumber (file_of file fs) number)) }
    ensures looks { OnlyLooks (D.state disk.old) (D.state disk.new) }
    ensures cause { HasCause (D.faults disk.old) (D.faults disk.new) result }
{
    if !is_open(disk, file, checkpoint())? {
        return Ok(None);
    }
    let mut number = [0; 8];
    // An open file has all eight.
    disk.read(file, PLACE, &mut number)?;
    Ok(Some(BigEndian::read_u64(&number)))
}
