//! Reads the source.

ghost use Rattle.std.specs.Prelude.{◌≡◌, ◌≤◌, ◌^◌, ◌+◌, length, OnOk, []};
ghost use Rattle.porch_edge.specs.Causes.{Rose};
ghost use Rattle.porch_cli.specs.Answers.{HasRead};
ghost use Rattle.porch_cli.specs.inside.Parts.{HasReadCause};

use porch_edge::Source;

/// The bytes that a source may have.
const LIMIT: usize = 1_048_576;

/// The bytes that are asked for at once.
const PIECE: usize = 4_096;

/// Why the source wasn't read.
#[derive(Clone, Copy, Debug, PartialEq, Eq)]
pub enum ReadStop {
    ReadFault,
    NoMemory,
}

/// Reads a source to its end, or past the limit.
pub fn read_source<S: Source>(source: &mut S, text: &mut Vec<u8>) -> Result<(), ReadStop>
    requires { text.old.items ≡ [] }
    ensures read { OnOk result (HasRead (S.left source.old) (S.left source.new) text.new.items) }
    ensures cause { HasReadCause (S.faults source.old) (S.faults source.new) result }
    ensures short { length text.new.items ≤ 2 ^ 20 + 4096 }
{
    let mut piece = [0u8; PIECE];
    while text.len() <= LIMIT {
        match source.read(&mut piece) {
            Ok(count) => {
                if count == 0 {
                    return Ok(());
                }
                if text.extend_from_slice(&piece[..count]).is_err() {
                    return Err(ReadStop::NoMemory);
                }
            }
            Err(_) => return Err(ReadStop::ReadFault),
        }
    }
    Ok(())
}
