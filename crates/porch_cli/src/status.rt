//! The answers of the top call.

ghost use Rattle.std.specs.Prelude.{◌≡◌};
ghost use Rattle.porch_cli.specs.Lines.{number_of};

use porch_layout::{LayoutKey, LayoutRule};
use porch_lex::Refusal;
use porch_values::Act;

/// How a command ended.
#[derive(Clone, Copy, Debug, PartialEq, Eq)]
pub enum Status {
    /// The program ended with a value after so many turns.
    Done { value: i32, turns: u64 },
    /// The words aren't a command that is built.
    Usage,
    /// The layout's name stands for none: this rule is broken at this key of the layouts file.
    BadLayout { key: LayoutKey, rule: LayoutRule },
    /// The source breaks a rule.
    Refused(Refusal),
    /// The source breaks no rule that is looked at, and isn't in the part of the language that runs yet, or nothing runs
    /// under the layout yet.
    Unbuilt,
    /// The run met what its machine can't go on from, as an undefined act of the program.
    Trap { act: Act, turns: u64 },
    /// A frame of `asked` bytes doesn't fit the stack, of which `left` bytes are left.
    StackFull { asked: u64, left: u64 },
    /// A further turn would begin, and the budget is used.
    Paused { turns: u64 },
    /// The source failed.
    ReadFault,
    /// A sink failed.
    WriteFault,
    /// The disk failed.
    DiskFault,
    /// Memory was refused.
    NoMemory,
}

/// The number that the process ends with.
pub fn number_of_status(status: Status) -> u8
    ensures { result ≡ number_of status }
{
    match status {
        Status::Done { .. } => 0,
        Status::Usage => 1,
        Status::Refused(_) | Status::Unbuilt => 2,
        Status::Trap { .. } => 3,
        Status::StackFull { .. } => 4,
        Status::Paused { .. } => 5,
        Status::BadLayout { .. } => 11,
        Status::ReadFault => 12,
        Status::WriteFault => 13,
        Status::DiskFault => 14,
        Status::NoMemory => 15,
    }
}
