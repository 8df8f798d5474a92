//! The disk: six files that keep what was written, and what a crash may leave of them.

use crate::Failed;

/// No file is longer, in bytes.
pub(crate) const LONGEST: u64 = 1 << 62;

/// The files of a folder.
#[derive(Clone, Copy, Debug, PartialEq, Eq)]
pub enum FileName {
    /// The flat text of the program.
    Program,
    /// What the program has written.
    Output,
    /// One of the two checkpoints.
    CkA,
    /// The other one.
    CkB,
    /// The layouts that the user adds.
    Layouts,
    /// What the program reads.
    Input,
}

impl FileName {
    ghost use Rattle.std.specs.Prelude.{◌≡◌};
    ghost use Rattle.porch_edge.specs.Names.{file_name};

    /// Its name in a folder.
    pub fn name(self) -> &'static str
        ensures { result.now ≡ file_name self }
    {
        match self {
            FileName::Program => "program.ft.c",
            FileName::Output => "output",
            FileName::CkA => "ck.a",
            FileName::CkB => "ck.b",
            FileName::Layouts => "layouts.toml",
            FileName::Input => "input",
        }
    }
}

/// Six files under clocks of moments, which all go on by one with each call. A missing file has length 0, and no file is longer than 2^62 bytes.
pub trait Disk {
    ghost use Rattle.std.specs.Prelude.{◌≡◌, ℕ, ◌+◌, ◌^◌, ◌<◌, ◌≤◌, length, IfOk, OnOk};
    ghost use Rattle.porch_edge.specs.Causes.{HasCause};
    ghost use Rattle.porch_edge.specs.Files.{Files, IsWithin};
    ghost use Rattle.porch_edge.specs.Disk.{DiskState, Moment, IsBy, since, WhereTold, LenStep, ReadStep, WriteStep, CutStep, SyncStep};

    /// What the disk tells of its files, and of the crashes that it may have.
    ghost state: { Self → DiskState };

    /// How often the disk has failed.
    ghost faults: { Self → ℕ };

    /// The length of a file in bytes. `Failed` for a file that is longer than 2^62 bytes.
    fn len(&mut self, file: FileName) -> Result<u64, Failed>
        ensures within { IfOk result (λ n. n ≤ 2 ^ 62) }
        ensures step { LenStep (state self.old) (state self.new) file result }
        ensures cause { HasCause (faults self.old) (faults self.new) result };

    /// Reads from a place on, as much as stands there and the buffer takes, and answers how many bytes.
    fn read(&mut self, file: FileName, at: u64, buf: &mut [u8]) -> Result<usize, Failed>
        ensures bound { IfOk result (λ n. n ≤ length buf.new) }
        ensures within { IfOk result (λ n. 0 < n → at + n ≤ 2 ^ 62) }
        ensures step { ReadStep (state self.old) (state self.new) file at buf.old buf.new result }
        ensures cause { HasCause (faults self.old) (faults self.new) result };

    /// Writes over what stands at a place, and past the end. Zeros stand between the old end and a later place.
    /// Until a sync, a crash may leave any bytes there. `Failed` without effect where it would pass 2^62 bytes.
    fn write_at(&mut self, file: FileName, at: u64, bytes: &[u8]) -> Result<(), Failed>
        ensures within { OnOk result (at + length bytes.now ≤ 2 ^ 62) }
        ensures step { WriteStep (state self.old) (state self.new) file at bytes.now result }
        ensures cause { HasCause (faults self.old) (faults self.new) result };

    /// Cuts a file to a length in bytes; to a greater length it changes nothing. `Failed` past 2^62 bytes.
    fn cut(&mut self, file: FileName, len: u64) -> Result<(), Failed>
        ensures within { OnOk result (len ≤ 2 ^ 62) }
        ensures step { CutStep (state self.old) (state self.new) file len result }
        ensures cause { HasCause (faults self.old) (faults self.new) result };

    /// At `Ok` a crash leaves what a read of this file gives.
    fn sync(&mut self, file: FileName) -> Result<(), Failed>
        ensures step { SyncStep (state self.old) (state self.new) file result }
        ensures cause { HasCause (faults self.old) (faults self.new) result };

    /// The disk as it reads is one of those that a crash may leave.
    ghost reads_leave: { (d : Self) → WhereTold (state d) (λ fs. (state d).leaves fs) };

    /// What a crash may leave now is what one at this moment may leave.
    ghost counts_now: { (d : Self) → WhereTold (state d) (λ _. (c : Files) → (state d).leaves c → (state d).at (state d).moment c) };

    /// Since this moment there is no other.
    ghost only_now: { (d : Self) → WhereTold (state d) (λ _. (c : Files) → since (state d) (state d).moment c → (state d).leaves c) };

    /// No moment behind this one is passed.
    ghost up_to_now: { (d : Self) → WhereTold (state d) (λ _. (m : Moment) (c : Files) → (state d).at m c → IsBy m (state d).moment) };

    /// No file is longer than 2^62 bytes.
    ghost is_within: { (d : Self) → WhereTold (state d) IsWithin };
}
