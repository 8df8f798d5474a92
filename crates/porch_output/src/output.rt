//! The output file of a disk.
ghost use Rattle.std.specs.Prelude.{◌≢◌, ◌<◌, ◌≤◌, ◌^◌, length, true};

use crate::buffer::take_front;
use arrayvec::ArrayVec;
use porch_edge::{Disk, Failed, FileName};

/// The output file, with a buffer of 4,096 bytes behind it. After a call that failed it is spent.
#[derive(Drop)]
pub struct Output {
    // The length of the file in bytes.
    written: u64,
    // What waits to be written behind it.
    buffer: ArrayVec<u8, 4096>,
    // Whether a call has failed.
    spent: bool,
    ghost short: { written ≤ 2 ^ 62 },
    ghost room: { spent ≢ true → length buffer.items < 4096 },
}

impl Output {
    ghost use Rattle.std.specs.Prelude.{◌≡◌, ℕ, List, [], ◌+◌, ◌++◌, ◌<◌, ◌≤◌, ◌↔◌, length, take, IsTrue, IfOk, OnOk, OnErr};
    ghost use Rattle.porch_edge.specs.declared.disk.FileName.TheVariants.{Output as OutputFile};
    ghost use Rattle.porch_edge.specs.Causes.{HasCause};
    ghost use Rattle.porch_edge.specs.Disk.{DiskState, Moment, WhereTold, BothTell, IsSettled, OnlyLooks, HasNow};
    ghost use Rattle.porch_output.specs.Outputs.{waiting, text_of, length_of, IsSpent, IsReady, LeavesBeginning, KeepsBeginning, BeginsSince};

    /// Syncs the file, and begins behind its end. `Failed` only where the disk failed.
    pub fn attach<D: Disk>(disk: &mut D) -> Result<Output, Failed>
        ensures ready { IfOk result (λ output. IsReady output (D.state disk.new)) }
        ensures empty { IfOk result (λ output. waiting output ≡ []) }
        ensures usable { IfOk result (λ output. ¬ IsSpent output) }
        ensures stable { OnOk result (IsSettled (D.state disk.new) OutputFile) }
        ensures begins { OnOk result
            (WhereTold (D.state disk.new)
            (λ fs. BeginsSince fs.output (D.state disk.new).moment (D.state disk.new))) }
        ensures looks { OnlyLooks (D.state disk.old) (D.state disk.new) }
        ensures cause { HasCause (D.faults disk.old) (D.faults disk.new) result }
    {
        let file = FileName::Output;
        disk.sync(file)?;
        let written = disk.len(file)?;
        Ok(Output {
            written,
            buffer: ArrayVec::new(),
            spent: false,
        })
    }

    /// How many bytes there are, those that wait among them.
    pub fn len(&self) -> u64
        ensures { result ≡ length_of self.now }
    {
        self.written + self.buffer.len() as u64
    }

    /// Whether a call has failed. The output is of no use then: attach one anew.
    pub fn is_spent(&self) -> bool
        ensures { IsTrue result ↔ IsSpent self.now }
    {
        self.spent
    }

    /// Adds bytes. They are written as soon as the buffer is full. `Failed` only where the disk failed.
    pub fn put<D: Disk>(&mut self, disk: &mut D, bytes: &[u8]) -> Result<(), Failed>
        requires usable { ¬ IsSpent self.old }
        requires ready { IsReady self.old (D.state disk.old) }
        ensures text { OnOk result
            (BothTell (D.state disk.old).files (D.state disk.new).files
            (λ fs gs. text_of self.new gs ≡ text_of self.old fs ++ bytes.now)) }
        ensures length { OnOk result (length_of self.new ≡ length_of self.old + length bytes.now) }
        ensures ready { OnOk result (IsReady self.new (D.state disk.new)) }
        ensures usable { OnOk result (¬ IsSpent self.new) }
        ensures spent { OnErr result (IsSpent self.new) }
        ensures keeps { (kept : List ℕ) → LeavesBeginning kept (D.state disk.old)
            → KeepsBeginning kept (D.state disk.old) (D.state disk.new) }
        ensures since { (kept : List ℕ) (mark : Moment)
            → WhereTold (D.state disk.old) (λ _. BeginsSince kept mark (D.state disk.old))
            → WhereTold (D.state disk.new) (λ _. BeginsSince kept mark (D.state disk.new)) }
        ensures cause { HasCause (D.faults disk.old) (D.faults disk.new) result }
    {
        let mut taken = 0;
        while taken < bytes.len() {
            taken += self.put_some(disk, &bytes[taken..])?;
        }
        Ok(())
    }

    // Adds as many bytes as fit, at least one, and writes the buffer where it is full. It answers how many.
    fn put_some<D: Disk>(&mut self, disk: &mut D, bytes: &[u8]) -> Result<usize, Failed>
        requires usable { ¬ IsSpent self.old }
        requires ready { IsReady self.old (D.state disk.old) }
        requires some { 0 < length bytes.now }
        ensures some { IfOk result (λ count. 0 < count) }
        ensures within { IfOk result (λ count. count ≤ length bytes.now) }
        ensures text { IfOk result
            (λ count. BothTell (D.state disk.old).files (D.state disk.new).files
            (λ fs gs. text_of self.new gs ≡ text_of self.old fs ++ take count bytes.now)) }
        ensures length { IfOk result (λ count. length_of self.new ≡ length_of self.old + count) }
        ensures ready { OnOk result (IsReady self.new (D.state disk.new)) }
        ensures usable { OnOk result (¬ IsSpent self.new) }
        ensures spent { OnErr result (IsSpent self.new) }
        ensures keeps { (start : D) (kept : List ℕ)
            → KeepsBeginning kept (D.state start) (D.state disk.old)
            → KeepsBeginning kept (D.state start) (D.state disk.new) }
        ensures cause { HasCause (D.faults disk.old) (D.faults disk.new) result }
    {
        self.spent = true;
        let count = take_front(&mut self.buffer, bytes);
        if self.buffer.is_full() {
            self.write_out(disk)?;
        }
        self.spent = false;
        Ok(count)
    }

    // Writes what waits behind the end of the file, and nothing where nothing waits.
    fn write_out<D: Disk>(&mut self, disk: &mut D) -> Result<(), Failed>
        requires ready { IsReady self.old (D.state disk.old) }
        ensures written { OnOk result
            (BothTell (D.state disk.old).files (D.state disk.new).files
            (λ fs gs. gs.output ≡ fs.output ++ waiting self.old)) }
        ensures length { OnOk result (length_of self.new ≡ length_of self.old) }
        ensures empty { OnOk result (waiting self.new ≡ []) }
        ensures ready { OnOk result (IsReady self.new (D.state disk.new)) }
        ensures usable { OnOk result (¬ IsSpent self.new) }
        ensures spent { OnErr result (IsSpent self.new) }
        ensures keeps { (start : D) (kept : List ℕ)
            → KeepsBeginning kept (D.state start) (D.state disk.old)
            → KeepsBeginning kept (D.state start) (D.state disk.new) }
        ensures cause { HasCause (D.faults disk.old) (D.faults disk.new) result }
    {
        if self.buffer.is_empty() {
            self.spent = false;
            return Ok(());
        }
        self.spent = true;
        disk.write_at(FileName::Output, self.written, self.buffer.as_slice())?;
        self.written += self.buffer.len() as u64;
        self.buffer.clear();
        self.spent = false;
        Ok(())
    }

    /// Writes what waits, and syncs the file. `Failed` only where the disk failed.
    pub fn flush<D: Disk>(&mut self, disk: &mut D) -> Result<(), Failed>
        requires usable { ¬ IsSpent self.old }
        requires ready { IsReady self.old (D.state disk.old) }
        ensures text { OnOk result
            (BothTell (D.state disk.old).files (D.state disk.new).files
            (λ fs gs. gs.output ≡ text_of self.old fs)) }
        ensures length { OnOk result (length_of self.new ≡ length_of self.old) }
        ensures empty { OnOk result (waiting self.new ≡ []) }
        ensures stable { OnOk result (IsSettled (D.state disk.new) OutputFile) }
        ensures begins { OnOk result
            (WhereTold (D.state disk.new)
            (λ fs. BeginsSince fs.output (D.state disk.new).moment (D.state disk.new))) }
        ensures ready { OnOk result (IsReady self.new (D.state disk.new)) }
        ensures usable { OnOk result (¬ IsSpent self.new) }
        ensures spent { OnErr result (IsSpent self.new) }
        ensures keeps { (kept : List ℕ) → LeavesBeginning kept (D.state disk.old)
            → KeepsBeginning kept (D.state disk.old) (D.state disk.new) }
        ensures since { (kept : List ℕ) (mark : Moment)
            → WhereTold (D.state disk.old) (λ _. BeginsSince kept mark (D.state disk.old))
            → WhereTold (D.state disk.new) (λ _. BeginsSince kept mark (D.state disk.new)) }
        ensures cause { HasCause (D.faults disk.old) (D.faults disk.new) result }
    {
        self.write_out(disk)?;
        self.spent = true;
        disk.sync(FileName::Output)?;
        self.spent = false;
        Ok(())
    }

    /// Cuts the file to a length in bytes, and syncs it. `Failed` only where the disk failed.
    pub fn cut_back<D: Disk>(&mut self, disk: &mut D, to: u64) -> Result<(), Failed>
        requires usable { ¬ IsSpent self.old }
        requires ready { IsReady self.old (D.state disk.old) }
        requires empty { waiting self.old ≡ [] }
        requires within { to ≤ length_of self.old }
        ensures text { OnOk result
            (HasNow (D.state disk.old) (D.state disk.new) OutputFile (take to)) }
        ensures length { OnOk result (length_of self.new ≡ to) }
        ensures empty { OnOk result (waiting self.new ≡ []) }
        ensures stable { OnOk result (IsSettled (D.state disk.new) OutputFile) }
        ensures begins { OnOk result
            (WhereTold (D.state disk.new)
            (λ fs. BeginsSince fs.output (D.state disk.new).moment (D.state disk.new))) }
        ensures ready { OnOk result (IsReady self.new (D.state disk.new)) }
        ensures usable { OnOk result (¬ IsSpent self.new) }
        ensures spent { OnErr result (IsSpent self.new) }
        ensures keeps { (kept : List ℕ) → LeavesBeginning kept (D.state disk.old)
            → KeepsBeginning (take to kept) (D.state disk.old) (D.state disk.new) }
        ensures since { (kept : List ℕ) (mark : Moment)
            → WhereTold (D.state disk.old) (λ _. BeginsSince kept mark (D.state disk.old))
            → WhereTold (D.state disk.new)
            (λ _. BeginsSince (take to kept) mark (D.state disk.new)) }
        ensures cause { HasCause (D.faults disk.old) (D.faults disk.new) result }
    {
        let file = FileName::Output;
        self.spent = true;
        disk.cut(file, to)?;
        disk.sync(file)?;
        self.written = to;
        self.spent = false;
        Ok(())
    }
}
