//! The two checkpoint files of a disk, of which the newest counts.
ghost use Rattle.std.specs.Prelude.{◌^◌, ◌≤◌};

use crate::newest::{Newest, older, rank};
use crate::number::{checkpoint, open_number};
use crate::settle::settle;
use crate::stage::Stage;
use porch_edge::{Disk, Failed, FileName};
use porch_gate::{close, open_gate, seal, write_behind};

/// A checkpoint that every later crash leaves, until the next one counts.
#[derive(Clone, Copy, Debug, PartialEq, Eq)]
pub struct Ack {
    /// The file that it is in.
    pub file: FileName,
    /// Its number.
    pub number: u64,
}

/// The checkpoint files of a disk. A checkpoint is committed at once, by `commit`, or piece by piece: by `begin`, any
/// number of times `append`, and `finish`. After a call that failed the store is spent.
#[derive(Debug, Drop)]
pub struct Store {
    newest: Newest,
    // The number of the newest, or of both where they tie.
    number: Option<u64>,
    stage: Stage,
    // The number of the checkpoint that was begun.
    begun: u64,
    // How many bytes were appended to it.
    appended: u64,
    ghost short: { appended ≤ 2 ^ 62 },
}

impl Store {
    ghost use Rattle.std.specs.Prelude.{◌≡◌, ◌≢◌, ℕ, List, [], ◌+◌, ◌++◌, ◌≤◌, ◌↔◌, length, IsTrue, IfOk, OnOk, OnErr};
    ghost use Rattle.porch_edge.specs.Causes.{HasCause};
    ghost use Rattle.porch_edge.specs.Files.{Files};
    ghost use Rattle.porch_edge.specs.Disk.{WhereTold, OnlyLooks, TouchesOnly, HasNow};
    ghost use Rattle.porch_store.specs.Checkpoints.{number_of, whole_file};
    ghost use Rattle.porch_store.specs.Taken.{older_of, OldOrShut, OldClosedOrWhole, IsNew, KeepsOld, KeepsOldOrNew, OnlyShuts};
    ghost use Rattle.porch_store.specs.Stores.{newest_known, number_known, IsIdle, IsFilling, IsSpent, IsReady, IsBelow, MayFill, number_begun, length_appended, appended, HasAppended};

    /// Syncs both checkpoint files and looks which is the newest. `Failed` only where the disk failed.
    pub fn attach<D: Disk>(disk: &mut D) -> Result<Store, Failed>
        ensures ready { IfOk result (λ store. IsReady store (D.state disk.new)) }
        ensures usable { IfOk result (λ store. IsIdle store) }
        ensures looks { OnlyLooks (D.state disk.old) (D.state disk.new) }
        ensures cause { HasCause (D.faults disk.old) (D.faults disk.new) result }
    {
        settle(disk)?;
        let first = open_number(disk, FileName::CkA)?;
        let second = open_number(disk, FileName::CkB)?;
        let (newest, number) = rank(first, second);
        Ok(Store::resting(newest, number))
    }

    /// A store to begin with: syncs both checkpoint files and closes them, so that none is the newest. At each moment
    /// each of them has its old bytes or is closed. `Failed` only where the disk failed.
    pub fn start<D: Disk>(disk: &mut D) -> Result<Store, Failed>
        ensures ready { IfOk result (λ store. IsReady store (D.state disk.new)) }
        ensures none { IfOk result (λ store. newest_known store ≡ Newest.Neither) }
        ensures no_number { IfOk result (λ store. number_known store ≡ None) }
        ensures usable { IfOk result (λ store. IsIdle store) }
        ensures moments { OnlyShuts (D.state disk.old) (D.state disk.new) }
        ensures cause { HasCause (D.faults disk.old) (D.faults disk.new) result }
    {
        let gate = checkpoint();
        settle(disk)?;
        close(disk, FileName::CkA, gate)?;
        close(disk, FileName::CkB, gate)?;
        Ok(Store::resting(Newest::Neither, None))
    }

    /// Puts a checkpoint into the file that isn't the newest, CkA where none is open: closes the file, fills it and opens
    /// it. `bytes` is the checkpoint without its first byte. At each moment the newest file is the old one with its old
    /// bytes, or the new one, whole. `Failed` only where the disk failed; the store is spent then.
    pub fn commit<D: Disk>(
        &mut self,
        disk: &mut D,
        bytes: &[u8],
        number: u64,
    ) -> Result<Ack, Failed>
        requires usable { IsIdle self.old }
        requires ready { IsReady self.old (D.state disk.old) }
        requires no_tie { newest_known self.old ≢ Newest.Tie }
        requires greater { WhereTold (D.state disk.old)
            (λ _. IsBelow (number_known self.old) number) }
        requires long { 127 ≤ length bytes.now }
        requires numbered { number_of (whole_file bytes.now) ≡ number }
        ensures acknowledged { IfOk result
            (λ ack. ack ≡ record { file = older_of (newest_known self.old); number = number }) }
        ensures known { OnOk result
            (newest_known self.new ≡ Newest.One (older_of (newest_known self.old))) }
        ensures numbered { OnOk result (number_known self.new ≡ Some number) }
        ensures ready { OnOk result (IsReady self.new (D.state disk.new)) }
        ensures usable { OnOk result (IsIdle self.new) }
        ensures spent { OnErr result (IsSpent self.new) }
        ensures now { OnOk result
            (HasNow (D.state disk.old) (D.state disk.new)
            (older_of (newest_known self.old)) (λ _. whole_file bytes.now)) }
        ensures newest { OnOk result
            (WhereTold (D.state disk.new)
            (λ _. (c : Files) → (D.state disk.new).leaves c
            → IsNew (older_of (newest_known self.old)) bytes.now c)) }
        ensures one_file { TouchesOnly (D.state disk.old) (D.state disk.new)
            (older_of (newest_known self.old)) (OldClosedOrWhole bytes.now) }
        ensures moments { KeepsOldOrNew (newest_known self.old) bytes.now
            (D.state disk.old) (D.state disk.new) }
        ensures cause { HasCause (D.faults disk.old) (D.faults disk.new) result }
    {
        self.begin(disk, number)?;
        self.append(disk, bytes)?;
        self.finish(disk)
    }

    /// Begins a checkpoint with this number: closes the file that isn't the newest, CkA where none is open. At each
    /// moment the newest is the old one with its old bytes. `Failed` only where the disk failed; the store is spent then.
    pub fn begin<D: Disk>(&mut self, disk: &mut D, number: u64) -> Result<(), Failed>
        requires usable { IsIdle self.old }
        requires ready { IsReady self.old (D.state disk.old) }
        requires no_tie { newest_known self.old ≢ Newest.Tie }
        requires greater { WhereTold (D.state disk.old)
            (λ _. IsBelow (number_known self.old) number) }
        ensures known { newest_known self.new ≡ newest_known self.old }
        ensures begun { OnOk result (number_begun self.new ≡ number) }
        ensures none { OnOk result (length_appended self.new ≡ 0) }
        ensures appended { OnOk result (HasAppended self.new [] (D.state disk.new)) }
        ensures filling { OnOk result (IsFilling self.new) }
        ensures ready { OnOk result (MayFill self.new (D.state disk.new)) }
        ensures spent { OnErr result (IsSpent self.new) }
        ensures one_file { TouchesOnly (D.state disk.old) (D.state disk.new)
            (older_of (newest_known self.old)) OldOrShut }
        ensures moments { KeepsOld (newest_known self.old) (D.state disk.old) (D.state disk.new) }
        ensures cause { HasCause (D.faults disk.old) (D.faults disk.new) result }
    {
        let file = older(self.newest);
        let gate = checkpoint();
        self.stage = Stage::Spent;
        close(disk, file, gate)?;
        self.begun = number;
        self.appended = 0;
        self.stage = Stage::Filling;
        Ok(())
    }

    /// Appends a piece to the checkpoint that was begun, from its second byte on, in one call on the disk. At each moment
    /// the newest is the one that it was at `begin`, with its old bytes. `Failed` only where the disk failed; the store
    /// is spent then.
    pub fn append<D: Disk>(&mut self, disk: &mut D, piece: &[u8]) -> Result<(), Failed>
        requires filling { IsFilling self.old }
        requires ready { MayFill self.old (D.state disk.old) }
        ensures known { newest_known self.new ≡ newest_known self.old }
        ensures begun { OnOk result (number_begun self.new ≡ number_begun self.old) }
        ensures longer { OnOk result
            (length_appended self.new ≡ length_appended self.old + length piece.now) }
        ensures appended { OnOk result
            ((bytes : List ℕ) → HasAppended self.old bytes (D.state disk.old)
            → HasAppended self.new (bytes ++ piece.now) (D.state disk.new)) }
        ensures filling { OnOk result (IsFilling self.new) }
        ensures ready { OnOk result (MayFill self.new (D.state disk.new)) }
        ensures spent { OnErr result (IsSpent self.new) }
        ensures one_file { (start : D)
            → TouchesOnly (D.state start) (D.state disk.old)
            (older_of (newest_known self.old)) OldOrShut
            → TouchesOnly (D.state start) (D.state disk.new)
            (older_of (newest_known self.old)) OldOrShut }
        ensures moments { (start : D)
            → KeepsOld (newest_known self.old) (D.state start) (D.state disk.old)
            → KeepsOld (newest_known self.old) (D.state start) (D.state disk.new) }
        ensures cause { HasCause (D.faults disk.old) (D.faults disk.new) result }
    {
        let file = older(self.newest);
        self.stage = Stage::Spent;
        write_behind(disk, file, 1 + self.appended, piece)?;
        self.appended += piece.len() as u64;
        self.stage = Stage::Filling;
        Ok(())
    }

    /// Finishes the checkpoint that was begun: cuts the file behind what was appended, syncs it and opens it. What was
    /// appended has the checkpoint's number at its place 15. At each moment since `begin` the newest file is the old one
    /// with its old bytes, or the new one, whole. `Failed` only where the disk failed; the store is spent then.
    pub fn finish<D: Disk>(&mut self, disk: &mut D) -> Result<Ack, Failed>
        requires filling { IsFilling self.old }
        requires ready { MayFill self.old (D.state disk.old) }
        requires long { 127 ≤ length_appended self.old }
        requires numbered { WhereTold (D.state disk.old)
            (λ fs. number_of (whole_file (appended self.old fs)) ≡ number_begun self.old) }
        ensures acknowledged { IfOk result
            (λ ack. ack ≡ record {
              file = older_of (newest_known self.old);
              number = number_begun self.old;
            }) }
        ensures known { OnOk result
            (newest_known self.new ≡ Newest.One (older_of (newest_known self.old))) }
        ensures numbered { OnOk result (number_known self.new ≡ Some (number_begun self.old)) }
        ensures ready { OnOk result (IsReady self.new (D.state disk.new)) }
        ensures usable { OnOk result (IsIdle self.new) }
        ensures spent { OnErr result (IsSpent self.new) }
        ensures now { OnOk result
            ((bytes : List ℕ) → HasAppended self.old bytes (D.state disk.old)
            → HasNow (D.state disk.old) (D.state disk.new)
            (older_of (newest_known self.old)) (λ _. whole_file bytes)) }
        ensures newest { OnOk result
            ((bytes : List ℕ) → HasAppended self.old bytes (D.state disk.old)
            → WhereTold (D.state disk.new)
            (λ _. (c : Files) → (D.state disk.new).leaves c
            → IsNew (older_of (newest_known self.old)) bytes c)) }
        ensures one_file { (start : D) (bytes : List ℕ)
            → HasAppended self.old bytes (D.state disk.old)
            → TouchesOnly (D.state start) (D.state disk.old)
            (older_of (newest_known self.old)) OldOrShut
            → TouchesOnly (D.state start) (D.state disk.new)
            (older_of (newest_known self.old)) (OldClosedOrWhole bytes) }
        ensures moments { (start : D) (bytes : List ℕ)
            → HasAppended self.old bytes (D.state disk.old)
            → KeepsOld (newest_known self.old) (D.state start) (D.state disk.old)
            → KeepsOldOrNew (newest_known self.old) bytes (D.state start) (D.state disk.new) }
        ensures cause { HasCause (D.faults disk.old) (D.faults disk.new) result }
    {
        let file = older(self.newest);
        let gate = checkpoint();
        let number = self.begun;
        self.stage = Stage::Spent;
        seal(disk, file, 1 + self.appended)?;
        open_gate(disk, file, gate)?;
        *self = Store::resting(Newest::One { file }, Some(number));
        Ok(Ack { file, number })
    }

    /// Which file is the newest.
    pub fn newest(&self) -> Newest
        ensures { result ≡ newest_known self.now }
    {
        self.newest
    }

    /// The number of the newest file, or of both where they tie; none where no file is open.
    pub fn number(&self) -> Option<u64>
        ensures { result ≡ number_known self.now }
    {
        self.number
    }

    /// Whether it may begin a checkpoint: none was begun and not finished, and no call has failed.
    pub fn is_idle(&self) -> bool
        ensures { IsTrue result ↔ IsIdle self.now }
    {
        matches!(self.stage, Stage::Idle)
    }

    /// Whether a checkpoint was begun and not finished.
    pub fn is_filling(&self) -> bool
        ensures { IsTrue result ↔ IsFilling self.now }
    {
        matches!(self.stage, Stage::Filling)
    }

    /// How many bytes were appended to the checkpoint that was begun.
    pub fn appended(&self) -> u64
        ensures { result ≡ length_appended self.now }
    {
        self.appended
    }

    /// Whether a call has failed. The store is of no use then: attach one anew.
    pub fn is_spent(&self) -> bool
        ensures { IsTrue result ↔ IsSpent self.now }
    {
        matches!(self.stage, Stage::Spent)
    }

    // A store at rest.
    fn resting(newest: Newest, number: Option<u64>) -> Store
        ensures newest { newest_known result ≡ newest }
        ensures number { number_known result ≡ number }
        ensures usable { IsIdle result }
    {
        Store {
            newest,
            number,
            stage: Stage::Idle,
            begun: 0,
            appended: 0,
        }
    }
}
