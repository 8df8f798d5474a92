//! The current folder as a disk.
ghost use Rattle.std.specs.Prelude.{◌≡◌, ◌≤◌, ◌<◌, ◌+◌, ◌^◌, IfOk, OnOk, length};
ghost use Rattle.porch_edge.specs.Causes.{HasCause, faults_after};
ghost use Rattle.porch_edge.specs.Disk.{untold};
ghost use Rattle.porch_edge.specs.Folder.{FailsIfLost, StayLost, lost_after, lost_files, no_lost};

mod files;
mod lost;

use crate::answer::{answer, refuse};
use crate::disk::LONGEST;
use crate::{Disk, Failed, FileName};
use files::Folder;
use lost::LostFiles;
use std::fs::File;
use std::rt::Runtime;

/// The files of the current folder: `program.ft.c`, `output`, `ck.a`, `ck.b`, `layouts.toml` and `input`.
/// It tells nothing of their content. Only plain files count, and from its first sync, write or cut on no other disk can
/// make one in this folder. Once a sync of a file has failed, each call on that file fails.
#[derive(Drop)]
pub struct DirDisk<R: Runtime<File = File>> {
    folder: Folder<R>,
    // How many calls have failed, up to its last value.
    faults: u64,
    lost: LostFiles,
}

impl<R: Runtime<File = File>> DirDisk<R> {
    /// The files of the folder that the program runs in. Nothing is opened yet.
    pub fn new(rt: R) -> DirDisk<R>
        ensures faults { ⟦<DirDisk<R> as Disk>⟧.faults result ≡ 0 }
        ensures lost { lost_files result ≡ no_lost }
    {
        DirDisk {
            folder: Folder::new(rt),
            faults: 0,
            lost: LostFiles::none(),
        }
    }
}

impl<R: Runtime<File = File>> Disk for DirDisk<R> {
    ghost state = { λ _. untold };

    ghost faults = { λ d. d.faults };

    fn len(&mut self, file: FileName) -> Result<u64, Failed>
        ensures within { IfOk result (λ n. n ≤ 2 ^ 62) }
        ensures lost { FailsIfLost (lost_files self.old) file result }
        ensures same_lost { lost_files self.new ≡ lost_files self.old }
        ensures cause { HasCause self.old.faults self.new.faults result }
        ensures counted { self.new.faults ≡ faults_after self.old.faults result }
    {
        if self.lost.has(file) {
            return refuse(&mut self.faults);
        }
        match self.folder.length(file) {
            Ok(len) if len <= LONGEST => Ok(len),
            _ => refuse(&mut self.faults),
        }
    }

    fn read(&mut self, file: FileName, at: u64, buf: &mut [u8]) -> Result<usize, Failed>
        ensures bound { IfOk result (λ n. n ≤ length buf.new) }
        ensures within { IfOk result (λ n. 0 < n → at + n ≤ 2 ^ 62) }
        ensures lost { FailsIfLost (lost_files self.old) file result }
        ensures same_lost { lost_files self.new ≡ lost_files self.old }
        ensures cause { HasCause self.old.faults self.new.faults result }
        ensures counted { self.new.faults ≡ faults_after self.old.faults result }
    {
        if self.lost.has(file) {
            return refuse(&mut self.faults);
        }
        let most = within(at, buf.len());
        if most == 0 {
            return Ok(0);
        }
        let given = self.folder.read(file, at, &mut buf[..most]);
        answer(&mut self.faults, given)
    }

    fn write_at(&mut self, file: FileName, at: u64, bytes: &[u8]) -> Result<(), Failed>
        ensures within { OnOk result (at + length bytes.now ≤ 2 ^ 62) }
        ensures lost { FailsIfLost (lost_files self.old) file result }
        ensures same_lost { lost_files self.new ≡ lost_files self.old }
        ensures cause { HasCause self.old.faults self.new.faults result }
        ensures counted { self.new.faults ≡ faults_after self.old.faults result }
    {
        if self.lost.has(file) || at > LONGEST || within(at, bytes.len()) < bytes.len() {
            return refuse(&mut self.faults);
        }
        if bytes.is_empty() {
            return Ok(());
        }
        let given = self.folder.write(file, at, bytes);
        answer(&mut self.faults, given)
    }

    fn cut(&mut self, file: FileName, len: u64) -> Result<(), Failed>
        ensures within { OnOk result (len ≤ 2 ^ 62) }
        ensures lost { FailsIfLost (lost_files self.old) file result }
        ensures same_lost { lost_files self.new ≡ lost_files self.old }
        ensures cause { HasCause self.old.faults self.new.faults result }
        ensures counted { self.new.faults ≡ faults_after self.old.faults result }
    {
        if self.lost.has(file) || len > LONGEST {
            return refuse(&mut self.faults);
        }
        let given = self.folder.cut(file, len);
        answer(&mut self.faults, given)
    }

    fn sync(&mut self, file: FileName) -> Result<(), Failed>
        ensures lost { FailsIfLost (lost_files self.old) file result }
        ensures now_lost { lost_files self.new ≡ lost_after (lost_files self.old) file result }
        ensures stay_lost { StayLost (lost_files self.old) (lost_files self.new) }
        ensures cause { HasCause self.old.faults self.new.faults result }
        ensures counted { self.new.faults ≡ faults_after self.old.faults result }
    {
        if !self.lost.has(file) && self.folder.sync(file).is_ok() {
            return Ok(());
        }
        self.lost.add(file);
        refuse(&mut self.faults)
    }

    ghost reads_leave = { λ d. tt };

    ghost counts_now = { λ d. tt };

    ghost only_now = { λ d. tt };

    ghost up_to_now = { λ d. tt };

    ghost is_within = { λ d. tt };
}

// How many of these bytes from this place on lie below 2^62.
fn within(at: u64, count: usize) -> usize
    ensures fewer { result ≤ count }
    ensures below { 0 < result → at + result ≤ 2 ^ 62 }
{
    let room = LONGEST.saturating_sub(at);
    if count as u64 <= room {
        count
    } else {
        room as usize
    }
}
