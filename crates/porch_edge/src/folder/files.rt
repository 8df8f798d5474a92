//! The current folder, and its files, each open in one descriptor.
ghost use Rattle.std.specs.Prelude.{◌≤◌, ◌+◌, ◌^◌, IfOk, length};

use crate::FileName;
use std::fs::{self, File, Metadata, OpenOptions};
use std::io;
use std::io::{Seek, SeekFrom};
use std::os::unix::fs::{FileExt, MetadataExt};
use std::rt::Runtime;

/// The current folder under the lock of one session. A file that was found once stays open, so that what was written
/// and its sync go through one descriptor: only that one is sure to be told of a write that failed on the device.
#[derive(Drop)]
pub struct Folder<R: Runtime<File = File>> {
    rt: R,
    // The folder itself, under the lock. None before the first sync, write or cut.
    locked: Option<File>,
    names: Names,
    program: Option<Kept>,
    output: Option<Kept>,
    ck_a: Option<Kept>,
    ck_b: Option<Kept>,
    layouts: Option<Kept>,
    input: Option<Kept>,
}

// A file that is open, and what the system tells it from others by.
#[derive(Drop)]
struct Kept {
    there: File,
    device: u64,
    inode: u64,
    // When a name in the folder had changed last, as its name was looked at.
    looked_at: Option<(i64, i64)>,
}

// Whether the names of the files are on the device.
#[derive(Clone, Copy)]
enum Names {
    Pending,
    Synced,
    // A sync of the folder has failed.
    Lost,
}

impl<R: Runtime<File = File>> Folder<R> {
    /// The folder that the program runs in. Nothing is opened yet.
    pub fn new(rt: R) -> Folder<R> {
        Folder {
            rt,
            locked: None,
            names: Names::Pending,
            program: None,
            output: None,
            ck_a: None,
            ck_b: None,
            layouts: None,
            input: None,
        }
    }

    /// The length of a file in bytes.
    pub fn length(&mut self, file: FileName) -> io::Result<u64> {
        self.find(file)?;
        match self.kept(file) {
            Some(kept) => length_of(&kept.there),
            None => Ok(0),
        }
    }

    /// Reads until the buffer is full or the file is at its end.
    pub fn read(&mut self, file: FileName, at: u64, buf: &mut [u8]) -> io::Result<usize>
        requires { at + length buf.old ≤ 2 ^ 62 }
        ensures { IfOk result (λ n. n ≤ length buf.new) }
    {
        self.find(file)?;
        match self.kept(file) {
            Some(kept) => fill(&kept.there, at, buf),
            None => Ok(0),
        }
    }

    /// Writes all the bytes, into a new file where there is none.
    pub fn write(&mut self, file: FileName, at: u64, bytes: &[u8]) -> io::Result<()> {
        self.lock()?;
        self.find(file)?;
        if self.kept(file).is_none() {
            self.create(file)?;
        }
        match self.kept(file) {
            Some(kept) => kept.there.write_all_at(bytes, at),
            None => Err(io::Error::from(io::ErrorKind::NotFound)),
        }
    }

    /// Cuts a file that is longer.
    pub fn cut(&mut self, file: FileName, len: u64) -> io::Result<()> {
        self.lock()?;
        self.find(file)?;
        match self.kept(file) {
            Some(kept) if length_of(&kept.there)? > len => kept.there.set_len(len),
            _ => Ok(()),
        }
    }

    /// Waits until the device has the file, and its name: a name that is new is the folder's to keep. Fails where the file
    /// was removed or replaced since it was opened.
    pub fn sync(&mut self, file: FileName) -> io::Result<()> {
        self.lock()?;
        self.find(file)?;
        if let Some(kept) = self.kept(file) {
            kept.there.sync_all()?;
        }
        self.check_name(file)?;
        self.sync_names()
    }

    // Takes the lock of the folder, which one disk has at a time. It ends with this value, or with the process.
    fn lock(&mut self) -> io::Result<()> {
        if self.locked.is_none() {
            let folder = OpenOptions::new().read(true).open(&self.rt, ".")?;
            folder.try_lock()?;
            self.locked = Some(folder);
        }
        Ok(())
    }

    // Opens a file that is there and not open yet.
    fn find(&mut self, file: FileName) -> io::Result<()> {
        if self.kept(file).is_none()
            && let Some(found) = self.found(file)?
        {
            let there = self.opened(file)?;
            self.keep(file, there, &found);
        }
        Ok(())
    }

    // The plain file that stands there, if any. All else fails: to open a pipe could take for ever, and a folder has a
    // length.
    fn found(&self, file: FileName) -> io::Result<Option<Metadata>> {
        match fs::metadata(&self.rt, file.name()) {
            Ok(found) if found.is_file() => Ok(Some(found)),
            Ok(_) => Err(io::Error::from(io::ErrorKind::InvalidInput)),
            Err(e) if e.kind() == io::ErrorKind::NotFound => Ok(None),
            Err(e) => Err(e),
        }
    }

    // Fails where the name no longer leads to the open file: one that was removed or replaced lasts for nobody. It looks only
    // where a name in the folder has changed since it looked last: who asks for a file's times makes its next sync dearer.
    fn check_name(&mut self, file: FileName) -> io::Result<()> {
        let changed = self.last_change()?;
        self.look_at_name(file, changed)?;
        if let Some(kept) = self.place(file) {
            kept.looked_at = changed;
        }
        Ok(())
    }

    fn look_at_name(&self, file: FileName, changed: Option<(i64, i64)>) -> io::Result<()> {
        let Some(kept) = self.kept(file) else {
            return Ok(());
        };
        if kept.looked_at == changed {
            return Ok(());
        }
        let named = fs::metadata(&self.rt, file.name())?;
        if named.ino() == kept.inode && named.dev() == kept.device {
            Ok(())
        } else {
            Err(io::Error::from(io::ErrorKind::NotFound))
        }
    }

    // When a name in the folder has changed last, in seconds and nanoseconds.
    fn last_change(&self) -> io::Result<Option<(i64, i64)>> {
        match &self.locked {
            Some(folder) => {
                let found = folder.metadata()?;
                Ok(Some((found.mtime(), found.mtime_nsec())))
            }
            None => Ok(None),
        }
    }

    // The file, to be read and written, or to be read alone where the system gives no leave to write.
    fn opened(&self, file: FileName) -> io::Result<File> {
        let mut how = OpenOptions::new();
        how.read(true).write(true);
        match how.open(&self.rt, file.name()) {
            Ok(there) => Ok(there),
            Err(_) => how.write(false).open(&self.rt, file.name()),
        }
    }

    // Makes a missing file. A link that leads nowhere isn't followed: the name of its file would be for another folder to
    // keep, which no sync reaches.
    fn create(&mut self, file: FileName) -> io::Result<()> {
        if matches!(self.names, Names::Synced) {
            self.names = Names::Pending;
        }
        let there = OpenOptions::new()
            .read(true)
            .write(true)
            .create_new(true)
            .open(&self.rt, file.name())?;
        let made = there.metadata()?;
        self.keep(file, there, &made);
        Ok(())
    }

    // Syncs the folder where a name in it may not be on the device yet, and never again after that has failed.
    fn sync_names(&mut self) -> io::Result<()> {
        match (self.names, &self.locked) {
            (Names::Synced, _) => Ok(()),
            (Names::Pending, Some(folder)) => {
                self.names = Names::Lost;
                folder.sync_all()?;
                self.names = Names::Synced;
                Ok(())
            }
            _ => Err(io::Error::from(io::ErrorKind::Other)),
        }
    }

    fn kept(&self, file: FileName) -> Option<&Kept> {
        match file {
            FileName::Program => self.program.as_ref(),
            FileName::Output => self.output.as_ref(),
            FileName::CkA => self.ck_a.as_ref(),
            FileName::CkB => self.ck_b.as_ref(),
            FileName::Layouts => self.layouts.as_ref(),
            FileName::Input => self.input.as_ref(),
        }
    }

    fn place(&mut self, file: FileName) -> &mut Option<Kept> {
        match file {
            FileName::Program => &mut self.program,
            FileName::Output => &mut self.output,
            FileName::CkA => &mut self.ck_a,
            FileName::CkB => &mut self.ck_b,
            FileName::Layouts => &mut self.layouts,
            FileName::Input => &mut self.input,
        }
    }

    fn keep(&mut self, file: FileName, there: File, found: &Metadata) {
        *self.place(file) = Some(Kept {
            there,
            device: found.dev(),
            inode: found.ino(),
            looked_at: None,
        });
    }
}

// The place of the file's end. It asks for no times, as `metadata` does.
fn length_of(there: &File) -> io::Result<u64> {
    let mut end = there;
    end.seek(SeekFrom::End(0))
}

// Reads until the buffer is full or the file is at its end.
fn fill(file: &File, at: u64, buf: &mut [u8]) -> io::Result<usize>
    requires { at + length buf.old ≤ 2 ^ 62 }
    ensures { IfOk result (λ n. n ≤ length buf.new) }
{
    let mut filled = 0;
    while filled < buf.len() {
        let count = file.read_at(&mut buf[filled..], at + filled as u64)?;
        if count == 0 {
            break;
        }
        filled += count;
    }
    Ok(filled)
}
