//! A disk in memory that tells nothing of its files, reads little at once, and may say a wrong length.
ghost use Rattle.porch_edge.specs.Disk.{untold};

use porch_edge::{Disk, Failed, FileName, MemDisk};

/// A disk that tells nothing.
#[derive(Drop)]
pub struct Quiet {
    /// The one that has the files.
    pub disk: MemDisk,
    /// How many bytes it reads at once, at most.
    pub at_once: usize,
    /// The length that it says of each file, where it isn't the file's own.
    pub said: Option<u16>,
    /// How many bytes of a file its reads asked for, from the first one on.
    pub furthest: u64,
}

impl Quiet {
    /// One that reads all at once and says true lengths.
    pub fn over(disk: MemDisk) -> Quiet {
        Quiet {
            disk,
            at_once: 4096,
            said: None,
            furthest: 0,
        }
    }
}

impl Disk for Quiet {
    ghost state = { λ _. untold };

    // It may have failed as often as can be counted.
    ghost faults = { λ _. 18446744073709551615 };

    fn len(&mut self, file: FileName) -> Result<u64, Failed> {
        match self.said {
            Some(len) => Ok(u64::from(len)),
            None => self.disk.len(file),
        }
    }

    fn read(&mut self, file: FileName, at: u64, buf: &mut [u8]) -> Result<usize, Failed> {
        self.furthest = self.furthest.max(at.saturating_add(buf.len() as u64));
        let most = buf.len().min(self.at_once);
        self.disk.read(file, at, &mut buf[..most])
    }

    fn write_at(&mut self, file: FileName, at: u64, bytes: &[u8]) -> Result<(), Failed> {
        self.disk.write_at(file, at, bytes)
    }

    fn cut(&mut self, file: FileName, len: u64) -> Result<(), Failed> {
        self.disk.cut(file, len)
    }

    fn sync(&mut self, file: FileName) -> Result<(), Failed> {
        self.disk.sync(file)
    }

    ghost reads_leave = { λ _. tt };

    ghost counts_now = { λ _. tt };

    ghost only_now = { λ _. tt };

    ghost up_to_now = { λ _. tt };

    ghost is_within = { λ _. tt };
}
