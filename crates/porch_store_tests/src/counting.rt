//! A device that keeps nothing and counts.
ghost use Rattle.porch_edge.specs.Disk.{untold};

use porch_edge::{Disk, Failed, FileName};

/// A device that keeps nothing and counts.
#[derive(Drop)]
pub struct Counting {
    /// How often it was written to.
    pub writes: u64,
    /// How often it was synced.
    pub syncs: u64,
}

impl Counting {
    /// One that nothing was done to yet.
    pub fn new() -> Counting {
        Counting {
            writes: 0,
            syncs: 0,
        }
    }
}

impl Disk for Counting {
    ghost state = { λ _. untold };

    // It may have failed as often as can be counted.
    ghost faults = { λ _. 18446744073709551615 };

    fn len(&mut self, _: FileName) -> Result<u64, Failed> {
        Ok(0)
    }

    fn read(&mut self, _: FileName, _: u64, _: &mut [u8]) -> Result<usize, Failed> {
        Ok(0)
    }

    fn write_at(&mut self, _: FileName, at: u64, bytes: &[u8]) -> Result<(), Failed> {
        if at > 1 << 61 || bytes.len() > 1 << 61 {
            return Err(Failed);
        }
        self.writes = self.writes.saturating_add(1);
        Ok(())
    }

    fn cut(&mut self, _: FileName, len: u64) -> Result<(), Failed> {
        if len > 1 << 61 { Err(Failed) } else { Ok(()) }
    }

    fn sync(&mut self, _: FileName) -> Result<(), Failed> {
        self.syncs = self.syncs.saturating_add(1);
        Ok(())
    }

    ghost reads_leave = { λ _. tt };

    ghost counts_now = { λ _. tt };

    ghost only_now = { λ _. tt };

    ghost up_to_now = { λ _. tt };

    ghost is_within = { λ _. tt };
}
