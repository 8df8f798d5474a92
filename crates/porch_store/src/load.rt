//! Reading a file whole.
ghost use Rattle.std.specs.Prelude.{◌≡◌, ◌+◌, ◌≤◌, length, take, IfOk, IsErrOf};
ghost use Rattle.porch_edge.specs.Causes.{HasCause, Rose};
ghost use Rattle.porch_edge.specs.Disk.{WhereTold, OnlyLooks};
ghost use Rattle.porch_edge.specs.Files.{file_of};
ghost use Rattle.porch_store.specs.declared.load.LoadFault.TheVariants.{Failed, NoMemory};

use porch_edge::{Disk, FileName};
use std::alloc::{AllocError, Global};
use thiserror::Error;

/// Why a file wasn't loaded.
#[derive(Clone, Copy, Debug, PartialEq, Eq, Error)]
pub enum LoadFault {
    /// The disk failed.
    #[error("the disk failed")]
    Failed,
    /// There was no memory for it.
    #[error("no memory")]
    NoMemory,
}

impl From<porch_edge::Failed> for LoadFault {
    ghost from_gives = { λ _ e. e ≡ Failed };

    fn from(_: porch_edge::Failed) -> Self {
        LoadFault::Failed
    }
}

impl From<AllocError> for LoadFault {
    ghost from_gives = { λ _ e. e ≡ NoMemory };

    fn from(_: AllocError) -> Self {
        LoadFault::NoMemory
    }
}

/// All bytes of a file, read up to the length that the disk says, or to its end where that comes first. `Failed` only
/// where the disk failed.
pub fn load_file<D: Disk>(alloc: Global, disk: &mut D, file: FileName) -> Result<Vec<u8>, LoadFault>
    ensures bytes { IfOk result
        (λ bytes. WhereTold (D.state disk.old) (λ fs. bytes.items ≡ file_of file fs)) }
    ensures looks { OnlyLooks (D.state disk.old) (D.state disk.new) }
    ensures later { D.faults disk.old ≤ D.faults disk.new }
    ensures failed { IsErrOf result LoadFault.Failed
        → Rose (D.faults disk.old) (D.faults disk.new) }
{
    let len = disk.len(file)?;
    load_some(alloc, disk, file, len)
}

/// The first bytes of a file, at most so many: what is behind them isn't read. `Failed` only where the disk failed.
pub fn load_front<D: Disk>(
    alloc: Global,
    disk: &mut D,
    file: FileName,
    most: u64,
) -> Result<Vec<u8>, LoadFault>
    ensures bytes { IfOk result
        (λ bytes. WhereTold (D.state disk.old) (λ fs. bytes.items ≡ take most (file_of file fs))) }
    ensures within { IfOk result (λ bytes. length bytes.items ≤ most) }
    ensures looks { OnlyLooks (D.state disk.old) (D.state disk.new) }
    ensures later { D.faults disk.old ≤ D.faults disk.new }
    ensures failed { IsErrOf result LoadFault.Failed
        → Rose (D.faults disk.old) (D.faults disk.new) }
{
    let len = disk.len(file)?;
    let count = most.min(len);
    load_some(alloc, disk, file, count)
}

// So many bytes from the beginning of a file that has as many, or up to its end where that comes first.
fn load_some<D: Disk>(
    alloc: Global,
    disk: &mut D,
    file: FileName,
    count: u64,
) -> Result<Vec<u8>, LoadFault>
    requires { WhereTold (D.state disk.old) (λ fs. count ≤ length (file_of file fs)) }
    ensures bytes { IfOk result
        (λ bytes. WhereTold (D.state disk.old) (λ fs. bytes.items ≡ take count (file_of file fs))) }
    ensures within { IfOk result (λ bytes. length bytes.items ≤ count) }
    ensures looks { OnlyLooks (D.state disk.old) (D.state disk.new) }
    ensures later { D.faults disk.old ≤ D.faults disk.new }
    ensures failed { IsErrOf result LoadFault.Failed
        → Rose (D.faults disk.old) (D.faults disk.new) }
{
    let mut bytes = vec![in alloc; 0; count as usize]?;
    let mut filled = 0;
    while filled < bytes.len() {
        let read = read_on(disk, file, filled, &mut bytes)?;
        if read == 0 {
            break;
        }
        filled += read;
    }
    bytes.truncate(filled);
    Ok(bytes)
}

// Reads behind what is filled already, and answers how many bytes.
fn read_on<D: Disk>(
    disk: &mut D,
    file: FileName,
    filled: usize,
    bytes: &mut [u8],
) -> Result<usize, porch_edge::Failed>
    requires { filled ≤ length bytes.old }
    ensures within { IfOk result (λ count. filled + count ≤ length bytes.new) }
    ensures read { IfOk result
        (λ count. WhereTold (D.state disk.old)
        (λ fs. length bytes.old ≤ length (file_of file fs)
        → take filled bytes.old ≡ take filled (file_of file fs)
        → bytes.new ≡ take (length bytes.old) (file_of file fs))) }
    ensures all { IfOk result
        (λ count. WhereTold (D.state disk.old)
        (λ fs. length bytes.old ≤ length (file_of file fs)
        → filled + count ≡ length bytes.old)) }
    ensures looks { OnlyLooks (D.state disk.old) (D.state disk.new) }
    ensures cause { HasCause (D.faults disk.old) (D.faults disk.new) result }
{
    disk.read(file, filled as u64, &mut bytes[filled..])
}
