//! The buffer that is filled before it is written.
ghost use Rattle.std.specs.Prelude.{◌≡◌, ◌-◌, ◌++◌, length, take, min};

use arrayvec::ArrayVec;

/// Adds the first bytes, as many as fit, and answers how many.
pub(crate) fn take_front(buffer: &mut ArrayVec<u8, 4096>, bytes: &[u8]) -> usize
    ensures count { result ≡ min (length bytes.now) (4096 - length buffer.old.items) }
    ensures items { buffer.new.items ≡ buffer.old.items ++ take result bytes.now }
{
    let count = bytes.len().min(buffer.remaining_capacity());
    let _ = buffer.try_extend_from_slice(&bytes[..count]);
    count
}
