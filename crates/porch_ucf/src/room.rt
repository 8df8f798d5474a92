//! Bytes that are put last where there is room for them, so that no memory is taken.

ghost use Rattle.std.specs.Prelude.{◌≡◌, ◌≤◌, ◌+◌, ◌++◌, length, vec_capacity};
ghost use Rattle.byteorder.specs.Endian.{big_bytes};

use byteorder::{BigEndian, ByteOrder};

/// Puts bytes last.
pub(crate) fn put(into: &mut Vec<u8>, bytes: &[u8])
    requires { length into.old.items + length bytes.now ≤ vec_capacity into.old }
    ensures items { into.new.items ≡ into.old.items ++ bytes.now }
    ensures room { vec_capacity into.old ≤ vec_capacity into.new }
{
    let _ = into.extend_from_slice(bytes);
}

/// Puts a number of 32 bits last.
pub(crate) fn put_u32(into: &mut Vec<u8>, number: u32)
    requires { length into.old.items + 4 ≤ vec_capacity into.old }
    ensures items { into.new.items ≡ into.old.items ++ big_bytes 4 number }
    ensures length { length into.new.items ≡ length into.old.items + 4 }
    ensures room { vec_capacity into.old ≤ vec_capacity into.new }
{
    let mut bytes = [0; 4];
    BigEndian::write_u32(&mut bytes, number);
    put(into, &bytes);
}

/// Puts a number of 64 bits last.
pub(crate) fn put_u64(into: &mut Vec<u8>, number: u64)
    requires { length into.old.items + 8 ≤ vec_capacity into.old }
    ensures items { into.new.items ≡ into.old.items ++ big_bytes 8 number }
    ensures length { length into.new.items ≡ length into.old.items + 8 }
    ensures room { vec_capacity into.old ≤ vec_capacity into.new }
{
    let mut bytes = [0; 8];
    BigEndian::write_u64(&mut bytes, number);
    put(into, &bytes);
}
