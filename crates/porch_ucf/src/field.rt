//! Numbers at a place of a text.

ghost use Rattle.std.specs.Prelude.{◌≡◌, ◌+◌, ◌≤◌, drop, take, length};
ghost use Rattle.byteorder.specs.Endian.{big_bytes};
ghost use Rattle.porch_ucf.specs.Fields.{u32_in, u64_in};

use byteorder::{BigEndian, ByteOrder};

/// The number of 32 bits at a place.
pub(crate) fn read_u32(text: &[u8], place: usize) -> u32
    requires { place + 4 ≤ length text.now }
    ensures { result ≡ u32_in text.now place }
{
    BigEndian::read_u32(&text[place..])
}

/// The number of 64 bits at a place.
pub(crate) fn read_u64(text: &[u8], place: usize) -> u64
    requires { place + 8 ≤ length text.now }
    ensures { result ≡ u64_in text.now place }
{
    BigEndian::read_u64(&text[place..])
}

/// The 32 bytes at a place.
pub(crate) fn read_digest(text: &[u8], place: usize) -> [u8; 32]
    requires { place + 32 ≤ length text.now }
    ensures { result ≡ take 32 (drop place text.now) }
{
    let mut digest = [0; 32];
    digest.copy_from_slice(&text[place..place + 32]);
    digest
}
