//! Numbers in memory, by the size of a leaf and whether it may be negative.

ghost use Rattle.std.specs.Prelude.{◌≡◌, ◌≤◌, ◌+◌, length, IsTrue};
ghost use Rattle.porch_bytes.specs.Leaf.{with_number};
ghost use Rattle.porch_bytes.specs.Shapes.{size_in, is_in_shape, number_in, with_number_in, kind_shape, signed_of, unsigned_of};

use crate::leaf::{
    read_i8, read_i16, read_i32, read_i64, read_u8, read_u16, read_u32, read_u64, write_u8,
    write_u16, write_u32, write_u64,
};
use porch_layout::Layout;
use porch_types::Kind;

/// The size of a leaf's number in bits, and whether it may be negative.
#[derive(Clone, Copy, Debug, PartialEq, Eq)]
pub enum Shape {
    I8,
    U8,
    I16,
    U16,
    I32,
    U32,
    I64,
    U64,
}

/// The bytes of a shape.
pub fn size_of_shape(shape: Shape) -> u64
    ensures { result ≡ size_in shape }
{
    match shape {
        Shape::I8 | Shape::U8 => 1,
        Shape::I16 | Shape::U16 => 2,
        Shape::I32 | Shape::U32 => 4,
        Shape::I64 | Shape::U64 => 8,
    }
}

/// The number at an address.
pub fn read_number(memory: &[u8], at: usize, shape: Shape, big: bool) -> i128
    requires { at + size_in shape ≤ length memory.now }
    ensures value { result ≡ number_in big shape memory.now at }
    ensures fits { IsTrue (is_in_shape shape result) }
{
    match shape {
        Shape::I8 => i128::from(read_i8(memory, at, big)),
        Shape::U8 => i128::from(read_u8(memory, at, big)),
        Shape::I16 => i128::from(read_i16(memory, at, big)),
        Shape::U16 => i128::from(read_u16(memory, at, big)),
        Shape::I32 => i128::from(read_i32(memory, at, big)),
        Shape::U32 => i128::from(read_u32(memory, at, big)),
        Shape::I64 => i128::from(read_i64(memory, at, big)),
        Shape::U64 => i128::from(read_u64(memory, at, big)),
    }
}

/// Puts the low bits of a number at an address.
#[tactic(auto, using(crate::proofs::Parts::length_with_number))]
pub fn write_number(memory: &mut [u8], at: usize, shape: Shape, big: bool, value: i128)
    requires { at + size_in shape ≤ length memory.old }
    ensures bytes { memory.new ≡ with_number_in big shape memory.old at value }
    ensures length { length memory.new ≡ length memory.old }
{
    match shape {
        Shape::I8 | Shape::U8 => write_low_8(memory, at, big, value),
        Shape::I16 | Shape::U16 => write_low_16(memory, at, big, value),
        Shape::I32 | Shape::U32 => write_low_32(memory, at, big, value),
        Shape::I64 | Shape::U64 => write_low_64(memory, at, big, value),
    }
}

/// The shape of a kind under a layout.
pub fn shape_of_kind(kind: Kind, under: &Layout) -> Shape
    ensures { result ≡ kind_shape under.now kind }
{
    match kind {
        Kind::Char => Shape::I8,
        Kind::UChar => Shape::U8,
        Kind::Short => Shape::I16,
        Kind::UShort => Shape::U16,
        Kind::Int => Shape::I32,
        Kind::UInt => Shape::U32,
        Kind::Long => signed_shape(under.long),
        Kind::ULong => unsigned_shape(under.long),
    }
}

/// The shape of a pointer under a layout.
pub fn shape_of_pointer(under: &Layout) -> Shape
    ensures { result ≡ unsigned_of under.now.pointer }
{
    unsigned_shape(under.pointer)
}

fn signed_shape(size: u8) -> Shape
    ensures { result ≡ signed_of size }
{
    if size == 4 { Shape::I32 } else { Shape::I64 }
}

fn unsigned_shape(size: u8) -> Shape
    ensures { result ≡ unsigned_of size }
{
    if size == 4 { Shape::U32 } else { Shape::U64 }
}

fn write_low_8(memory: &mut [u8], at: usize, big: bool, value: i128)
    requires { at + 1 ≤ length memory.old }
    ensures { memory.new ≡ with_number big 1 memory.old at value }
{
    let low = value.rem_euclid(256) as u8;
    write_u8(memory, at, big, low);
}

fn write_low_16(memory: &mut [u8], at: usize, big: bool, value: i128)
    requires { at + 2 ≤ length memory.old }
    ensures { memory.new ≡ with_number big 2 memory.old at value }
{
    let low = value.rem_euclid(65536) as u16;
    write_u16(memory, at, big, low);
}

fn write_low_32(memory: &mut [u8], at: usize, big: bool, value: i128)
    requires { at + 4 ≤ length memory.old }
    ensures { memory.new ≡ with_number big 4 memory.old at value }
{
    let low = value.rem_euclid(4294967296) as u32;
    write_u32(memory, at, big, low);
}

fn write_low_64(memory: &mut [u8], at: usize, big: bool, value: i128)
    requires { at + 8 ≤ length memory.old }
    ensures { memory.new ≡ with_number big 8 memory.old at value }
{
    let low = value.rem_euclid(18446744073709551616) as u64;
    write_u64(memory, at, big, low);
}
