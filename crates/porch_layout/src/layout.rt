//! A layout, and the six that have names.

ghost use Rattle.std.specs.Prelude.{◌≡◌, IfSome};
ghost use Rattle.porch_layout.specs.Layouts.{IsLayout, layout, built_in_of};

/// How the memory of a program is laid out. A char has 1 byte, a short 2, an int 4.
///
/// Every layout that this crate gives is one that may be used: `IsLayout` says which those are.
#[derive(Clone, Copy, Debug, PartialEq, Eq)]
pub struct Layout {
    /// Whether the most significant byte of a number comes first.
    pub big: bool,
    /// Bytes of a `long`: 4 or 8.
    pub long: u8,
    /// Bytes of a pointer: 4 or 8.
    pub pointer: u8,
    /// Alignment of a `short` in bytes: 1 or 2.
    pub align_short: u8,
    /// Alignment of an `int` in bytes: 1, 2 or 4.
    pub align_int: u8,
    /// Alignment of a `long` in bytes: a power of two of at most its size.
    pub align_long: u8,
    /// Alignment of a pointer in bytes: a power of two of at most its size.
    pub align_pointer: u8,
    /// The least alignment of a struct in bytes: 1, 2, 4 or 8.
    pub least_struct: u8,
}

/// The layout that has this name without a layouts file, one of `le32`, `be32`, `le64`, `be64`,
/// `be32p` and `le32l`. It takes no memory.
pub fn built_in(name: &str) -> Option<Layout>
    ensures layout { result ≡ built_in_of name.now }
    ensures allowed { IfSome result IsLayout }
{
    match name {
        "le32" => Some(with_long(false, 4)),
        "be32" => Some(with_long(true, 4)),
        "le64" => Some(with_long(false, 8)),
        "be64" => Some(with_long(true, 8)),
        "be32p" => Some(packed(true, 2)),
        "le32l" => Some(packed(false, 1)),
        _ => None,
    }
}

// A layout whose integers and pointers are aligned at their sizes, with pointers as long as `long`.
fn with_long(big: bool, long: u8) -> Layout
    ensures { result ≡ layout big long long 2 4 long long 1 }
{
    Layout {
        big,
        long,
        pointer: long,
        align_short: 2,
        align_int: 4,
        align_long: long,
        align_pointer: long,
        least_struct: 1,
    }
}

// A layout of 32 bits with one alignment for all but char.
fn packed(big: bool, align: u8) -> Layout
    ensures { result ≡ layout big 4 4 align align align align 1 }
{
    Layout {
        big,
        long: 4,
        pointer: 4,
        align_short: align,
        align_int: align,
        align_long: align,
        align_pointer: align,
        least_struct: 1,
    }
}
