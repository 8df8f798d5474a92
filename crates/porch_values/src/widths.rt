//! The widths that `long` may have.
ghost use Rattle.std.specs.Prelude.{IsTrue, ◌||◌};

/// The sizes in bits that `long` may have, at least one: 32, 64 or both.
#[derive(Clone, Copy, Debug, PartialEq, Eq)]
pub struct Widths {
    /// Whether `long` may have 32 bits.
    pub narrow: bool,
    /// Whether `long` may have 64 bits.
    pub wide: bool,
    pub ghost some: { IsTrue (narrow || wide) },
}
