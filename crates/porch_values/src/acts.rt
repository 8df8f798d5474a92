//! Acts that C leaves undefined, and operators.
/// An act that C leaves undefined, or whose result depends on the width of `long`.
#[derive(Clone, Copy, Debug, PartialEq, Eq)]
pub enum Act {
    /// The result is outside the range of its kind.
    Overflow,
    /// The result isn't the same in each width of `long`.
    Narrow,
    /// A divisor is 0.
    Divide,
    /// A shift's count is negative, or not below the bits of what is shifted.
    Shift,
    /// A value that was never given is read, or a pointer to an object that has ended.
    Indeterminate,
    /// A place is reached through null, or one past the end of a row.
    Access,
    /// Pointer arithmetic leaves its row and the row's end.
    Row,
    /// Pointers into different rows are ordered or subtracted.
    Relation,
    /// A pointer one past a row is compared with one to what may stand right there.
    Compare,
    /// What is freed is no block.
    Free,
    /// The number of objects asked for is below 1 or above 2147483647.
    Count,
    /// The byte machine alone: an access has a byte outside the globals, the used stack and the heap,
    /// or isn't aligned; or a sum of addresses is below 0 or past the memory's end. The address of a
    /// block that was freed is none of these.
    Address,
}

/// An operator with two integer operands.
#[derive(Clone, Copy, Debug, PartialEq, Eq)]
pub enum Op {
    Add,
    Sub,
    Mul,
    Div,
    Rem,
    And,
    Or,
    Xor,
    Shl,
    Shr,
}
