//! A block, and why a request or a return is refused.
/// A live block: its type's number, how many values of that type it holds, and where its bytes lie.
#[derive(Clone, Copy, Debug, PartialEq, Eq)]
pub struct Block {
    /// The address of its first byte.
    pub at: u64,
    /// The number of the type of its values.
    pub ty: u32,
    /// How many values it holds, at least 1.
    pub count: u32,
    /// How many bytes it has, at least 1.
    pub bytes: u64,
}

/// A request that found no place, or came when 65,536 blocks were live.
#[derive(Clone, Copy, Debug, PartialEq, Eq)]
pub struct HeapFull {
    /// The bytes asked for.
    pub asked: u64,
    /// The length of the longest run of free bytes. A block and the byte kept free behind it need one
    /// byte more than was asked for.
    pub largest: u64,
    /// How many blocks are live.
    pub blocks: u32,
}

/// No live block begins at the address.
#[derive(Clone, Copy, Debug, PartialEq, Eq)]
pub struct NotABlock;
