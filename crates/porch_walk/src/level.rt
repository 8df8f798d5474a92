//! What is kept of the uses of the grammar while a text is read.

/// A part that may still come: the counted uses of the grammar in which it lies, and the token from which on
/// a use counts that only this part shows.
#[derive(Clone, Copy, Debug)]
pub struct Level {
    pub uses: u32,
    pub start: u32,
}

/// Where a part that may come behind a token lies.
#[derive(Clone, Copy, Debug)]
pub enum Step {
    /// So many uses deeper than the part that takes the token. It begins with this token or later.
    Up(u32),
    /// At the level of that part.
    Keep,
}

/// A token that a part takes: how many uses deeper than the part it lies, and whether it puts what is before
/// it one use deeper.
#[derive(Clone, Copy, Debug)]
pub struct Taken {
    pub uses: u32,
    pub raises: bool,
}

/// A token that was read: the counted uses that it lies in by then, and how many tokens before it turn out to
/// lie one use deeper.
#[derive(Clone, Copy, Debug)]
pub struct Reading {
    pub uses: u32,
    pub back: u32,
}
