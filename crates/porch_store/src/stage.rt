//! How far a store is with a checkpoint.

/// A store begins a checkpoint at rest, appends to it and finishes it while it fills, and does nothing once it is spent.
#[derive(Clone, Copy, Debug, PartialEq, Eq)]
pub(crate) enum Stage {
    /// It may begin one.
    Idle,
    /// It has begun one, and not finished it.
    Filling,
    /// A call has failed.
    Spent,
}
