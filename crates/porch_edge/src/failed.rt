//! The answer of a call that failed.

/// A call on a handed-in object failed. The object's count of faults rose in that call.
#[derive(Clone, Copy, Debug, PartialEq, Eq)]
pub struct Failed;
