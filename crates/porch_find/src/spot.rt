//! What a pointer into an object points to.

/// The subobject that begins at leaf `leaf` of an object, or, where `past` holds, its end.
#[derive(Clone, Copy, Debug, PartialEq, Eq)]
pub struct Spot {
    pub leaf: u64,
    pub past: bool,
}
