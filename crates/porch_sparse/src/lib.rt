//! Lists of so many values that they are kept only where they were written. It stands on no other crate.
//!
//! Start at [`Sparse`]. `places` has what is kept of a value: where it was written, and what stands elsewhere.
#![tactic(auto)]

mod places;
mod sparse;

pub use sparse::Sparse;
