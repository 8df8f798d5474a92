//! What lives in a run of the abstract machine: the globals, the variables of the calls that
//! haven't returned, and the allocations that weren't freed.
//!
//! Start at [`Store`]. Contracts see it as the store of `porch_objects`, and each call does what is
//! defined there. Only what lives is kept, but for freed allocations that are at most as many as
//! those that live; an object is found in the logarithm of what is kept.
//!
//! `store` has objects by name, calls and allocations, `pointers`, `positions` and `texts` what is
//! done through pointers. Below them stand `entries`, a list of calls or allocations by rising
//! number, and `roots`, what a list of types says of a root.
#![tactic(auto)]

mod comparisons;
mod edit;
mod entries;
mod entry;
mod leaves;
mod object;
mod places;
mod pointers;
mod positions;
mod roots;
mod store;
mod texts;
mod value;
mod zeros;

pub use object::{Object, Root, int_at, set_int_at};
pub use roots::leaves_of;
pub use store::Store;
pub use value::{Home, Value};
