//! Where everything lies in the byte machine's memory: globals, the stack, the variables of frames, the heap.
//!
//! Start at [`place_objects`], which places objects one after the other, and [`memory_map`], which has the parts of
//! memory. The definitions are those of `porch_bytes/specs/Memory`; [`function_scope`] has what the commands of a
//! function are resolved with.
#![tactic(auto)]

mod laws;
mod map;
mod objects;
mod scope;
mod values;

pub use laws::values_are_of_globals;
pub use map::memory_map;
pub use objects::{Placed, place_objects, types_of_globals};
pub use scope::{frame_bytes, function_scope};
pub use values::{Globals, write_globals};
