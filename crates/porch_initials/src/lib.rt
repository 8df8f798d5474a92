//! Initialisers, as far as they ask only of types: which part of an object the next item of braces is for,
//! where braces of inner parts may be left out as in C90, what a literal fills, and the type of an array
//! whose initialiser gives its count. Each call is its definition in porch_check. Stands on porch_scopes.
//! `opened.rt` has the elements of one aggregate, `next.rt` the way from one part to the next, `fills.rt`
//! literals, `counts.rt` types that get their count. Start at `next_part` and `go_down`.
#![tactic(auto)]

mod counts;
mod fills;
mod next;
mod opened;

pub use counts::counted_type;
pub use fills::{fits_in, is_char_array};
pub use next::{Element, go_down, next_part};
pub use opened::{Opened, is_aggregate};
