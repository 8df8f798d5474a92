//! The types that declarators make: what stands round a declared name, from the name outward, and the type
//! of a name that has these parts round it, by the rules of porch_check, with the first one that is broken.
//! Stands on porch_names. `part.rt` has the parts, `types.rt` the types that they make. Start at
//! `type_of_parts`.
#![tactic(auto)]

mod bases;
mod part;
mod types;

pub use bases::kind_of;
pub use part::{Part, count_from, put_stars};
pub use types::{type_of_name, type_of_parts};
