//! What the typing rules look for in a tree before they go over it: the tags of structs that a scope
//! completes by a brace, wherever in it, and the names of the functions that have a body.
//!
//! The definitions are those of porch_check. Start at `unit_tags` and `bodies_of`; `tags.rt` has the
//! functions that call one another as the types of the tree lie in one another.
#![tactic(auto)]

mod bodies;
mod initials;
mod tags;
mod units;

pub use bodies::bodies_of;
pub use tags::parameter_tags;
pub use units::unit_tags;
