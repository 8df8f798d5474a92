//! The types of a program: a list of integers, pointers, arrays and structs, each made of earlier
//! ones, the leaves of each, and the rows in which their subobjects stand. Start at `Types`; what
//! its definitions come to is in `laws`.
#![tactic(auto)]

mod checks;
mod entries;
mod laws;
mod parts;
mod search;
mod shapes;
mod types;

pub use laws::{
    earlier_types_stay, kinds_come_first, leaf_types_go_by_parts, leaves_add_up,
    leaves_are_scalars, parts_hold_leaves, rows_are_found, rows_lie_inside, subobjects_nest,
};
pub use parts::{Part, Row};
pub use shapes::{INT, Kind, Members, Ty};
pub use types::{TypeFault, Types, subobjects_are_one};
