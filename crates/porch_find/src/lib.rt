//! From a byte of an object to the subobject that begins or ends there, and from an address to the
//! object that holds it. It stands on `porch_types`, `porch_layout` and `porch_metrics`. Start at
//! `find`; what is true of each layout and each list of types is said by the laws, which are
//! functions without a body.
#![tactic(auto)]

mod ends;
mod forms;
mod laws;
mod leaf;
mod roots;
mod search;
mod spot;
mod worked;

pub use ends::ends_row;
pub use laws::{places_name_spots, subobjects_end_inside};
pub use roots::{Root, Roots};
pub use search::{find, find_ucf};
pub use spot::Spot;
pub use worked::{ends_of_members, worked_types_are_types};
