//! Pointers in a checkpoint: an address becomes a word that says where the thing that it points to
//! begins in the checkpoint's data, and a word becomes an address again. It stands on `porch_find`,
//! `porch_metrics`, `porch_layout` and `porch_types`. Start at `Plan`, `to_word` and `to_address`.
#![tactic(auto)]

mod addresses;
mod displacements;
mod named;
mod plan;
mod words;
mod worked;

pub use addresses::{BadWord, to_address};
pub use displacements::is_displacement;
pub use plan::{DEAD, Plan, dead_is_all_ones};
pub use words::to_word;
pub use worked::pointers_into_an_array;
