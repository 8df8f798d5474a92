//! Two checkpoint files, of which the newest survives every crash.
//!
//! It stands on `porch_gate`. A commit takes the file that isn't the newest, closes it, fills it and opens it, at once or
//! piece by piece. `store` is the place to start, `number` reads what a file is numbered, `load` reads a file. Which file
//! is the newest is said in `specs/Checkpoints.antt`, what a crash leaves of a commit in `specs/Taken.antt`, and what a
//! store knows in `specs/Stores.antt`; what of that stays over calls on other files is said in `laws`.
#![tactic(auto)]

mod laws;
mod load;
mod newest;
mod number;
mod settle;
mod stage;
mod store;

pub use laws::store_stays;
pub use load::{LoadFault, load_file, load_front};
pub use newest::Newest;
pub use number::{CHECKPOINT_LEAST, CHECKPOINT_LETTER, checkpoint};
pub use store::{Ack, Store};
