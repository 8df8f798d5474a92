//! Frames in code: the operation that comes next in a frame of a loaded program, and how calls make frames and returns
//! end them.
//!
//! Start at [`spot::Spot`]. `specs/Holding` says what state of `porch_bytes` a spot stands for, and what holds of it;
//! `specs/Answers` says what a step answers, and `specs/Doing` when the operation that comes next may be done.
#![tactic(auto)]

mod frames;
mod going;
mod laws;
pub mod next;
pub mod spot;
pub mod step;

pub use frames::{enter, enter_main, leave, leave_at_end, leave_by_return, returned_value};
pub use going::{count_turn, move_to};
pub use laws::{next_operations_may_be_done, operations_come_next, spots_may_be_moved};
pub use next::{next_operation, sort_of};
