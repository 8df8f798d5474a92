//! Frames of the byte machine: a call's arguments go from the caller's frame to the parameters of the new one.
//!
//! Start at [`enter_frame`]. `specs/Passing` says what it does to memory, and how that is the call of the column of
//! `porch_bytes`.
#![tactic(auto)]

mod frame;
mod laws;
mod passing;

pub use frame::enter_frame;
pub use laws::arguments_are_passed;
pub use passing::Passing;
