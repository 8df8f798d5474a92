//! The byte machine for every command of the flat text: a program over memory under a layout.
//!
//! Start at `specs/Column`, which says what each command does to memory. `specs/Memory` says where objects lie,
//! `specs/Leaf` how the bytes of a leaf are a number, `specs/State` what runs, and `specs/ByteRun` what a run
//! is; `specs/Worked` has programs that are worked out under several layouts. `specs/Fits` says what holds of a
//! machine in itself, and `specs/StandsFor` when its memory stands for a state of the flat abstract machine.
//!
//! In code stand numbers in memory (`leaf.rt`, by shape in `shape.rt`), which bytes may be used (`access.rt`), and
//! texts (`bytes.rt`). No command of `porch` uses this crate yet; `exec` runs the machine of `porch_machine`.
#![tactic(auto)]

pub mod access;
pub mod bytes;
mod laws;
pub mod leaf;
pub mod shape;
pub mod worked;

pub use laws::{numbers_are_read_back, other_bytes_stay, runs_have_one_end};
