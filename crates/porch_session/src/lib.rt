//! Sessions over a folder. So far only what a run is limited to.
//!
//! `limits` has the limits; `specs/Limits` says which values are allowed.
#![tactic(auto)]

pub mod limits;

pub use limits::Limits;
