//! A type of a text while it is read: what the tables of the checker keep, and what its rules ask of
//! them.
//!
//! `shape.rt` has the type as the code has it. What it is in the definitions of `porch_check` says
//! `specs/Views`. No call takes memory.
#![tactic(auto)]

pub mod shape;

pub use shape::Shape;
