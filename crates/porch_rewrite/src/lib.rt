//! Rewriting: a program is made to save and rebuild its frames, and means what it meant.
//!
//! `specs/Rewriting` says what is made of a program, `laws.rt` what is proved of it. [`rewrite`] makes it.
#![tactic(auto)]

mod functions;
pub mod laws;
pub mod worked;

pub use functions::{has_room, rewrite};
