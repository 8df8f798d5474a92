//! From the tokens of a text to its tree, or to the first fault of its grammar.
//!
//! `parse` is the one call. It looks for the first fault (porch_depth), and where there is none it reads the
//! tokens as the unit that they are (porch_items). `laws` says that a text has one answer. Start at
//! `specs/Answers`.
#![tactic(auto)]

pub mod laws;
mod reading;

pub use reading::parse;
