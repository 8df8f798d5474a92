//! Blocks of which tokens were read: how statements end in them, and what a declaration does there.
//!
//! `build` says what a frame and the statement in it are, `ended` which frames end with it, `continued` what a
//! token does in front of which a statement has ended, and `declared` what a token of a declaration does in
//! a block. What a token does is said, as a definition, by porch_unit.
#![tactic(auto)]

mod build;
mod continued;
mod declared;
mod ended;

pub use continued::read_ended;
pub use declared::{read_declaration, read_first};
