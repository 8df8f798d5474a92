//! From the tokens of a text to its tree.
//!
//! `reading` reads the tokens of a text, one after another. `item` says what a token does between items, `step`
//! joins this with what it does in statements and in blocks, which porch_statements and porch_blocks have, and
//! `typedef` has the typedef names. What a token does is said, as a definition, by porch_unit.
#![tactic(auto)]

mod item;
mod reading;
mod step;
mod typedef;

pub use reading::unit;
pub use step::read_token;
