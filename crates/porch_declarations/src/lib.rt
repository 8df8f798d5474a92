//! From tokens to declarations, with their initialisers, or to the head of a function.
//!
//! `declaration` reads the tokens of a declaration, one after another. `stage` has what stands in front of
//! the next token, `initial` what initialisers are made of, `entry` how declarators end, and `step` what a
//! token does. `specs/Declarations` is the same as a definition over the tokens, and `laws` says that the run
//! over the tokens of a declaration, or of a function's head, reaches it.
#![tactic(auto)]

mod entry;
mod initial;
mod laws;
mod reading;
mod stage;
mod step;

pub use laws::{declarations_are_built, declarations_pass, heads_pass};
pub use reading::declaration;
pub use stage::{Brace, Declarer, Stage};
pub use step::read_token;
