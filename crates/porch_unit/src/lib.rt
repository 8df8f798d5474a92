//! From the tokens of a text to its tree, as a definition.
//!
//! `specs/Units` builds a tree one token after another, with a stack of frames for the statements, blocks
//! and functions that are still to be ended; expressions and declarations are read by the builders of
//! porch_parts and porch_declarations. `laws` says that the run over the tokens of each unit reaches it.
//! `lead` has what words are where a statement can stand. No code reads by the definition yet.
#![tactic(auto)]

mod laws;
mod lead;

pub use laws::each_unit_is_built;
pub use lead::{Lead, lead_at};
