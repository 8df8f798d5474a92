//! The first fault of a text by the grammar: too deep nesting, a token that can't come, or a token outside
//! the language. `first_fault` is the one call.
//!
//! How many uses each token is shown to lie in is porch_walk's `specs/Levels`, and `specs/Levels` here has the
//! first fault by it; `laws` has what holds of these uses, and `worked` what they are in some texts.
#![tactic(auto)]

mod along;
mod declarations;
mod expressions;
pub mod fault;
pub mod laws;
mod parts;
mod read;
mod statements;
mod sweep;
mod take;
pub mod worked;

pub use fault::{FaultyToken, GrammarFault, first_fault};
pub use porch_walk::{Level, Reading, Step, Taken};
