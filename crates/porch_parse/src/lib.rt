//! From tokens to the expression that they are, one token after another.
//!
//! A stack of frames has what is still to be ended, so that nothing recurses over a long text. `part`
//! says what a word is in an expression, `frame` has the frames and how they end, `phase` what stands
//! in front of the next token, and `step` what a token does. `specs/Building` is the same as a
//! definition over the tokens. The types in an expression are read elsewhere: the phase says where one
//! begins, and `name_type` goes on behind it.
#![tactic(auto)]

mod frame;
mod part;
mod phase;
mod reading;
mod step;

pub use frame::{Frame, Operand};
pub use part::{Part, Start};
pub use phase::Phase;
pub use reading::finish;
pub use step::{name_type, next};
