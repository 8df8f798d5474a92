//! Statements of which tokens were read, as a stack of frames.
//!
//! `frame` has what is still to be ended, statements, blocks and functions, and what stands in front of the
//! next token; `frames` is the stack. `statement` says what a token does where a statement may stand, `value`
//! what it does in an expression, `given` what an expression is given to when it has ended, `closing` how a
//! block ends, and `made` what statements are made of. What a token does is said, as a definition, by porch_unit.
#![tactic(auto)]

mod closing;
mod frame;
mod frames;
mod given;
mod made;
mod statement;
mod value;

pub use frame::{Builder, Frame, Point, Purpose};
pub use frames::{drop_frame, let_go, nest, pop_frame, push_filled, push_frame};
pub use given::{add_default, give};
pub use statement::read_statement;
pub use value::{read_begun, read_value};
