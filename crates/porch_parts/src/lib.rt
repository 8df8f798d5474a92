//! From tokens to expressions, types and declarators, which lie in one another.
//!
//! `expression` reads the tokens of an expression, one after another. `read_token` is one step, for expressions
//! and types that stand in a part of another kind: `found` begins them and says what has ended. `part` has what
//! is still to be ended in a type or a declarator and what stands in front of the next token, `ended` how parts
//! end, `step` what a token does, and `reader` goes from expressions to types and back. `specs/Types` and
//! `specs/Parts` are the same as definitions over the tokens, `specs/Ends` says where what stands elsewhere
//! begins and ends, and `laws` that the run over the tokens of an expression reaches it. `worked` has some small
//! ones.
#![tactic(auto)]

mod ended;
mod found;
mod laws;
mod part;
mod reader;
mod reading;
mod sign;
mod step;
mod types;
mod worked;

pub use found::{Found, begin_declared, begin_single, begin_typed, begin_whole, found_in};
pub use laws::{
    bases_end, bases_start, declarators_end, expressions_are_built, plains_start,
    single_expressions_end, typed_declarators_end, whole_expressions_end,
};
pub use part::{Declaring, Form, Front, Part, Point};
pub use reader::{Reader, Turn, read_token};
pub use reading::expression;
pub use sign::{Sign, sign_at};
pub use types::begins;
