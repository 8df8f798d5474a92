//! The leaves of a typed expression: constants, literals and names, and sizes. Each call gives what its
//! definition in porch_check gives, from the bytes of a token or from what a name means.
//!
//! Stands on porch_operands for what an expression is, and on porch_lex for the values of constants. `context` has where an expression stands, as far as that allows a form that
//! it is nowhere else; `constants`, `literals`, `names` and `sizes` what their names say.
#![tactic(auto)]

pub mod constants;
pub mod context;
pub mod literals;
pub mod names;
pub mod sizes;
