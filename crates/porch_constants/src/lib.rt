//! Constant expressions: the value of a typed expression that is one, under both widths of `long` together.
//!
//! Stands on porch_check for the definitions and on porch_values for results of operators. `fold` goes over
//! the tree, `steps` has the operators at known values, `value` what an expression is as a constant.
#![tactic(auto)]

mod fold;
mod steps;
mod value;

pub use fold::folded;
pub use value::Folded;
