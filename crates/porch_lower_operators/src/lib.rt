//! The code of operators, conversions and tests, whose operands are constants or variables.
//!
//! Stands on porch_lowering, whose `Operators` has the definitions, and on porch_emitter, which has the code in
//! the making. `kinds` has the types that operands are converted to, `commands` the command of each operator,
//! `conversions` what is used and converted before it, and `operators` the code of each.
#![tactic(auto)]

mod commands;
mod conversions;
mod kinds;
mod operators;

pub use commands::{arithmetic, comparison, operator_command, unary_command, var_of};
pub use conversions::Held;
pub use kinds::{
    is_converted, is_small, left_accepts, left_type, may_fail, promoted, right_accepts, right_type,
};
pub use operators::{Typed, branch_on, negate, operate, operate_unary, promote};
