//! One step of a row of operators: an operator between two operands that are held.
//!
//! Stands on porch_lowering, whose `steps_code` has the definition. The value of a step but the last goes to the
//! next temporary that is free without both operands, so to where the left one was if that has its type.
#![tactic(auto)]

mod steps;

pub use steps::{Operands, operate_step};
