//! The typed tree of a program: what a source text is once each name is a number and each expression
//! has its type.
//!
//! `typed.rt` has the tree as the code has it, and `specs/Mirror` the same as plain data, which every
//! definition goes over; `specs/Typed` says which trees are typed. Nothing here has a body to run:
//! `worked.rt` states what the definitions say of small functions, and the check computes it.
#![tactic(auto)]

pub mod typed;
pub mod worked;

pub use typed::{
    Comparison, Conversion, Direction, Expression, Fill, Function, GlobalVariable, Initial,
    Operator, Place, Print, Program, Statement, SwitchEntry, Unary,
};
