//! The typed tree of a text in the last numbers of its types: a tree is made of the one that was built
//! while the text was read, node by node. Stands on porch_sealing, which has the numbers. Start at
//! `sealed_function`.
#![tactic(auto)]

mod expression;
mod nodes;
mod pairs;
mod program;
mod statement;
mod statement_nodes;

pub use expression::sealed_expression;
pub use program::{sealed_function, sealed_functions, sealed_globals};
pub use statement::{sealed_statement, sealed_statements};
