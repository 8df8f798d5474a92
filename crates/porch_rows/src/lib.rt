//! The trees of rows of operands, and what becomes of the tree of an operand.
//!
//! Stands on porch_operands, which decides what becomes of operands. Start at `operators`, which puts an
//! operator behind what stands to the left of it; `rows` makes and lengthens rows, `parts` takes them apart,
//! `becomes` converts an operand, `pairs` has two trees side by
//! side, and `drops` lets go of trees.
#![tactic(auto)]

mod becomes;
mod drops;
mod operators;
mod pairs;
mod parts;
mod rows;

pub use becomes::{become_of, boxed_as};
pub use drops::{drop_place, drop_tree};
pub use operators::operator_tree;
pub use rows::{add_to_sequence, new_row};
