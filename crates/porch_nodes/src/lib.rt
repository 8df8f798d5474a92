//! Nodes of a typed expression: each call makes a node of its operands, or answers the rule that is
//! broken there.
//!
//! What a node is decides porch_operands, and the trees of rows are made by porch_rows. `nodes` has
//! operators between two values, `unary` those in front of one, `casts` casts, `choices` conditions with
//! two parts and expressions with commas between them, `places` the places that values lead to.
#![tactic(auto)]

pub mod casts;
pub mod choices;
pub mod nodes;
pub mod places;
pub mod unary;
