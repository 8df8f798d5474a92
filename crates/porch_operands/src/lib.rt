//! The typing rules at one node of an expression: what its operands were found to be gives what the
//! node is, or the rule that is broken there.
//!
//! The definitions are those of `porch_check`, and each call gives exactly what its definition gives.
//! `operand` has what an expression was found to be, `table` what the rules ask of the types of the
//! text. The rules decide over what can be copied: `kinds` has the common kinds, `agree` what becomes of
//! an operand where a type is wanted, `operators` the operators between two operands, `unary` and `places`
//! those of one, with members and indexes, `choices` and `casts` what their names say.
#![tactic(auto)]

pub mod agree;
pub mod casts;
pub mod choices;
pub mod kinds;
pub mod operand;
pub mod operators;
pub mod places;
pub mod table;
pub mod unary;

pub use operand::{Becomes, Form, Library, Operation, Sort, Typed, Value};
pub use table::{Class, Member, Table};
