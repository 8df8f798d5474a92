//! What is known of an expression before it becomes flat code: its type, whether it may come out without a
//! value, and whether it stands as an operand where it is.
//!
//! Stands on porch_lowering, whose `Values` has the definitions. `types` has the types of expressions and
//! of the variables that hold their values, `operands` what commands take as it stands, `values` which
//! expressions may lack a value, and which write their variable last.
#![tactic(auto)]

mod operands;
mod types;
mod values;

pub use operands::{Accepts, atom_of, constant_of, constant_operand, pointer_in, variable_of};
pub use types::{held_type, operator_type, pointer_to, type_held, type_of};
pub use values::{may_lack, writes_last};
