//! The last numbers of the types of a text, in code: while a text is read, a type has the number under
//! which it was met first; when the text has ended, its number in the program is its place among those
//! that were completed. Stands on porch_check and porch_scopes. Start at `LastNumbers`; `types` has the
//! list of the program's types, and `parts` what isn't deep of a program that holds numbers of types.
#![tactic(auto)]

mod numbers;
mod parts;
mod types;

pub use numbers::LastNumbers;
pub use parts::{last_of, sealed_global, sealed_operator};
pub use types::{last_type, last_types};
