//! Calls: of functions of the program, and of the library, with allocations. Each call gives what its
//! definition in porch_check gives, or the rule that is broken and its place.
//!
//! Stands on porch_arguments for arguments and on porch_formats for `printf`. Start at `call` in `calls`.
//! `program` has calls of functions of the program, with `numbers` below it, `library` calls of the library,
//! with `putting`, `freeing` and `allocations` below it; `contexts` and `sizes` where arguments and sizes
//! stand.
#![tactic(auto)]

mod allocations;
mod calls;
mod contexts;
mod freeing;
mod library;
mod numbers;
mod program;
mod putting;
mod sizes;

pub use calls::call;
pub use contexts::argument_context;
pub use numbers::Numbers;
pub use sizes::{first_context, is_size, is_size_of, last_context};
