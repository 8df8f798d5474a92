//! Sources that are worked out, by subject. The functions are laws, and have nothing to run.

pub mod calls;
pub mod names;
pub mod operators;
pub mod programs;
pub mod statements;
pub mod types;
