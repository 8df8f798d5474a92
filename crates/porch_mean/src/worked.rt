//! Programs that are worked out, by subject. The functions are laws, and have nothing to run.

pub mod acts;
pub mod calls;
pub mod ends;
pub mod operators;
pub mod order;
pub mod pointers;
pub mod shown;
pub mod statements;
pub mod structs;
pub mod turns;
