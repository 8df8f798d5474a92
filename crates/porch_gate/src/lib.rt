//! Gates: a file counts only while its first byte is a letter, so that it is closed before it is written over,
//! filled behind the closed gate, and opened last. It stands on `porch_edge`. No call takes memory.
//! Start at `calls`; what is open is said in `specs/Gates.antt`.
#![tactic(auto)]

mod calls;
mod gate;

pub use calls::{close, fill, is_open, open_gate, seal, write_behind};
pub use gate::Gate;
