//! Flat code in the making: its commands, the temporaries that are in use, the most that were at once, and
//! the labels that are taken.
//!
//! Stands on porch_lowering, whose `Code` has the definitions. `emitter` has the code, `pools` the temporaries
//! by type, `starts` the numbers where those of each type begin, and `variables` their types.
#![tactic(auto)]

mod emitter;
mod pools;
mod starts;
mod variables;

pub use emitter::Emitter;
pub use pools::Pools;
pub use starts::Starts;
pub use variables::add_pool_types;
