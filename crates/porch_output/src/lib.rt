//! What a program writes: a file that is only cut back and added to, and a buffer in front of it.
//!
//! It stands on `porch_edge`. `output` is the file, `shown` the same buffer in front of a sink. No call takes memory. What
//! an output stands for, and what a crash leaves of it, is said in `specs/Outputs.antt`, and what stays of it over calls on
//! other files in `laws`.
#![tactic(auto)]

mod buffer;
mod laws;
mod output;
mod shown;

pub use laws::output_stays;
pub use output::Output;
pub use shown::Shown;
