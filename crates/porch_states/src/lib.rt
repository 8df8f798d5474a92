//! Definitions: the state of the flat abstract machine that a checkpoint stands for, and an example worked
//! out. It stands on `porch_ucf` and `porch_abstract`. Start at `specs/ImageState.antt`.
#![tactic(auto)]

mod worked;

pub use worked::a_saved_frame;
