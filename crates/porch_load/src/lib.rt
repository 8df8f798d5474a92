//! A program loaded for a layout: the code of each function, with what its calls pass.
//!
//! Start at [`load`]. `specs/Loaded` says what a program that is loaded has to do with its commands; `specs/Bodies` says
//! it of one function, and `specs/Calls` of what a call passes.
#![tactic(auto)]

mod body;
mod calls;
mod loaded;
mod sound;

pub use body::{Body, load_body};
pub use calls::link_body;
pub use loaded::{GlobalMap, Loaded, load, place_globals, widths_of_layout};
pub use sound::{is_sound, sound_operations_hold};
