//! Layouts: the byte order, sizes and alignments under which a program's memory is laid out.
//!
//! Start at [`Layout`], then [`built_in`] for the six that have names and [`layout_from`] for those
//! of a layouts file. The crate stands on `toml` alone.
#![tactic(auto)]

mod fault;
mod file;
mod layout;

pub use fault::{LayoutFault, LayoutKey, LayoutRule};
pub use file::layout_from;
pub use layout::{Layout, built_in};
