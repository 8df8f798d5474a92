//! The flat abstract machine for every command of the flat text. Nothing runs it yet; the program that runs uses
//! [`crate::Abstract`].

pub mod laws;
pub mod worked;
