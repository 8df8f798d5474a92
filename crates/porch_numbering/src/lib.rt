//! The types of a whole text by their last numbers: that they are a list of types, as a program has one. There is nothing to
//! run: each function states a law.
//!
//! `specs/Lasts` has what holds of the types when a text has ended, and `specs/Laws` what follows for the program. That it
//! holds at the end of each text isn't proved yet.
#![tactic(auto)]

pub mod laws;
