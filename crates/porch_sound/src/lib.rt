//! Type soundness of what is done with objects: each operation gives values of its type, and keeps the store typed. There
//! is nothing to run: each function states a law.
//!
//! `specs/Typing` has the store typing of a run and what agrees with it, and `specs/Laws` what operations keep. It stands on
//! the definitions of porch_objects; that a source's expressions use these operations at the right types is proved above.
#![tactic(auto)]

pub mod laws;
