//! The list of types that a program has when its text has ended: those that were completed, and behind
//! them pointers to those of them that no pointer pointed to. Stands on porch_sealing. Start at
//! `sealed_types`.
#![tactic(auto)]

mod pointers;

pub use pointers::{SealedTypes, sealed_types};
