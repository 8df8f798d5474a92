//! What a program means: definitions, and cases of them that are worked out.
//!
//! `specs/Mean` is what a reader has to believe: the meaning itself, over the tree of porch_syntax, the objects of
//! porch_objects and the integer results of porch_values. The functions here have no body
//! to run. Each states what some program means, and the check computes it.
#![tactic(auto)]

pub mod worked;
