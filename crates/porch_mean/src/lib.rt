//! What every program of the language means: definitions over the typed tree, and programs that are worked out.
//!
//! `specs/Mean` is where to start: the run of `main`, and calls. `specs/Statement` and `specs/Expression` say what each
//! form of the tree does, `specs/Operators`, `specs/Printing` and `specs/Initial` what they use, and `specs/Outcome` how one
//! evaluation follows another. There is nothing to run: each function of `laws` states what holds of every run, and each of
//! `worked` what some programs mean, which the check computes.
#![tactic(auto)]

pub mod laws;
pub mod worked;
