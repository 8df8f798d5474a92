//! The tests of flat programs: what no clause says of them, and worked examples from outside.
//!
//! They stand in a crate of their own, since a crate that has tests is proved twice. A file a subject.
#![tactic(auto)]

#[cfg(test)]
mod lines;
#[cfg(test)]
mod rewriting;
#[cfg(test)]
mod rules;
#[cfg(test)]
mod text;
