//! The tests of what reads a source: worked texts, each with what comes of it.
//!
//! They stand in a crate of their own, as porch_tests does. A file a subject, named for what it tries.
#![tactic(auto)]

#[cfg(test)]
mod depth;
#[cfg(test)]
mod expressions;
#[cfg(test)]
mod tokens;
#[cfg(test)]
mod trees;
#[cfg(test)]
mod walk;
