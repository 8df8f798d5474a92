//! The tests of streams and disks: what no clause says of them, and what real folders do.
//!
//! They stand in a crate of their own, as porch_tests does. A file a subject.
#![tactic(auto)]

#[cfg(test)]
mod adapters;
#[cfg(test)]
mod edge;
#[cfg(test)]
mod folders;
