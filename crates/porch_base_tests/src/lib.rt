//! The tests of types, integers, layouts, places and the heap: what no clause says of them, and worked examples from
//! outside.
//!
//! They stand in a crate of their own, as porch_tests does. A file a subject, named for the crate that it tries.
#![tactic(auto)]

#[cfg(test)]
mod heap;
#[cfg(test)]
mod layout;
#[cfg(test)]
mod metrics;
#[cfg(test)]
mod types;
#[cfg(test)]
mod values;
