//! The tests of the top call: what no clause says of it.
//!
//! They stand in a crate of their own, as porch_tests does.
#![tactic(auto)]

#[cfg(test)]
mod top;
#[cfg(test)]
mod words;
