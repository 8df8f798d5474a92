//! The tests of pointers in a checkpoint: an array, its words and its addresses.
#![tactic(auto)]

#[cfg(test)]
mod array;
