//! The tests of the compiler and of the two machines: what no clause says of them, and worked examples from outside.
//!
//! They stand in a crate above the others, since a crate that has tests is proved twice; those of the crates below stand
//! in porch_base_tests, porch_disk_tests and porch_store_tests, and those of the top call in porch_top_tests. A file a
//! subject.
#![tactic(auto)]

#[cfg(test)]
mod flat;
#[cfg(test)]
mod side_by_side;
#[cfg(test)]
mod syntax;
