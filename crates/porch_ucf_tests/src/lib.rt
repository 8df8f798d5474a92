//! The tests of checkpoints as bytes: a file made by hand, and each of its flaws.
#![tactic(auto)]

#[cfg(test)]
mod changes;
#[cfg(test)]
mod flaws;
#[cfg(test)]
mod sample;
#[cfg(test)]
mod words;
