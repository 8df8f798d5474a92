//! The tests of what bytes and addresses name: tables of worked examples from outside.
#![tactic(auto)]

#[cfg(test)]
mod spots;
