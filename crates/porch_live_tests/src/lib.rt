//! The tests of what lives in a run of the abstract machine: each call on its happy path and its
//! acts, and long runs.
#![tactic(auto)]

#[cfg(test)]
mod calls;
#[cfg(test)]
mod large;
#[cfg(test)]
mod long_runs;
