//! The tests of gates, of the two checkpoint files and of the output: crashes, failing calls, and real folders.
//!
//! They stand in a crate of their own, as porch_tests does. `commit`, `start`, `load`, `gate`, `output` and `folders` are each
//! named for what they try; `checkpoint` makes files to try it on, `quiet` and `counting` are disks that tell nothing, so that
//! what a call asks of a disk that tells its files needs no proof here.
#![tactic(auto)]

#[cfg(test)]
mod checkpoint;
#[cfg(test)]
mod commit;
#[cfg(test)]
mod counting;
#[cfg(test)]
mod folders;
#[cfg(test)]
mod gate;
#[cfg(test)]
mod load;
#[cfg(test)]
mod output;
#[cfg(test)]
mod quiet;
#[cfg(test)]
mod start;
