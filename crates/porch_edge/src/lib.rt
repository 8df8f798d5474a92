//! What the program is handed from outside: bytes to read, places to write to, a disk of six files.
//!
//! Each kind is a trait whose ghost members say what an object tells of itself and how often it has failed. `source` and
//! `sink` are the streams, `memory_source` and `memory_sink` the ones in memory, which tell all, and `standard` those over
//! the standard streams, which tell nothing. `disk` is the disk, whose calls are told in `specs/Disk.antt`; `memory_disk`
//! is the one in memory, on which a crash may fall inside any write, and `folder` the one over the files of a folder,
//! which tells nothing. What joins calls that follow each other on a disk is said in `laws`.
#![tactic(auto)]

mod answer;
mod contents;
mod disk;
pub mod failed;
mod folder;
mod laws;
mod memory_calls;
mod memory_disk;
mod memory_picks;
mod memory_plan;
pub mod memory_sink;
pub mod memory_source;
pub mod sink;
pub mod source;
pub mod standard;

pub use disk::{Disk, FileName};
pub use failed::Failed;
pub use folder::DirDisk;
pub use laws::{
    calls_look, calls_spare, changes_join, looks_join, moments_differ, runs_begin, runs_go_on,
    runs_join, spares_join, spares_keep,
};
pub use memory_disk::MemDisk;
pub use memory_plan::{Pick, Stop};
pub use memory_sink::MemSink;
pub use memory_source::MemSource;
pub use sink::{Sink, write_all};
pub use source::Source;
pub use standard::{StdSink, StdSource};
