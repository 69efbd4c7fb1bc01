//! A folder in memory that makes the calls of a real one. It tells what stands in it and what of it waits for the disk,
//! so each clause of `Calls` can be met.
#![tactic(auto)]

mod entry;
mod folder;
mod notes;
mod path_set;
mod sync_log;

pub use folder::{MemoryFile, MemoryFolder};
