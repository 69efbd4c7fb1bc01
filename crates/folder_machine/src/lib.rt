//! The machine on a folder, over the calls of a system: what is looked at, held, changed and synced, in which order.
//!
//! It tells nothing of what it holds, since no contract can say what a file system does. It is proved safe, and to count
//! each failure once; over calls that tell what waits, no sync of names that is answered Ok leaves anything to be synced,
//! and nothing is freed that isn't held, or that another name may have.
#![tactic(auto)]

mod faults;
mod intent;
mod kept;
mod listing;
mod machine;
mod system;

pub use machine::FolderMachine;
