//! The machine on the folder that the program starts in, by the calls of the system: one a function, but for the trial of a
//! folder, and no decision. It tells nothing of what it holds, since no contract can say what a file system does.
#![tactic(auto)]

mod answers;
mod found;
mod growth;
mod host;
mod real;
mod streams;
mod wishes;

pub use host::{HostMachine, host_machine};
pub use real::RealFolder;
pub use wishes::reports_are_wanted;
