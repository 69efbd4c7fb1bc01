//! What a run has looked at: which file stood at a path, and which names a folder had. What another run has changed
//! since isn't taken for what it was. Who implements `LiveDisk` makes the calls.
//!
//! What is found the same at two moments was so at each moment between them. So a run makes its looks once more, before
//! it changes something and before it says what it has read.
#![tactic(auto)]

mod check;
mod disk;
mod identity;
mod laws;
mod looks;
mod map;
mod names;

pub use disk::{CheckFault, LiveDisk};
pub use identity::{Identity, Listing, Look};
pub use laws::look_laws;
pub use looks::{LookFault, RunLooks};
pub use map::PathMap;
pub use names::LastingNames;
