//! The steps that change boot files, on a disk on which a stop in the middle of a rename may leave the old name, the
//! new one or both. Whatever fails and wherever it is stopped, a step shows the files as they were before it or as
//! they are after it, and a step that refuses shows them as they were.
//!
//! A file that is written stands under a temporary name first, which boot doesn't see, so that both names do no harm.
//! A file that is moved has two names that boot sees. So `move_name` first puts an intent in its place, the file
//! `boot_tools.intent` with both names, and takes it away at the end. An intent that a stop has left says what counts:
//! where both files are there, boot sees the one at the new name alone. `recover` takes the old one away then, and the
//! intent in any case. It is to run before the first step. Each step asks for a machine that is rested, which has no
//! intent, and leaves it so after every answer but a fault of the disk.
#![tactic(auto)]

mod appends;
mod faults;
mod moves;
mod recovery;
mod steps;
mod write;

pub use appends::{append, copy_part};
pub use faults::{MoveFault, StepFault};
pub use moves::{Intent, move_name};
pub use recovery::recover;
pub use steps::{drop_leftovers, drop_name, settle};
pub use write::{put_in_place, write_bytes, write_whole};
