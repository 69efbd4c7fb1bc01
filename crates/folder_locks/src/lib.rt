//! What a run has looked at in a folder, and what it holds there by locks, over the calls of a system.
//!
//! It takes its locks before it changes something, without waiting: folders by their paths, and then files by theirs. What
//! it holds was found once by its path, and what it has looked at is found the same once more before the change.
#![tactic(auto)]

mod answers;
mod locks;
mod looked;
mod looks;
mod opened;
mod order;

pub use answers::other_run;
pub use locks::{Held, Locks, is_payload};
pub use looked::LookedFile;
pub use looks::{identity_of, look_answer, require_all_same, require_same};
pub use opened::{open_file, open_known};
pub use order::{hold_files, hold_folders};
