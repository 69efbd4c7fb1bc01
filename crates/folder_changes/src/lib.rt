//! Changes of a real folder, over any calls: each is noted until it is synced, and nothing is freed that this run doesn't
//! hold by its lock, or that another name may have.
#![tactic(auto)]

mod aliases;
mod capitals;
mod changes;
mod half;
mod ready;
mod sync;
mod twins;

pub use aliases::{free_alias, is_alias_of_listed};
pub use capitals::{fat_file_at, file_at, is_spelled, path_in_the_way, require_spelled};
pub use changes::Changes;
pub use half::{Removal, Rescue, removal_of_old, rescue_of};
pub use sync::KeptFile;
pub use twins::Twins;
