//! The rules by which files on FAT are changed, over what the system has told of names, lengths and times. No call of the
//! system is made here.
//!
//! FAT makes a rename in steps. A power cut between two of them can leave two names over the same clusters, and a check of
//! the file system then takes the bytes of one of them away. So a name is unlinked only if no other one may share its
//! clusters, and what is kept is the name that has the bytes.
#![tactic(auto)]

mod alias;
mod entry;
mod facts;
mod laws;
mod origin;
mod recovery;
mod twin;

pub use alias::{is_alias, is_in_capitals, is_same_in_capitals};
pub use entry::{EntryName, entry_parts, is_one_entry, is_own_move};
pub use facts::{Facts, fat_time, may_share};
pub use laws::{alias_laws, move_laws, recovery_laws, twin_laws};
pub use origin::can_be_alias_of;
pub use recovery::{Removal, Step, removal_of, step_of_none, step_of_one};
pub use twin::may_be_of_one_file;
