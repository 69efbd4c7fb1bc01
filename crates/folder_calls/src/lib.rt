//! The calls by which the machine on a real folder reads and changes it: what each tells, what it leaves to be synced,
//! and what has to be known before one that frees bytes. Who implements `Calls` makes them, and decides nothing. Beside
//! them: paths as texts, files that are compared by their bytes, and what is told of failures.
#![tactic(auto)]

mod answers;
mod calls;
mod found;
mod locked;
mod paths;
mod reads;
mod reports;
mod same_bytes;
mod writes;

pub use answers::{folder_answer, if_allowed, if_new, if_there, if_utf8, is_closed, lock_answer};
pub use calls::{Access, Calls, Hold, LockFault};
pub use found::{Found, Kind};
pub use locked::Locked;
pub use paths::{copy_path, path_in};
pub use reads::read_full;
pub use reports::Reports;
pub use same_bytes::{changed_fault, has_same_bytes};
pub use writes::write_all_bytes;
