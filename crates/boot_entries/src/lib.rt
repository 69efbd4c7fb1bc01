//! The entries of a boot folder, as the UAPI Boot Loader Specification has them, their menu, its text, and which of them
//! the settings choose.
//!
//! Of a unified kernel image the headers and the os-release text are read, and nothing else.
#![tactic(auto)]

mod choice;
mod entry;
mod fault;
mod folders;
mod laws;
mod listing;
mod name;
mod names;
mod once;
mod scanning;
mod uki;

pub use choice::choose_entry;
pub use fault::{ItemFault, MenuFault, Missing, ScanFault};
pub use folders::Folders;
pub use laws::entries_laws;
pub use listing::{join_texts, list_text, status_text, title};
pub use scanning::{scan, scan_folders};
pub use uki::uki_item;
