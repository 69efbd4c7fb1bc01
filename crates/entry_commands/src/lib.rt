//! The commands on the boot entries of an EFI system partition, each planned by reads alone: the list of the menu, the
//! installation, the boot and the blessing of an entry, its removal, which entries go if the newest are kept, and the
//! tidying of the entries' folders.
#![tactic(auto)]

mod bless;
mod boot;
mod counts;
mod install;
mod keep;
mod laws;
mod list;
mod moves;
mod tidy;
mod unlink;

pub use bless::plan_bless;
pub use boot::plan_boot;
pub use install::plan_install;
pub use keep::{keep_paths, would_text};
pub use laws::list_reads_back;
pub use list::plan_list;
pub use tidy::plan_tidy;
pub use unlink::plan_unlink;
