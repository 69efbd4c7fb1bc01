//! The entries of a boot menu, their order, as the UAPI Boot Loader Specification gives it, and which of them go if the
//! newest are kept.
//!
//! Versions are ordered by the UAPI Version Format: a text is read as a list of tokens, and lists are compared
//! token by token with their end as a token of its own. Boot counters stand in the names of entries: how they are
//! read and written, and which file a blessing renames. `sort_menu` puts entries into the order of the menu.
//!
//! If the newest are kept, of each group of entries the first ones of the menu stay, and if none of these is good, the
//! first good one.
#![tactic(auto)]

mod bless;
mod counted;
mod install_name;
mod item;
mod keep_laws;
mod key;
mod lexeme;
mod menu;
mod newest;
mod version;
mod version_key;

pub use bless::{BlessChoice, BlessVerb, Present, bless_choice};
pub use counted::{Counted, MAX_COUNT, Suffix, counter_laws, has_digits_alone, read_count};
pub use install_name::is_install_name;
pub use item::{Counter, MenuItem};
pub use keep_laws::keeping_laws;
pub use key::{MenuKey, copy_option};
pub use menu::{menu_laws, sort_menu};
pub use newest::{doomed, doomed_paths};
pub use version::{compare_versions, version_laws};
pub use version_key::VersionKey;
