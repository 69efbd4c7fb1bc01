//! The texts of a boot folder: os-release(5), the entry files of the UAPI Boot Loader Specification, and
//! loader.conf(5).
//!
//! All are texts of lines. `TextLines` are the lines that count, trimmed, without empty lines and comments;
//! `value_in` and `last_value` read the keys and values that entry files and loader.conf have. `OsRelease` reads
//! the release that a unified kernel image carries in `.osrel`, and a type 1 entry is read from its file in
//! `loader/entries`. Of loader.conf this crate reads the two keys on the default entry and the waiting time, says
//! which entry they choose, and changes one of them and no other line.
#![tactic(auto)]

mod conf;
mod conf_change;
mod conf_choice;
mod entry;
mod entry_line;
mod entry_values;
mod front;
mod os_line;
mod os_release;
mod os_value;
mod pattern;
mod pattern_item;
mod payload_entry;
mod text_lines;

pub use conf::{LoaderConf, is_default_pattern, is_timeout};
pub use conf_change::{ConfKey, lines_are_the_file, may_be_value, with_key};
pub use conf_choice::default_place;
pub use entry::{EntryFault, Type1};
pub use entry_line::{last_value, value_in};
pub use entry_values::entry_lines_are_read_in_one_way;
pub use os_line::os_lines_are_read_in_one_way;
pub use os_release::OsRelease;
pub use pattern::{is_pattern, items_match_as_the_manual_says, matches};
pub use payload_entry::{entry_text, is_field, is_payload_name};
pub use text_lines::{TextLines, first_piece, is_counted, trim_blanks};
