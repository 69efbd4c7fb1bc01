//! Answers as JSON (RFC 8259): a menu, the sections of an image, and values of PCR 11.
//!
//! An answer is one value on a line of its own: without spaces, the keys of its objects ascending by their bytes.
#![tactic(auto)]

mod entry;
mod fault;
mod inspection;
mod laws;
mod line;
mod member;
mod menu;
mod object;
mod registers;

pub use fault::JsonFault;
pub use inspection::{Inspected, inspect_json};
pub use laws::{answers_read_back, keys_ascend};
pub use menu::menu_json;
pub use registers::pcr_json;
