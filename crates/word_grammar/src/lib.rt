//! The grammar of the command line as tables: the commands with their verbs, how many operands
//! each takes and which options, and how each option is written. Nothing here reads a word's value.
#![tactic(auto)]

mod grammar;
mod laws;

pub use grammar::{CommandName, CommandRow, OptionRow, Takes, ValueKind};
pub use laws::{names_have_verbs_or_none, texts_find_their_option, words_find_their_command};
