//! Words become commands: the grammar of the command line, and the words of a line of a script. What a command of
//! several actions is made of is a type here too. Nothing here touches a machine.
#![tactic(auto)]

mod action;
mod command;
mod fault;
mod fill;
mod items;
mod line;
mod read;
mod reason;
mod scan;
mod values;

pub use action::Action;
pub use command::{
    BlessWord, BuildWords, CalculateWords, Command, EntryTexts, Given, KeepWords, One, PartWords,
    Several, Type1Words,
};
pub use fault::{LineFault, UsageReason, WordsFault};
pub use fill::inline_or_file;
pub use line::split_line;
