//! What a command comes to, and how it is carried out on a machine.
//!
//! A command is first planned, by reads alone: its change, and its whole reply, with all paths and texts made.
//! Then `perform` settles the machine, makes the change and prints the reply; it takes no memory. Whatever
//! fails and wherever it is stopped, the boot files are as before the command or as after it, and no byte of
//! the reply is printed before the change can't be undone.
//!
//! What planners share stands here too: paths and names of words, files with their sizes and headers, the folders of boot
//! entries and their menu, copies and removals of files, choices of banks and phase paths, and why there may be nothing
//! to say.
#![tactic(auto)]

mod changes;
mod choices;
mod files;
mod lists;
mod menus;
mod outcome;
mod performing;
mod plan;
mod read_error;
mod reading;
mod refusing;
mod saying;
mod word_error;

pub use changes::{gone_line, installed_text, plan_copy, plan_removal, printed_line};
pub use choices::{banks_of, paths_of};
pub use files::{
    file_bytes, file_part, head_of_size, image_head, not_pe, readable_size, sized_head, too_large,
};
pub use lists::{each_once, push};
pub use menus::{folders_in, menu_at};
pub use outcome::{MachineFault, Outcome, RunError};
pub use performing::perform;
pub use plan::{Change, Plan, RefusalLine};
pub use read_error::ReadError;
pub use reading::seen_size;
pub use refusing::{plan_word_error, refusal_line, refusal_plan};
pub use saying::{answer_or_refusal, plan_read_error, text_or_refusal};
pub use word_error::{
    WordError, check_name, file_under, not_there, path_in, path_under, printed_path,
};
