//! Words of the command line.
use crate::fault::RowFault;
use crate::row::Row;
use crate::texts::text_of_value;
use std::alloc::{AllocError, Global};
use tool_words::{Command, UsageReason, WordsFault, split_line};

fn usage_text(alloc: Global, reason: &UsageReason) -> Result<String, AllocError> {
    let reason = text_of_value(alloc, reason)?;
    format!(in alloc; "usage: {reason}")
}

// The usage line of words outside the grammar.
fn fault_text(alloc: Global, fault: &WordsFault) -> Result<String, AllocError> {
    match fault {
        WordsFault::Usage { reason } => usage_text(alloc, reason),
        WordsFault::Memory => Err(AllocError),
    }
}

// A command as rows have it: by its name, without its kind.
fn command_text(alloc: Global, command: &Command) -> Result<String, AllocError> {
    match command {
        Command::Script => format!(in alloc; "{command:?}"),
        Command::Several(several) => format!(in alloc; "{several:?}"),
        Command::One(one) => format!(in alloc; "{one:?}"),
    }
}

// The command that words mean, or the usage line.
fn meaning_text(alloc: Global, words: &Vec<String>) -> Result<String, AllocError> {
    let meaning = Command::read(alloc, words);
    let text = match &meaning {
        Ok(command) => command_text(alloc, command),
        Err(fault) => fault_text(alloc, fault),
    };
    drop(meaning);
    text
}

// The words themselves, or what they mean.
fn words_text(alloc: Global, call: &str, words: &Vec<String>) -> Result<String, AllocError> {
    match call {
        "split" => words.as_slice().join(alloc, "|"),
        _ => meaning_text(alloc, words),
    }
}

/// The words of a line, or what they mean.
pub(crate) fn words(alloc: Global, row: &Row<'_>) -> Result<String, RowFault> {
    let words = split_line(alloc, row.text(0)?)?;
    Ok(words_text(alloc, row.call, &words)?)
}
