//! The rows, and what the calls answer.
use crate::counters::{bad_name, choices, counter, good_name, tell_booted, tell_joined};
use crate::fault::RowFault;
use crate::loader::{change, choice, pattern, settings, tell_matched, value};
use crate::notation::write_bytes;
use crate::paths::{intent, leftover, name, other_path, path, target, tell_named};
use crate::refusals::refusal;
use crate::row::Row;
use crate::settings::{entry, lines, release, values};
use crate::versions::tell_compared;
use crate::words::words;
use std::alloc::{AllocError, Global};

// What a call that reads paths answers.
fn told_of_paths(alloc: Global, row: &Row<'_>) -> Result<String, RowFault> {
    match row.call {
        "path" | "printed" | "file-name" => path(alloc, row),
        "intent" => intent(alloc),
        "named" => tell_named(alloc, row),
        "sibling" | "under" => other_path(alloc, row),
        "target" => target(alloc, row),
        "name" => name(alloc, row),
        "leftover" => leftover(alloc, row),
        _ => Err(RowFault::Unclear),
    }
}

// What a call answers that tells a text.
fn told_text(alloc: Global, row: &Row<'_>) -> Result<String, RowFault> {
    match row.call {
        "refusal" | "refusal-line" => refusal(alloc, row),
        "counter" => counter(alloc, row),
        "booted" => tell_booted(alloc, row),
        "good" => good_name(alloc, row),
        "bad" => bad_name(alloc, row),
        "joined" => tell_joined(alloc, row),
        "choices" => choices(alloc, row),
        "compare" | "compare-keys" => tell_compared(alloc, row),
        "split" | "words" => words(alloc, row),
        _ => told_of_paths(alloc, row),
    }
}

// What a call on patterns and loader.conf answers.
fn told_of_loader(alloc: Global, row: &Row<'_>) -> Result<Vec<u8>, RowFault> {
    match row.call {
        "matches" => tell_matched(alloc, row),
        "pattern" => pattern(alloc, row),
        "value" => value(alloc, row),
        "settings" => settings(alloc, row),
        "change" => change(alloc, row),
        "chosen" => choice(alloc, row),
        _ => Ok(told_text(alloc, row)?.into_bytes()),
    }
}

fn row_result(alloc: Global, line: &str) -> Result<Vec<u8>, RowFault> {
    let row = Row::read(alloc, line)?;
    match row.call {
        "lines" => lines(alloc, &row),
        "values" => values(alloc, &row),
        "release" => release(alloc, &row),
        "entry" => entry(alloc, &row),
        _ => told_of_loader(alloc, &row),
    }
}

// A line, and below it what is told.
fn row_text(alloc: Global, line: &str, told: &[u8]) -> Result<String, AllocError> {
    let told = write_bytes(alloc, told)?;
    format!(in alloc; "> {line}\n{told}\n")
}

// A line, and below it the name of the fault that is the answer; or a line that isn't understood.
fn fault_text(alloc: Global, line: &str, fault: RowFault) -> Result<String, RowFault> {
    match fault {
        RowFault::Unclear => Ok(format!(in alloc; "? {line}\n")?),
        _ if fault.is_answer() => Ok(format!(in alloc; "> {line}\n{fault:?}\n")?),
        _ => Err(fault),
    }
}

/// The line, and below it what the call answers.
pub(crate) fn tell_line(alloc: Global, line: &str) -> Result<String, RowFault> {
    if line.is_empty() || line.starts_with('#') {
        return Ok(format!(in alloc; "{line}\n")?);
    }
    match row_result(alloc, line) {
        Ok(told) => Ok(row_text(alloc, line, &told)?),
        Err(fault) => fault_text(alloc, line, fault),
    }
}
