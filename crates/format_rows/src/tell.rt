//! The rows, and what comes of each.
use crate::build::build;
use crate::case::Case;
use crate::fault::RowFault;
use crate::file::{bytes_text, fields_text, fill, set_demo, sha256_text};
use crate::image::set_image;
use crate::json::sections_text;
use crate::measure::{machine_text, replay_text};
use crate::menu::scan_text;
use crate::parts::{cmdline_text, initrds_text, merge_text, name_text};
use crate::read::{headers_text, range_text, read_text};
use crate::refusal::refusal_text;
use crate::register::{digest_text, extend_digest_text, extend_text, heading_text, pieces_text};
use crate::words::{bytes_of, number};
use std::alloc::{AllocError, Global};

// What comes of a row that is about no file.
fn told_alone(alloc: Global, verb: &str, rest: &str) -> Result<String, RowFault> {
    match verb {
        "digest" => digest_text(alloc, rest),
        "pieces" => pieces_text(alloc, rest),
        "extend" => extend_text(alloc, rest),
        "extend_digest" => extend_digest_text(alloc, rest),
        "heading" => heading_text(alloc, rest),
        "name" => Ok(name_text(alloc, rest)?),
        "cmdline" => cmdline_text(alloc, rest),
        "initrds" => initrds_text(alloc, rest),
        "merge" => merge_text(alloc, rest),
        "sections" => sections_text(alloc, rest),
        "scan" => scan_text(alloc, rest),
        _ => Err(RowFault::Unclear),
    }
}

// What comes of a row that asks of the file.
fn told_of_file(
    alloc: Global,
    verb: &str,
    rest: &str,
    case: &mut Case,
) -> Result<String, RowFault> {
    match verb {
        "fields" => fields_text(alloc, case, rest),
        "bytes" => bytes_text(alloc, case, rest),
        "sha256" => sha256_text(alloc, case, rest),
        "read" => read_text(alloc, case),
        "headers" => headers_text(alloc, case),
        "range" => range_text(alloc, case, rest),
        "head" | "replay_file" => machine_text(alloc, verb, case),
        "refusal" => refusal_text(alloc, case, rest),
        "build" => build(alloc, case, rest),
        "replay" => replay_text(alloc, case, rest),
        _ => told_alone(alloc, verb, rest),
    }
}

// What comes of a row; of one that changes what rows are about nothing is told.
fn row_result(alloc: Global, line: &str, case: &mut Case) -> Result<String, RowFault> {
    let (verb, rest) = line.split_once(' ').unwrap_or((line, ""));
    match verb {
        "image" => set_image(alloc, case, rest)?,
        "fill" => fill(alloc, case, rest)?,
        "demo" => set_demo(alloc, case, rest)?,
        "sbat" => case.sbat = bytes_of(alloc, rest)?,
        "fail" => case.failing = Some(number(rest)?),
        _ => return told_of_file(alloc, verb, rest, case),
    }
    Ok(String::new(alloc))
}

// A row that is understood, and below it what comes of it.
fn row_text(alloc: Global, line: &str, told: &str) -> Result<String, AllocError> {
    if told.is_empty() {
        return format!(in alloc; "> {line}\n");
    }
    format!(in alloc; "> {line}\n{told}\n")
}

/// The line, and below it what comes of it.
pub(crate) fn tell_line(alloc: Global, line: &str, case: &mut Case) -> Result<String, RowFault> {
    if line.is_empty() || line.starts_with('#') {
        return Ok(format!(in alloc; "{line}\n")?);
    }
    match row_result(alloc, line, case) {
        Ok(told) => Ok(row_text(alloc, line, told.as_str())?),
        Err(RowFault::Unclear) => Ok(format!(in alloc; "? {line}\n")?),
        Err(fault) => Err(fault),
    }
}
