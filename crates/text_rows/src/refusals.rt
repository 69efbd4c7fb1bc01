//! The printed texts of refusals.
use crate::fault::RowFault;
use crate::row::Row;
use crate::texts::text_of_value;
use boot_base::{PeText, Refusal, Text};
use std::alloc::{AllocError, Global};

// A refusal that has a text alone.
fn refusal_of_text(kind: &str, text: Text) -> Result<Refusal, RowFault> {
    match kind {
        "NotFound" => Ok(Refusal::NotFound { path: text }),
        "BadPath" => Ok(Refusal::BadPath { text }),
        "SectionTwice" => Ok(Refusal::SectionTwice { name: text }),
        "BadSectionName" => Ok(Refusal::BadSectionName { text }),
        "NotUki" => Ok(Refusal::NotUki { missing: text }),
        "BadName" => Ok(Refusal::BadName { text }),
        "TargetExists" => Ok(Refusal::TargetExists { path: text }),
        "NoCounter" => Ok(Refusal::NoCounter { path: text }),
        "NoSource" => Ok(Refusal::NoSource { path: text }),
        "BadNumber" => Ok(Refusal::BadNumber { text }),
        "BadPattern" => Ok(Refusal::BadPattern { text }),
        "BadField" => Ok(Refusal::BadField { text }),
        "PayloadSource" => Ok(Refusal::PayloadSource { path: text }),
        "NotText" => Ok(Refusal::NotText { path: text }),
        _ => Err(RowFault::Unclear),
    }
}

fn too_large(alloc: Global, path: &str, size: u32) -> Result<Refusal, AllocError> {
    let path = Text::of(alloc, path)?;
    Ok(Refusal::TooLarge {
        path,
        size: u64::from(size),
    })
}

fn not_pe(alloc: Global, reason: &str, offset: u32) -> Result<Refusal, AllocError> {
    let reason = PeText::of(alloc, reason)?;
    Ok(Refusal::NotPe {
        reason,
        offset: u64::from(offset),
    })
}

// A refusal that has a text and a number.
fn refusal_of_both(alloc: Global, kind: &str, row: &Row<'_>) -> Result<Refusal, RowFault> {
    let (text, number) = (row.text(1)?, row.number(2)?);
    if kind == "TooLarge" {
        return Ok(too_large(alloc, text, number)?);
    }
    Ok(not_pe(alloc, text, number)?)
}

// A refusal that has two sizes.
fn refusal_of_sizes(kind: &str, row: &Row<'_>) -> Result<Refusal, RowFault> {
    let (size, limit) = (row.number(1)?, row.number(2)?);
    if kind == "NoHeaderSpace" {
        return Ok(Refusal::NoHeaderSpace {
            need: size,
            have: limit,
        });
    }
    Ok(Refusal::SbatDoesNotFit {
        length: size,
        room: limit,
    })
}

// A refusal that has a number alone.
fn refusal_of_number(kind: &str, row: &Row<'_>) -> Result<Refusal, RowFault> {
    let number = u64::from(row.number(1)?);
    match kind {
        "AddressSpace" => Ok(Refusal::AddressSpace { end: number + 1 }),
        "BadScript" => Ok(Refusal::BadScript { line: number }),
        "TooManyFiles" => Ok(Refusal::TooManyFiles { count: number }),
        _ => Ok(Refusal::TooMany { count: number }),
    }
}

fn refusal_of(alloc: Global, row: &Row<'_>) -> Result<Refusal, RowFault> {
    let kind = row.text(0)?;
    match kind {
        "SignedStub" => Ok(Refusal::SignedStub),
        "NoEntries" => Ok(Refusal::NoEntries),
        "TooLarge" | "NotPe" => refusal_of_both(alloc, kind, row),
        "NoHeaderSpace" | "SbatDoesNotFit" => refusal_of_sizes(kind, row),
        "AddressSpace" | "BadScript" | "TooMany" | "TooManyFiles" => refusal_of_number(kind, row),
        _ => refusal_of_text(kind, Text::of(alloc, row.text(1)?)?),
    }
}

// The text of a refusal, or the line in which it is printed.
fn refusal_text(alloc: Global, call: &str, refusal: &Refusal) -> Result<String, AllocError> {
    match call {
        "refusal" => text_of_value(alloc, refusal),
        _ => Ok(refusal.line(alloc)?.into_string()),
    }
}

/// The text of a refusal, or its printed line.
pub(crate) fn refusal(alloc: Global, row: &Row<'_>) -> Result<String, RowFault> {
    let refusal = refusal_of(alloc, row)?;
    let text = refusal_text(alloc, row.call, &refusal);
    drop(refusal);
    Ok(text?)
}
