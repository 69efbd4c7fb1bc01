//! Calls that read and write boot counters, and what a blessing renames.
use crate::fault::RowFault;
use crate::row::Row;
use crate::texts::text_or_none;
use menu_order::{BlessVerb, Counted, Present, Suffix, bless_choice, read_count};
use std::alloc::{AllocError, Global};

fn counter_text(alloc: Global, counted: Option<Counted>) -> Result<String, AllocError> {
    format!(in alloc; "{counted:?}")
}

pub(crate) fn counter(alloc: Global, row: &Row<'_>) -> Result<String, RowFault> {
    Ok(counter_text(alloc, Counted::split(row.text(0)?))?)
}

pub(crate) fn tell_booted(alloc: Global, row: &Row<'_>) -> Result<String, RowFault> {
    match Counted::split(row.text(0)?) {
        Some(counted) => Ok(counter_text(alloc, counted.after_boot())?),
        None => Err(RowFault::Unclear),
    }
}

pub(crate) fn good_name(alloc: Global, row: &Row<'_>) -> Result<String, RowFault> {
    let name = Counted::good_name(alloc, row.text(0)?)?;
    Ok(text_or_none(alloc, name)?)
}

pub(crate) fn bad_name(alloc: Global, row: &Row<'_>) -> Result<String, RowFault> {
    let name = Counted::bad_name(alloc, row.text(0)?)?;
    Ok(text_or_none(alloc, name)?)
}

fn suffix_of(text: &str) -> Result<Suffix, RowFault> {
    match text {
        ".conf" => Ok(Suffix::Conf),
        ".efi" => Ok(Suffix::Efi),
        _ => Err(RowFault::Unclear),
    }
}

pub(crate) fn tell_joined(alloc: Global, row: &Row<'_>) -> Result<String, RowFault> {
    let base = row.text(0)?;
    let suffix = suffix_of(row.text(3)?)?;
    match (read_count(row.text(1)?), read_count(row.text(2)?)) {
        (Some(left), Some(done)) if !base.is_empty() => {
            Ok(Counted::join_name(alloc, base, left, done, suffix)?)
        }
        _ => Err(RowFault::Unclear),
    }
}

// What the three verbs choose.
fn choices_of(alloc: Global, present: Present) -> Result<String, AllocError> {
    let good = bless_choice(BlessVerb::Good, present);
    let bad = bless_choice(BlessVerb::Bad, present);
    let indeterminate = bless_choice(BlessVerb::Indeterminate, present);
    format!(in alloc; "{good:?}; {bad:?}; {indeterminate:?}")
}

pub(crate) fn choices(alloc: Global, row: &Row<'_>) -> Result<String, RowFault> {
    let names = row.text(0)?;
    let present = Present {
        good: names.contains("good"),
        counted: names.contains("counted"),
        bad: names.contains("bad"),
    };
    Ok(choices_of(alloc, present)?)
}
