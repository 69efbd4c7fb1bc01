//! The order of versions.
use crate::fault::RowFault;
use crate::row::Row;
use menu_order::{VersionKey, compare_versions};
use std::alloc::{AllocError, Global};
use std::cmp::Ordering;

// The order of the keys of two versions.
fn compare_keys(alloc: Global, left: &[u8], right: &[u8]) -> Result<Ordering, AllocError> {
    let left = VersionKey::of(alloc, left)?;
    let right = VersionKey::of(alloc, right)?;
    Ok(left.cmp(&right))
}

// The order of two versions, or of their keys.
fn compare(alloc: Global, call: &str, left: &[u8], right: &[u8]) -> Result<Ordering, AllocError> {
    match call {
        "compare" => Ok(compare_versions(left, right)),
        _ => compare_keys(alloc, left, right),
    }
}

fn compare_text(
    alloc: Global,
    call: &str,
    left: &[u8],
    right: &[u8],
) -> Result<String, AllocError> {
    let order = compare(alloc, call, left, right)?;
    let back = compare(alloc, call, right, left)?;
    format!(in alloc; "{order:?}, {back:?}")
}

/// How two versions or their keys compare, and how the other way round.
pub(crate) fn tell_compared(alloc: Global, row: &Row<'_>) -> Result<String, RowFault> {
    Ok(compare_text(alloc, row.call, row.bytes(0)?, row.bytes(1)?)?)
}
