//! Calls that read paths and names of files.
use crate::fault::RowFault;
use crate::row::Row;
use crate::texts::{text_of_value, text_or_none};
use boot_base::{BootPath, FileName, FilePath, PathFault, Target, TempPath};
use std::alloc::{AllocError, Global};

// The path's text, how it is printed, or its last component.
fn path_text(alloc: Global, call: &str, path: &BootPath) -> Result<String, AllocError> {
    match call {
        "printed" => text_of_value(alloc, path),
        "file-name" => String::from_str(alloc, path.file_name()),
        _ => String::from_str(alloc, path.as_str()),
    }
}

pub(crate) fn path(alloc: Global, row: &Row<'_>) -> Result<String, RowFault> {
    let path = BootPath::read(alloc, row.text(0)?)?;
    Ok(path_text(alloc, row.call, &path)?)
}

pub(crate) fn intent(alloc: Global) -> Result<String, RowFault> {
    let path = FilePath::intent(alloc)?;
    Ok(String::from_str(alloc, path.as_str())?)
}

// The text of the path that an intent names with these bytes, or `none`.
fn named_text(alloc: Global, bytes: &[u8]) -> Result<String, AllocError> {
    match &BootPath::from_bytes(alloc, bytes)? {
        Some(path) => String::from_str(alloc, path.as_str()),
        None => text_or_none(alloc, None),
    }
}

pub(crate) fn tell_named(alloc: Global, row: &Row<'_>) -> Result<String, RowFault> {
    Ok(named_text(alloc, row.bytes(0)?)?)
}

// The path beside that path, or below it.
fn join_path(
    alloc: Global,
    call: &str,
    path: &BootPath,
    name: &str,
) -> Result<BootPath, PathFault> {
    match call {
        "sibling" => path.sibling(alloc, name),
        _ => BootPath::under(alloc, path, name),
    }
}

fn join_text(alloc: Global, call: &str, path: &str, name: &str) -> Result<String, PathFault> {
    let path = BootPath::read(alloc, path)?;
    let joined = join_path(alloc, call, &path, name)?;
    Ok(String::from_str(alloc, joined.as_str())?)
}

/// A path beside another one, or below it.
pub(crate) fn other_path(alloc: Global, row: &Row<'_>) -> Result<String, RowFault> {
    Ok(join_text(alloc, row.call, row.text(0)?, row.text(1)?)?)
}

// The path of a file, and where it is written first.
fn target_text(alloc: Global, target: &Target) -> Result<String, RowFault> {
    let texts = [target.path.as_str(), target.temp.as_str()];
    Ok(texts.join(alloc, "; ")?)
}

pub(crate) fn target(alloc: Global, row: &Row<'_>) -> Result<String, RowFault> {
    let target = Target::of(alloc, BootPath::read(alloc, row.text(0)?)?)?;
    target_text(alloc, &target)
}

pub(crate) fn name(alloc: Global, row: &Row<'_>) -> Result<String, RowFault> {
    let name = FileName::read(alloc, row.text(0)?)?;
    Ok(String::from_str(alloc, name.as_str())?)
}

// The path of a temporary file, or `none` where the name is none of one.
fn temp_text(alloc: Global, folder: &BootPath, name: &FileName) -> Result<String, AllocError> {
    match &TempPath::leftover(alloc, folder, name)? {
        Some(temp) => String::from_str(alloc, temp.as_str()),
        None => text_or_none(alloc, None),
    }
}

fn leftover_text(alloc: Global, folder: &str, name: &str) -> Result<String, PathFault> {
    let folder = BootPath::read(alloc, folder)?;
    let name = FileName::read(alloc, name)?;
    Ok(temp_text(alloc, &folder, &name)?)
}

pub(crate) fn leftover(alloc: Global, row: &Row<'_>) -> Result<String, RowFault> {
    Ok(leftover_text(alloc, row.text(0)?, row.text(1)?)?)
}
