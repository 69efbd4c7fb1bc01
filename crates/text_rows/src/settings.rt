//! Calls that read texts of settings.
use crate::fault::RowFault;
use crate::row::Row;
use boot_base::Bytes;
use boot_texts::{OsRelease, TextLines, Type1};
use std::alloc::{AllocError, Global};

/// Adds a name and its value, if it has one, before a `;`.
pub(crate) fn add_value(
    told: &mut Vec<u8>,
    name: &str,
    value: Option<&[u8]>,
) -> Result<(), AllocError> {
    told.extend_from_slice(name.as_bytes())?;
    match value {
        Some(value) => {
            told.push(b'=')?;
            told.extend_from_slice(value)?;
        }
        None => told.extend_from_slice(b" is absent")?,
    }
    told.push(b';')?;
    Ok(())
}

// Adds a line before a `;`.
fn add_line(told: &mut Vec<u8>, line: &[u8]) -> Result<(), AllocError> {
    told.extend_from_slice(line)?;
    told.push(b';')?;
    Ok(())
}

fn line_list(alloc: Global, text: &[u8]) -> Result<Vec<u8>, AllocError> {
    let mut told = Vec::new(alloc);
    for line in TextLines::of(text) {
        add_line(&mut told, line)?;
    }
    Ok(told)
}

pub(crate) fn lines(alloc: Global, row: &Row<'_>) -> Result<Vec<u8>, RowFault> {
    Ok(line_list(alloc, row.bytes(0)?)?)
}

// The values of keys that are parted by commas.
fn value_list(alloc: Global, release: &OsRelease, keys: &str) -> Result<Vec<u8>, AllocError> {
    let mut told = Vec::new(alloc);
    for key in keys.split(',') {
        add_value(&mut told, key, release.get(key))?;
    }
    Ok(told)
}

pub(crate) fn values(alloc: Global, row: &Row<'_>) -> Result<Vec<u8>, RowFault> {
    let keys = row.text(0)?;
    let release = OsRelease::read(alloc, row.bytes(1)?)?;
    Ok(value_list(alloc, &release, keys)?)
}

fn add_release(told: &mut Vec<u8>, release: &OsRelease) -> Result<(), AllocError> {
    add_value(told, "title", release.title())?;
    add_value(told, "version", release.version())?;
    add_value(told, "sort key", release.sort_key())
}

pub(crate) fn release(alloc: Global, row: &Row<'_>) -> Result<Vec<u8>, RowFault> {
    let release = OsRelease::read(alloc, row.bytes(0)?)?;
    let mut told = Vec::new(alloc);
    add_release(&mut told, &release)?;
    Ok(told)
}

// Adds each value behind the key.
fn add_all(told: &mut Vec<u8>, key: &str, values: &[Bytes]) -> Result<(), AllocError> {
    for value in values {
        add_value(told, key, Some(value.as_slice()))?;
    }
    Ok(())
}

// What an entry file says of the system that it boots.
fn add_system(told: &mut Vec<u8>, entry: &Type1) -> Result<(), AllocError> {
    add_all(told, "title", entry.title.as_slice())?;
    add_all(told, "version", entry.version.as_slice())?;
    add_all(told, "machine-id", entry.machine_id.as_slice())?;
    add_all(told, "sort-key", entry.sort_key.as_slice())
}

// What it says of the files of a kernel.
fn add_kernel(told: &mut Vec<u8>, entry: &Type1) -> Result<(), AllocError> {
    add_all(told, "linux", entry.linux.as_slice())?;
    add_all(told, "efi", entry.efi.as_slice())?;
    add_all(told, "initrd", entry.initrds.as_slice())?;
    add_all(told, "options", entry.options.as_slice())
}

// What it says of the machine that it is for.
fn add_machine(told: &mut Vec<u8>, entry: &Type1) -> Result<(), AllocError> {
    add_all(told, "devicetree", entry.devicetree.as_slice())?;
    add_all(told, "devicetree-overlay", entry.overlay.as_slice())?;
    add_all(told, "architecture", entry.architecture.as_slice())
}

fn entry_text(alloc: Global, entry: &Type1) -> Result<Vec<u8>, AllocError> {
    let mut told = Vec::new(alloc);
    add_system(&mut told, entry)?;
    add_kernel(&mut told, entry)?;
    add_machine(&mut told, entry)?;
    Ok(told)
}

pub(crate) fn entry(alloc: Global, row: &Row<'_>) -> Result<Vec<u8>, RowFault> {
    let entry = Type1::read(alloc, row.bytes(0)?)?;
    let told = entry_text(alloc, &entry);
    drop(entry);
    Ok(told?)
}
