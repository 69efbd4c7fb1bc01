//! Names, command lines, initrds and SBAT texts of parts.
use crate::fault::RowFault;
use crate::words::{bytes_of, number, quote_bytes, split_at_mark};
use boot_base::BootPath;
use std::alloc::{AllocError, Global};
use uki_parts::{Piece, SectionName, clean_cmdline, join_initrds, merge_sbat, pieces_length};

/// The name that a user may give with this text.
pub(crate) fn name_text(alloc: Global, text: &str) -> Result<String, AllocError> {
    match SectionName::read(text) {
        Some(name) => quote_bytes(alloc, name.bytes()),
        None => String::from_str(alloc, "none"),
    }
}

/// The command line as it is measured.
pub(crate) fn cmdline_text(alloc: Global, text: &str) -> Result<String, RowFault> {
    let text = String::from_utf8_lossy(alloc, &bytes_of(alloc, text)?)?;
    Ok(quote_bytes(alloc, &clean_cmdline(alloc, text.as_str())?)?)
}

// The bytes that pieces stand for, `f` for each of a file's.
fn bytes_of_pieces(alloc: Global, pieces: &[Piece]) -> Result<Vec<u8>, AllocError> {
    let mut bytes = Vec::new(alloc);
    for piece in pieces {
        let byte = if matches!(piece, Piece::File { .. }) {
            b'f'
        } else {
            0
        };
        let length = bytes.len().saturating_add(piece.length() as usize);
        bytes.resize(length, byte)?;
    }
    Ok(bytes)
}

// How many bytes there are, and which.
fn count_bytes(alloc: Global, count: u64, bytes: &[u8]) -> Result<String, AllocError> {
    let text = quote_bytes(alloc, bytes)?;
    format!(in alloc; "{count} bytes: {text}")
}

// An initrd of that size.
fn initrd_of(alloc: Global, size: &str) -> Result<Piece, RowFault> {
    let size = number(size)?;
    let path = BootPath::read(alloc, "initrd")?;
    Ok(Piece::File { path, size })
}

fn initrds_of(alloc: Global, sizes: &str) -> Result<Vec<Piece>, RowFault> {
    let mut files = Vec::new(alloc);
    for size in sizes.split_whitespace() {
        files.push(initrd_of(alloc, size)?)?;
    }
    Ok(files)
}

// The bytes of initrds in one section.
fn joined_text(alloc: Global, files: Vec<Piece>) -> Result<String, AllocError> {
    let pieces = join_initrds(alloc, files)?;
    let bytes = bytes_of_pieces(alloc, &pieces)?;
    count_bytes(alloc, pieces_length(&pieces), &bytes)
}

/// Initrds of these sizes in one section.
pub(crate) fn initrds_text(alloc: Global, rest: &str) -> Result<String, RowFault> {
    Ok(joined_text(alloc, initrds_of(alloc, rest)?)?)
}

fn merge_bytes(alloc: Global, stub: &[u8], given: &[u8]) -> Result<String, AllocError> {
    let merged = merge_sbat(alloc, stub, b"", given)?;
    count_bytes(alloc, merged.len() as u64, &merged)
}

/// The merged SBAT text of a stub, a kernel without one and what is given.
pub(crate) fn merge_text(alloc: Global, rest: &str) -> Result<String, RowFault> {
    let (stub, given) = split_at_mark(rest, '|')?;
    let stub = bytes_of(alloc, stub)?;
    let given = bytes_of(alloc, given)?;
    Ok(merge_bytes(alloc, &stub, &given)?)
}
