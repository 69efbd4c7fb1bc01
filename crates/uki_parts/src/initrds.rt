//! Several initrds in one section.

ghost use Rattle.std.specs.Prelude.{◌≡◌, ◌+◌, ◌-◌, ◌*◌, ◌≤◌, ◌<◌, ◌++◌, length, map, IfOk, OnOk, flat_map};
ghost use Rattle.uki_parts.specs.Pieces.{piece_length, total_length};
ghost use Rattle.uki_parts.specs.Initrds.{joined_initrds, joined_length, padded_piece, padding_of};

use crate::piece::Piece;
use std::alloc::{AllocError, Global};

/// Initrds one behind the other, as the kernel unpacks them (Linux, initramfs buffer format): one is taken as it is;
/// of several each is padded with zeros to a multiple of four bytes.
pub fn join_initrds(alloc: Global, files: Vec<Piece>) -> Result<Vec<Piece>, AllocError>
    ensures exact { IfOk result (λ joined. joined.items ≡ joined_initrds files.items) }
    ensures length { IfOk result (λ joined. total_length joined.items ≡ joined_length (map piece_length files.items)) }
    ensures bound { IfOk result (λ joined. total_length joined.items
        ≤ total_length files.items + 3 * length files.items) }
{
    if files.len() <= 1 {
        return Ok(files);
    }
    join_padded(alloc, files)
}

// The initrds one behind the other, each padded.
fn join_padded(alloc: Global, files: Vec<Piece>) -> Result<Vec<Piece>, AllocError>
    ensures { IfOk result (λ joined. joined.items ≡ flat_map padded_piece files.items) }
{
    let mut joined = Vec::new(alloc);
    for file in files {
        append_padded(&mut joined, file)?;
    }
    Ok(joined)
}

// Puts an initrd behind the others, and zeros behind it where it doesn't end at a multiple of four bytes.
fn append_padded(joined: &mut Vec<Piece>, file: Piece) -> Result<(), AllocError>
    ensures { OnOk result (joined.new.items ≡ joined.old.items ++ padded_piece file) }
{
    let padding = padding_of(file.length());
    joined.push(file)?;
    if padding > 0 {
        joined.push(Piece::Zeros(padding))?;
    }
    Ok(())
}

// How many bytes a length lacks to a multiple of four.
fn padding_of(length: u64) -> u64
    ensures { result ≡ padding_of length }
{
    (4 - length % 4) % 4
}
