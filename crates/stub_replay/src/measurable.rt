//! A part that is to be measured.
ghost use Rattle.std.specs.Prelude.{◌≡◌, ◌-◌, ◌^◌, ◌++◌, OnErr, OnOk, length, min};
ghost use Rattle.stub_replay.specs.Parts.{IsPlaced, content_length, given_part};

use boot_base::BootPath;
use pe_reader::LoadedRange;
use std::alloc::AllocError;
use uki_parts::{Piece, pieces_length};

/// Where the bytes of a part come from.
#[derive(Clone, Copy, Debug)]
pub enum Content<'a> {
    /// These pieces, one behind the other.
    Pieces(&'a [Piece]),
    /// These bytes.
    Bytes(&'a [u8]),
    /// What a loader puts in memory for a section of the file at a path.
    Loaded {
        path: &'a BootPath,
        range: LoadedRange,
    },
}

/// A part that a stub measures: the name of its section, and where its bytes come from.
#[derive(Clone, Copy, Debug)]
pub struct Measurable<'a> {
    /// The section's name, without a NUL.
    pub name: &'a [u8],
    /// Its bytes.
    pub content: Content<'a>,
}

/// Puts the part of that name behind the others, where its content is given.
///
/// # Errors
///
/// Only where there is no memory for it; then the parts are as before.
pub fn push_part<'a>(
    parts: &mut Vec<Measurable<'a>>,
    name: &'a [u8],
    content: Option<Content<'a>>,
) -> Result<(), AllocError>
    ensures ok { OnOk result (parts.new.items ≡ parts.old.items ++ given_part name.entry content.entry) }
    ensures err { OnErr result (parts.new.items ≡ parts.old.items) }
{
    match content {
        None => Ok(()),
        Some(content) => {
            parts.push(Measurable { name, content })?;
            Ok(())
        }
    }
}

/// How many bytes the content has, or the greatest u64 where they are more. It takes no memory.
pub(crate) fn content_length(content: &Content) -> u64
    requires { IsPlaced content.now }
    ensures { result ≡ min (content_length content.now) (2 ^ 64 - 1) }
{
    match *content {
        Content::Pieces(pieces) => pieces_length(pieces),
        Content::Bytes(bytes) => count(bytes),
        Content::Loaded { range, .. } => range.length + range.zeros,
    }
}

// How many bytes these are: a slice never has more than a u64 counts.
fn count(bytes: &[u8]) -> u64
    ensures { result ≡ min (length bytes.now) (2 ^ 64 - 1) }
{
    bytes.len() as u64
}
