//! What a file has, told whole: by a sample, as a short text, or by the digest of its bytes.
use crate::replies::push_escaped;
use crate::samples::{Sample, sample_of};
use pcr_values::{Bank, Digest};
use std::alloc::{AllocError, Global};

/// How many bytes a file has at most that is told as a text.
const TEXT_LIMIT: usize = 80;

// The bytes between quotes, with `\n` for a newline.
fn quote_bytes(alloc: Global, bytes: &[u8]) -> Result<String, AllocError> {
    let mut text = String::from_str(alloc, "\"")?;
    for byte in bytes {
        match *byte {
            b'\n' => text.push_str("\\n")?,
            other => push_escaped(alloc, &mut text, other)?,
        }
    }
    text.push_str("\"")?;
    Ok(text)
}

// How many bytes they are, and their digest.
fn digest_text(alloc: Global, bytes: &[u8]) -> Result<String, AllocError> {
    let digest = hex::encode(alloc, Digest::of(Bank::Sha256, bytes).bytes())?;
    let count = bytes.len();
    format!(in alloc; "{count} bytes, sha256 {digest}")
}

/// What a file with these bytes has: what the sample has that has the same, or a text, or the bytes of a digest.
pub(crate) fn content_text(
    alloc: Global,
    samples: &[Sample],
    bytes: &[u8],
) -> Result<String, AllocError> {
    match sample_of(samples, bytes) {
        Some(sample) => format!(in alloc; "= {sample}"),
        None if bytes.len() <= TEXT_LIMIT => quote_bytes(alloc, bytes),
        None => digest_text(alloc, bytes),
    }
}
