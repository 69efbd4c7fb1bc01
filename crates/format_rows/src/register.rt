//! Digests and registers of banks, and phase paths.
use crate::fault::RowFault;
use crate::words::{bank_of, bytes_of, quote_bytes, split_at_mark};
use pcr_values::{Bank, DataHash, Digest, Pcr, PhasePath, append_heading};
use std::alloc::Global;

// The bank that a text names, and what stands behind it.
fn split_bank(rest: &str) -> Result<(Bank, &str), RowFault> {
    let (bank, text) = split_at_mark(rest, ':')?;
    Ok((bank_of(bank)?, text))
}

/// The digest of bytes.
pub(crate) fn digest_text(alloc: Global, rest: &str) -> Result<String, RowFault> {
    let (bank, text) = split_bank(rest)?;
    let digest = Digest::of(bank, &bytes_of(alloc, text)?);
    Ok(hex::encode(alloc, digest.bytes())?)
}

/// The digest of pieces.
pub(crate) fn pieces_text(alloc: Global, rest: &str) -> Result<String, RowFault> {
    let (bank, texts) = split_bank(rest)?;
    let mut hash = DataHash::new(bank);
    for text in texts.split('|') {
        hash.update(&bytes_of(alloc, text)?);
    }
    Ok(hex::encode(alloc, hash.finish().bytes())?)
}

/// A register that begins as zeros, after these bytes in turn.
pub(crate) fn extend_text(alloc: Global, rest: &str) -> Result<String, RowFault> {
    let (bank, texts) = split_bank(rest)?;
    let mut pcr = Pcr::zero(bank);
    for text in texts.split('|') {
        pcr = pcr.extend_data(&bytes_of(alloc, text)?);
    }
    Ok(hex::encode(alloc, pcr.bytes())?)
}

/// A register that begins as zeros, after the digest with these bytes.
pub(crate) fn extend_digest_text(alloc: Global, rest: &str) -> Result<String, RowFault> {
    let (bank, text) = split_bank(rest)?;
    let digest = Digest::read(bank, &bytes_of(alloc, text)?).ok_or(RowFault::Unclear)?;
    let pcr = Pcr::zero(bank).extend_digest(&digest);
    Ok(hex::encode(alloc, pcr.bytes())?)
}

/// The heading of a phase path.
pub(crate) fn heading_text(alloc: Global, path: &str) -> Result<String, RowFault> {
    let mut heading = Vec::new(alloc);
    append_heading(&mut heading, &PhasePath::read(alloc, path)?)?;
    Ok(quote_bytes(alloc, &heading)?)
}
