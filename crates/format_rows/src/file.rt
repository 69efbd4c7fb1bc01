//! What stands in the file.
use crate::case::Case;
use crate::fault::RowFault;
use crate::image::field_of_word;
use crate::words::{number, quote_bytes, split_at_mark};
use boot_commands::demo_image;
use pcr_values::{Bank, Digest};
use sample_images::field_of;
use std::alloc::Global;

/// From now on the file is an image that a demonstration begins with.
pub(crate) fn set_demo(alloc: Global, case: &mut Case, rest: &str) -> Result<(), RowFault> {
    let image = demo_image(alloc, number(rest)?)?;
    case.set_file(image)
}

/// Adds so many bytes to the file.
pub(crate) fn fill(alloc: Global, case: &mut Case, rest: &str) -> Result<(), RowFault> {
    let (count, byte) = split_at_mark(rest, ' ')?;
    let byte = u8::try_from(number(byte)?).ok().ok_or(RowFault::Unclear)?;
    let mut bytes = case.file().to_vec(alloc)?;
    let length = bytes.len().saturating_add(number(count)? as usize);
    bytes.resize(length, byte)?;
    case.set_file(bytes)
}

/// The numbers of fields.
pub(crate) fn fields_text(alloc: Global, case: &Case, rest: &str) -> Result<String, RowFault> {
    let mut text = String::new(alloc);
    for word in rest.split_whitespace() {
        if !text.is_empty() {
            text.push_str("\n")?;
        }
        let value = field_of(case.file(), field_of_word(word)?);
        write!(text, "{word}={value}")?;
    }
    Ok(text)
}

// So many bytes of the file from a place on.
fn range_of<'a>(case: &'a Case, rest: &str) -> Result<&'a [u8], RowFault> {
    let (place, count) = split_at_mark(rest, ' ')?;
    let place = number(place)? as usize;
    let end = place.saturating_add(number(count)? as usize);
    case.file().get(place..end).ok_or(RowFault::Unclear)
}

pub(crate) fn bytes_text(alloc: Global, case: &Case, rest: &str) -> Result<String, RowFault> {
    Ok(quote_bytes(alloc, range_of(case, rest)?)?)
}

pub(crate) fn sha256_text(alloc: Global, case: &Case, rest: &str) -> Result<String, RowFault> {
    let digest = Digest::of(Bank::Sha256, range_of(case, rest)?);
    Ok(hex::encode(alloc, digest.bytes())?)
}
