//! The parts of a story's line.
use crate::fault::StoryFault;
use std::alloc::Global;

/// The two parts of a text before and behind its first space.
pub(crate) fn split_at_space(text: &str) -> Result<(&str, &str), StoryFault> {
    text.split_once(' ').ok_or(StoryFault::Unclear)
}

/// The two parts of a text before and behind its first space. If it has none the second part is empty.
pub(crate) fn parted_or_whole(text: &str) -> (&str, &str) {
    match text.split_once(' ') {
        Some(parts) => parts,
        None => (text, ""),
    }
}

pub(crate) fn number(text: &str) -> Result<u64, StoryFault> {
    match text.parse() {
        Ok(number) => Ok(number),
        Err(_) => Err(StoryFault::Unclear),
    }
}

// The byte of two hexadecimal digits, and the text behind them.
fn read_digits(text: &str) -> Result<(u8, &str), StoryFault> {
    let Some((digits, rest)) = text.split_at_checked(2) else {
        return Err(StoryFault::Unclear);
    };
    match u8::from_str_radix(digits, 16) {
        Ok(byte) => Ok((byte, rest)),
        Err(_) => Err(StoryFault::Unclear),
    }
}

// The byte that stands behind a backslash, and the text behind it.
fn read_escape(text: &str) -> Result<(u8, &str), StoryFault> {
    if let Some(rest) = text.strip_prefix('n') {
        return Ok((b'\n', rest));
    }
    match text.strip_prefix('x') {
        Some(digits) => read_digits(digits),
        None => Err(StoryFault::Unclear),
    }
}

/// The bytes of a text in which `\n` is a newline, and `\x` with two digits the byte of that number.
pub(crate) fn unescape(alloc: Global, text: &str) -> Result<Vec<u8>, StoryFault> {
    let mut pieces = text.split('\\');
    let mut bytes = pieces.next().unwrap_or("").as_bytes().to_vec(alloc)?;
    for piece in pieces {
        let (byte, rest) = read_escape(piece)?;
        bytes.push(byte)?;
        bytes.extend_from_slice(rest.as_bytes())?;
    }
    Ok(bytes)
}
