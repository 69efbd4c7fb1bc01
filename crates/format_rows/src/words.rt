//! Numbers, bytes and banks as rows write them, and bytes as they are told.
use crate::fault::RowFault;
use pcr_values::Bank;
use std::alloc::{AllocError, Global};

/// A number, in decimal or behind `0x` in hex.
pub(crate) fn number(text: &str) -> Result<u64, RowFault> {
    let number = match text.strip_prefix("0x") {
        Some(digits) => u64::from_str_radix(digits, 16),
        None => text.parse(),
    };
    number.ok().ok_or(RowFault::Unclear)
}

/// A number of 32 bits.
pub(crate) fn short_number(text: &str) -> Result<u32, RowFault> {
    u32::try_from(number(text)?).ok().ok_or(RowFault::Unclear)
}

/// The two parts of a text before and behind the first mark.
pub(crate) fn split_at_mark(text: &str, mark: char) -> Result<(&str, &str), RowFault> {
    text.split_once(mark).ok_or(RowFault::Unclear)
}

// Adds the byte that a letter behind a backslash stands for, and the text behind that.
fn push_escaped(bytes: &mut Vec<u8>, text: &[u8]) -> Result<(), RowFault> {
    let [letter, rest @ ..] = text else {
        return Err(RowFault::Unclear);
    };
    bytes.push(escaped_byte(*letter)?)?;
    bytes.extend_from_slice(rest)?;
    Ok(())
}

// The byte that a letter behind a backslash stands for, as in C, and a space behind `s`.
fn escaped_byte(letter: u8) -> Result<u8, RowFault> {
    match letter {
        b'0' => Ok(0),
        b'a' => Ok(7),
        b's' => Ok(b' '),
        b't' => Ok(b'\t'),
        b'n' => Ok(b'\n'),
        b'v' => Ok(11),
        b'f' => Ok(12),
        b'r' => Ok(b'\r'),
        _ => Err(RowFault::Unclear),
    }
}

// Adds the bytes of a text without `*` and `+`.
fn push_text(bytes: &mut Vec<u8>, text: &str) -> Result<(), RowFault> {
    for (index, piece) in text.split('\\').enumerate() {
        if index == 0 {
            bytes.extend_from_slice(piece.as_bytes())?;
        } else {
            push_escaped(bytes, piece.as_bytes())?;
        }
    }
    Ok(())
}

// Adds the bytes of a text, as often as the number behind `*` says.
fn push_piece(bytes: &mut Vec<u8>, piece: &str) -> Result<(), RowFault> {
    let Some((text, count)) = piece.split_once('*') else {
        return push_text(bytes, piece);
    };
    for _ in 0..number(count)? {
        push_text(bytes, text)?;
    }
    Ok(())
}

/// The bytes that a text stands for.
pub(crate) fn bytes_of(alloc: Global, text: &str) -> Result<Vec<u8>, RowFault> {
    let mut bytes = Vec::new(alloc);
    for piece in text.split('+') {
        push_piece(&mut bytes, piece)?;
    }
    Ok(bytes)
}

/// The bytes as a text in quotes.
pub(crate) fn quote_bytes(alloc: Global, bytes: &[u8]) -> Result<String, AllocError> {
    let text = String::from_utf8_lossy(alloc, bytes)?;
    format!(in alloc; "{text:?}")
}

/// The bank of that name.
pub(crate) fn bank_of(name: &str) -> Result<Bank, RowFault> {
    match name {
        "sha1" => Ok(Bank::Sha1),
        "sha256" => Ok(Bank::Sha256),
        "sha384" => Ok(Bank::Sha384),
        "sha512" => Ok(Bank::Sha512),
        _ => Err(RowFault::Unclear),
    }
}
