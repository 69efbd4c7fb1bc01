//! How bytes are written in rows: ASCII as it is, but for `\n`, `\r`, `\t`, `\\` and `\xHH`. `{COUNT*PIECE}` stands for
//! a piece that is there so many times.
ghost use Rattle.std.specs.Prelude.{◌<◌, length, IfOk};

use crate::fault::RowFault;
use std::alloc::{AllocError, Global};
use std::fmt::Write;
use std::str;

/// The longest run of a byte that is told whole.
const LONGEST_RUN: usize = 40;

/// The bytes that an argument writes.
pub(crate) fn bytes_of(alloc: Global, argument: &str) -> Result<Vec<u8>, RowFault> {
    let argument = repeat_pieces(alloc, argument)?;
    let mut bytes = Vec::new(alloc);
    let mut rest = argument.as_bytes();
    while !rest.is_empty() {
        let (byte, behind) = first_byte(rest)?;
        bytes.push(byte)?;
        rest = behind;
    }
    Ok(bytes)
}

// The argument with each piece as often as it says.
fn repeat_pieces(alloc: Global, argument: &str) -> Result<String, RowFault> {
    let mut text = String::new(alloc);
    for part in argument.split('{') {
        add_part(&mut text, part)?;
    }
    Ok(text)
}

// Adds a part of an argument, which begins with a piece to be repeated where a `}` stands in it.
fn add_part(text: &mut String, part: &str) -> Result<(), RowFault> {
    match part.split_once('}') {
        Some((repeat, rest)) => add_repeat(text, repeat, rest),
        None => Ok(text.push_str(part)?),
    }
}

// Adds the piece of `COUNT*PIECE` so many times, and the rest.
fn add_repeat(text: &mut String, repeat: &str, rest: &str) -> Result<(), RowFault> {
    let Some((count, piece)) = repeat.split_once('*') else {
        return Err(RowFault::Unclear);
    };
    for _ in 0..number_of(count)? {
        text.push_str(piece)?;
    }
    text.push_str(rest)?;
    Ok(())
}

/// The number that a text writes.
pub(crate) fn number_of(text: &str) -> Result<u32, RowFault> {
    match text.parse() {
        Ok(number) => Ok(number),
        Err(_) => Err(RowFault::Unclear),
    }
}

// The first byte that a text writes, and what stands behind it.
fn first_byte(text: &[u8]) -> Result<(u8, &[u8]), RowFault>
    ensures { IfOk result (λ found. length found.1.now < length text.now) }
{
    match text {
        [b'\\', b'x', high, low, rest @ ..] => Ok((byte_of(&[*high, *low])?, rest)),
        [b'\\', letter, rest @ ..] => Ok((escaped_byte(*letter)?, rest)),
        [b'\\'] | [] => Err(RowFault::Unclear),
        [byte, rest @ ..] => Ok((*byte, rest)),
    }
}

// The byte of two hexadecimal digits.
fn byte_of(digits: &[u8]) -> Result<u8, RowFault> {
    let Ok(digits) = str::from_utf8(digits) else {
        return Err(RowFault::Unclear);
    };
    match u8::from_str_radix(digits, 16) {
        Ok(byte) => Ok(byte),
        Err(_) => Err(RowFault::Unclear),
    }
}

// The byte that a letter behind a backslash stands for.
fn escaped_byte(letter: u8) -> Result<u8, RowFault> {
    match letter {
        b'n' => Ok(b'\n'),
        b'r' => Ok(b'\r'),
        b't' => Ok(b'\t'),
        b'\\' => Ok(b'\\'),
        _ => Err(RowFault::Unclear),
    }
}

/// The bytes as they are written. Quotes stand for themselves, and long runs of a byte are told once.
pub(crate) fn write_bytes(alloc: Global, bytes: &[u8]) -> Result<String, AllocError> {
    let mut text = String::new(alloc);
    for run in bytes.chunk_by(|left, right| left == right) {
        add_run(&mut text, run)?;
    }
    Ok(text)
}

fn add_run(text: &mut String, run: &[u8]) -> Result<(), AllocError> {
    let count = run.len();
    if count > LONGEST_RUN {
        write!(text, "{{{count}*")?;
        add_bytes(text, &run[..1])?;
        return text.push('}');
    }
    add_bytes(text, run)
}

fn add_bytes(text: &mut String, bytes: &[u8]) -> Result<(), AllocError> {
    for byte in bytes {
        match *byte {
            b'"' => text.push('"')?,
            b'\'' => text.push('\'')?,
            _ => write!(text, "{}", byte.escape_ascii())?,
        }
    }
    Ok(())
}
