//! The values of assignments.
ghost use Rattle.std.specs.Prelude.{◌≡◌, ◌<◌, ◌∷◌, [], length, IfOk, IfSome, MatchOption, None};
ghost use Rattle.std.specs.List.{list_all};
ghost use Rattle.boot_texts.specs.OsLines.{behind, double_reading, is_bare, is_escapable, single_reading, value_reading};

use crate::front::length_before;
use boot_base::Bytes;
use std::alloc::{AllocError, Global};

/// The value that the text behind an `=` stands for: nothing, a run of bytes that stand for themselves, or a
/// text in single or double quotes.
pub(crate) fn read_value(alloc: Global, text: &[u8]) -> Result<Option<Bytes>, AllocError>
    ensures { IfOk result (λ found. found ≡ value_reading text.now) }
{
    let Some((first, rest)) = text.split_first() else {
        return Ok(Some(Bytes::of(alloc, text)?));
    };
    if *first == b'\'' {
        return read_single(alloc, rest);
    }
    if *first == b'"' {
        return read_double(alloc, rest);
    }
    if !is_bare_run(text) {
        return Ok(None);
    }
    Ok(Some(Bytes::of(alloc, text)?))
}

fn is_bare_run(text: &[u8]) -> bool
    ensures { result ≡ list_all is_bare text.now }
{
    text.iter().all(|byte| is_bare(*byte))
}

// The byte stands for itself without quotes.
fn is_bare(byte: u8) -> bool
    ensures { result ≡ is_bare byte }
{
    !(byte == b' '
        || byte == b'\t'
        || byte == b'"'
        || byte == b'\''
        || byte == b'\\'
        || byte == b'$'
        || byte == b'`')
}

// The value before the closing single quote, which ends the text.
fn read_single(alloc: Global, text: &[u8]) -> Result<Option<Bytes>, AllocError>
    ensures { IfOk result (λ found. found ≡ single_reading text.now) }
{
    let end = length_before(text, b'\'');
    if end + 1 == text.len() {
        Ok(Some(Bytes::of(alloc, &text[..end])?))
    } else {
        Ok(None)
    }
}

// The value before the closing double quote, which ends the text.
fn read_double(alloc: Global, text: &[u8]) -> Result<Option<Bytes>, AllocError>
    ensures { IfOk result (λ found. found ≡ double_reading text.now) }
{
    let mut value = Vec::new(alloc);
    let mut rest = text;
    while rest != b"\"".as_slice() {
        let Some((meant, after)) = first_piece(rest) else {
            return Ok(None);
        };
        value.extend_from_slice(meant)?;
        rest = after;
    }
    Ok(Some(Bytes::from(value)))
}

// What the first piece of a text before a closing double quote stands for, and what is behind the piece.
fn first_piece(text: &[u8]) -> Option<(&[u8], &[u8])>
    requires { text.now ≡ 34 ∷ [] → ⊥ }
    ensures value { MatchOption result (double_reading text.now ≡ None)
        (λ piece. double_reading text.now ≡ behind piece.0.now (double_reading piece.1.now)) }
    ensures shorter { IfSome result (λ piece. length piece.1.now < length text.now) }
{
    let (first, rest) = text.split_first()?;
    if *first == b'"' {
        return None;
    }
    if *first == b'\\' {
        if let Some((next, after)) = rest.split_first() {
            let meant = if is_escapable(*next) {
                &rest[..1]
            } else {
                &text[..2]
            };
            return Some((meant, after));
        }
    }
    Some((&text[..1], rest))
}

// A backslash between double quotes escapes the byte.
fn is_escapable(byte: u8) -> bool
    ensures { result ≡ is_escapable byte }
{
    byte == b'"' || byte == b'$' || byte == b'\\' || byte == b'`'
}
