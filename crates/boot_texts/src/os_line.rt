//! The lines of an os-release text.
ghost use Rattle.std.specs.Prelude.{◌≡◌, ◌↔◌, List, ℕ, IfOk, Some, None};
ghost use Rattle.std.specs.List.{list_all};
ghost use Rattle.boot_texts.specs.KeyValues.{IsLastValue, LacksKey, last_value};
ghost use Rattle.boot_texts.specs.OsLines.{OsLine, is_key, is_key_byte, is_key_start, os_reading};
ghost use Rattle.boot_texts.specs.OsRelease.{os_lines, os_pairs};

use crate::front::length_before;
use crate::os_value::read_value;
use boot_base::Bytes;
use std::alloc::{AllocError, Global};

/// A line is read as what os-release(5) has it mean, in one way at most, and the value of a key is that of the
/// last line that assigns one.
pub fn os_lines_are_read_in_one_way()
    ensures reading { (line key value : List ℕ) → (os_reading line ≡ Some (key, value)) ↔ OsLine line key value }
    ensures once { (line key value other_key other : List ℕ) → OsLine line key value → OsLine line other_key other
        → (key ≡ other_key) × (value ≡ other) }
    ensures last { (text key value : List ℕ) → (last_value key (os_pairs text) ≡ Some value)
        ↔ IsLastValue OsLine key (os_lines text) value }
    ensures none { (text key : List ℕ) → (last_value key (os_pairs text) ≡ None) ↔ LacksKey OsLine key (os_lines text) }
{}

/// The key and the value of a line that is an assignment.
pub(crate) fn read_line(alloc: Global, line: &[u8]) -> Result<Option<(Bytes, Bytes)>, AllocError>
    ensures { IfOk result (λ found. found ≡ os_reading line.now) }
{
    let end = length_before(line, b'=');
    if end >= line.len() || !is_key(&line[..end]) {
        return Ok(None);
    }
    match read_value(alloc, &line[end + 1..])? {
        Some(value) => Ok(Some((Bytes::of(alloc, &line[..end])?, value))),
        None => Ok(None),
    }
}

fn is_key(text: &[u8]) -> bool
    ensures { result ≡ is_key text.now }
{
    match text.split_first() {
        Some((first, rest)) => is_key_start(*first) && are_key_bytes(rest),
        None => false,
    }
}

fn is_key_start(byte: u8) -> bool
    ensures { result ≡ is_key_start byte }
{
    byte.is_ascii_alphabetic() || byte == b'_'
}

fn are_key_bytes(text: &[u8]) -> bool
    ensures { result ≡ list_all is_key_byte text.now }
{
    text.iter().all(|byte| is_key_byte(*byte))
}

fn is_key_byte(byte: u8) -> bool
    ensures { result ≡ is_key_byte byte }
{
    byte.is_ascii_alphanumeric() || byte == b'_'
}
