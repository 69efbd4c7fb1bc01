//! What the lines of an entry file give its keys.
ghost use Rattle.std.specs.Prelude.{◌≡◌, ◌↔◌, List, ℕ, IfOk, Some, None};
ghost use Rattle.boot_texts.specs.EntryLines.{EntryLine, entry_reading, entry_value, entry_values};
ghost use Rattle.boot_texts.specs.TextLines.{lines_of};
ghost use Rattle.boot_texts.specs.KeyValues.{AreAllValues, IsLastValue, LacksKey};

use crate::entry_line::{last_value, value_in};
use crate::text_lines::TextLines;
use boot_base::{Bytes, BytesList};
use std::alloc::{AllocError, Global};

/// A line is read as what the Boot Loader Specification has it mean, in one way at most. The value of a key is that
/// of the last line that has one, and the values of a key that may repeat are those of all lines, in order.
pub fn entry_lines_are_read_in_one_way()
    ensures reading { (line key value : List ℕ) → (entry_reading line ≡ Some (key, value)) ↔ EntryLine line key value }
    ensures once { (line key value other_key other : List ℕ) → EntryLine line key value
        → EntryLine line other_key other → (key ≡ other_key) × (value ≡ other) }
    ensures last { (text key value : List ℕ) → (entry_value key text ≡ Some value)
        ↔ IsLastValue EntryLine key (lines_of text) value }
    ensures none { (text key : List ℕ) → (entry_value key text ≡ None) ↔ LacksKey EntryLine key (lines_of text) }
    ensures all { (text key : List ℕ) (values : List (List ℕ)) → (entry_values key text ≡ values)
        ↔ AreAllValues EntryLine key (lines_of text) values }
{}

/// A copy of the value of the key in the last line that has one.
pub(crate) fn last_copy(alloc: Global, text: &[u8], key: &str) -> Result<Option<Bytes>, AllocError>
    ensures { IfOk result (λ found. found ≡ entry_value key.now text.now) }
{
    match last_value(text, key) {
        Some(value) => Ok(Some(Bytes::of(alloc, value)?)),
        None => Ok(None),
    }
}

/// Copies of all values of the key, in order.
pub(crate) fn all_copies(alloc: Global, text: &[u8], key: &str) -> Result<BytesList, AllocError>
    ensures { IfOk result (λ values. values ≡ entry_values key.now text.now) }
{
    let mut values = BytesList::new(alloc);
    for line in TextLines::of(text) {
        if let Some(value) = value_in(line, key) {
            values.push(Bytes::of(alloc, value)?)?;
        }
    }
    Ok(values)
}
