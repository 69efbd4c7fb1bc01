//! The lines of an entry file, which loader.conf has too, and the values of their keys.
ghost use Rattle.std.specs.Prelude.{◌≡◌, ◌≤◌, length, option_copied, option_map};
ghost use Rattle.std.specs.List.{position_or_len, prefix_len};
ghost use Rattle.boot_texts.specs.EntryLines.{entry_reading, entry_value, is_gap};
ghost use Rattle.boot_texts.specs.KeyValues.{given_value};

use crate::text_lines::TextLines;

// The key and the value of a line that has both.
fn read_line(line: &[u8]) -> Option<(&[u8], &[u8])>
    ensures { option_map (λ pair. (pair.0.now, pair.1.now)) result ≡ entry_reading line.now }
{
    let (key, rest) = line.split_at(key_length(line));
    let value = &rest[gap_length(rest)..];
    if key.is_empty() || value.is_empty() {
        return None;
    }
    Some((key, value))
}

// How many bytes stand before the first space or tab.
fn key_length(line: &[u8]) -> usize
    ensures value { result ≡ position_or_len is_gap line.now }
    ensures bound { result ≤ length line.now }
{
    line.iter().take_while(|byte| !is_gap(**byte)).count()
}

// How many spaces and tabs stand in front.
fn gap_length(rest: &[u8]) -> usize
    ensures value { result ≡ prefix_len is_gap rest.now }
    ensures bound { result ≤ length rest.now }
{
    rest.iter().take_while(|byte| is_gap(**byte)).count()
}

fn is_gap(byte: u8) -> bool
    ensures { result ≡ is_gap byte }
{
    byte == b' ' || byte == b'\t'
}

/// The value that the line gives the key. It takes no memory.
pub fn value_in<'a>(line: &'a [u8], key: &str) -> Option<&'a [u8]>
    ensures { option_copied result ≡ given_value key.now (entry_reading line.now) }
{
    let (line_key, value) = read_line(line)?;
    if line_key == key.as_bytes() {
        Some(value)
    } else {
        None
    }
}

/// The value of the key in the last line that has one. It takes no memory.
pub fn last_value<'a>(text: &'a [u8], key: &str) -> Option<&'a [u8]>
    ensures { option_copied result ≡ entry_value key.now text.now }
{
    let mut found = None;
    for line in TextLines::of(text) {
        found = value_in(line, key).or(found);
    }
    found
}
