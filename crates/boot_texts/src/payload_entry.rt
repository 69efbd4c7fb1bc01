//! The text of an entry whose kernel and initrds are payloads.
ghost use Rattle.std.specs.Prelude.{◌≡◌, ◌++◌, codes, IfOk, OnOk, map};
ghost use Rattle.std.specs.List.{list_all};
ghost use Rattle.boot_texts.specs.EntryText.{AreEntryFields, ReadsBack, entry_text, head_passes, is_field, is_field_byte, is_hex_lower, is_no_space, is_payload_name, last_passes, line_if};
ghost use Rattle.boot_texts.specs.FileLines.{key_line, text_of_lines};

use crate::conf_change::add_line;
use crate::entry::Type1;
use boot_base::{Bytes, BytesList};
use std::alloc::{AllocError, Global};

/// The most bytes of a value that is written.
const FIELD_LIMIT: usize = 1024;

/// The digits of a payload's name, which is a SHA-256 digest.
const NAME_LENGTH: usize = 64;

/// The text of an entry: a line for each value that is there. What it says is read again as these fields.
pub fn entry_text(alloc: Global, fields: &Type1) -> Result<Vec<u8>, AllocError>
    requires { AreEntryFields fields.now }
    ensures text { IfOk result (λ text. text.items ≡ entry_text fields.now) }
    ensures reads_back { IfOk result (λ _. ReadsBack fields.now) }
{
    let mut made = Vec::new(alloc);
    add_texts(&mut made, fields)?;
    add_if(&mut made, "linux", &fields.linux)?;
    add_each(&mut made, "initrd", &fields.initrds)?;
    add_each(&mut made, "options", &fields.options)?;
    Ok(made)
}

// Appends the lines of the four texts that stand above the kernel.
fn add_texts(made: &mut Vec<u8>, fields: &Type1) -> Result<(), AllocError>
    ensures { OnOk result (made.new.items ≡ made.old.items
        ++ text_of_lines (line_if (codes "title") fields.now.title
        ++ (line_if (codes "version") fields.now.version
        ++ (line_if (codes "machine-id") fields.now.machine_id
        ++ line_if (codes "sort-key") fields.now.sort_key)))) }
{
    add_if(made, "title", &fields.title)?;
    add_if(made, "version", &fields.version)?;
    add_if(made, "machine-id", &fields.machine_id)?;
    add_if(made, "sort-key", &fields.sort_key)
}

// Appends the line of a key and its value, if there is a value.
fn add_if(made: &mut Vec<u8>, key: &str, value: &Option<Bytes>) -> Result<(), AllocError>
    ensures { OnOk result (made.new.items ≡ made.old.items ++ text_of_lines (line_if key.now value.now)) }
{
    match value {
        Some(value) => add_line(made, key, value.as_slice()),
        None => Ok(()),
    }
}

// Appends a line of the key for each of the values.
fn add_each(made: &mut Vec<u8>, key: &str, values: &BytesList) -> Result<(), AllocError>
    ensures { OnOk result (made.new.items ≡ made.old.items ++ text_of_lines (map (key_line key.now) values.now)) }
{
    for value in values.as_slice() {
        add_line(made, key, value.as_slice())?;
    }
    Ok(())
}

/// The text may be a value of an entry: 1 to 1,024 bytes without control bytes, and no space at either end.
pub fn is_field(text: &[u8]) -> bool
    ensures { result ≡ is_field text.now }
{
    text.len() <= FIELD_LIMIT
        && are_field_bytes(text)
        && begins_without_space(text)
        && ends_without_space(text)
}

fn are_field_bytes(text: &[u8]) -> bool
    ensures { result ≡ list_all is_field_byte text.now }
{
    text.iter().all(|byte| 32 <= *byte && *byte != 127)
}

fn begins_without_space(text: &[u8]) -> bool
    ensures { result ≡ head_passes is_no_space text.now }
{
    match text {
        [] => false,
        [first, ..] => *first != b' ',
    }
}

fn ends_without_space(text: &[u8]) -> bool
    ensures { result ≡ last_passes is_no_space text.now }
{
    match text {
        [] => false,
        [.., last] => *last != b' ',
    }
}

/// The name is that of a payload: 64 digits `0` to `9` and `a` to `f`.
pub fn is_payload_name(name: &[u8]) -> bool
    ensures { result ≡ is_payload_name name.now }
{
    name.len() == NAME_LENGTH && are_hex_digits(name)
}

fn are_hex_digits(name: &[u8]) -> bool
    ensures { result ≡ list_all is_hex_lower name.now }
{
    name.iter().all(|byte| is_hex_digit(*byte))
}

fn is_hex_digit(byte: u8) -> bool
    ensures { result ≡ is_hex_lower byte }
{
    48 <= byte && byte <= 57 || 97 <= byte && byte <= 102
}
