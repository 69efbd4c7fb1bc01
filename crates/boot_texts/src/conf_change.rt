//! The change of one key of loader.conf.
ghost use Rattle.std.specs.Prelude.{◌≡◌, ◌≢◌, ◌<◌, ◌∷◌, [], ◌++◌, List, ℕ, not, IfOk, IsTrue, OnOk, Some, filter, length};
ghost use Rattle.boot_texts.specs.Conf.{IsConfValue, conf_key_name, conf_of, conf_value, may_be_value, other_conf_key};
ghost use Rattle.boot_texts.specs.FileLines.{IsTextButForNewline, raw_lines, key_line, lacks_value, text_of_lines, text_with_value, with_newline};

use crate::conf::{is_default_pattern, is_timeout};
use crate::entry_line::value_in;
use crate::text_lines::{first_piece, is_counted, trim_blanks};
use std::alloc::{AllocError, Global};

/// The lines of a file, byte for byte and each with a newline, are the file, but for a newline at its end.
pub fn lines_are_the_file()
    ensures { (text : List ℕ) → IsTextButForNewline (text_of_lines (raw_lines text)) text }
{}

/// A key of loader.conf that can be changed.
#[derive(Debug, Clone, Copy, PartialEq, Eq)]
pub enum ConfKey {
    /// The pattern of the default entry's id.
    Default,
    /// How long the menu waits.
    Timeout,
}

impl ConfKey {
    /// The key as it is written.
    pub fn name(self) -> &'static str
        ensures { result.now ≡ conf_key_name self }
    {
        match self {
            ConfKey::Default => "default",
            ConfKey::Timeout => "timeout",
        }
    }
}

/// The value may be written for the key.
pub fn may_be_value(key: ConfKey, value: &[u8]) -> bool
    ensures value { result ≡ may_be_value key value.now }
    ensures fits { IsTrue result → IsConfValue key value.now }
{
    match key {
        ConfKey::Default => is_default_pattern(value),
        ConfKey::Timeout => is_timeout(value),
    }
}

/// The file's bytes with another value of the key. The lines that give the key a value are dropped, all others
/// stay byte for byte and in order, each with a newline, and a line of the key, a space and the value is added.
pub fn with_key(
    alloc: Global,
    bytes: &[u8],
    key: ConfKey,
    value: &[u8],
) -> Result<Vec<u8>, AllocError>
    requires { IsConfValue key value.now }
    ensures lines { IfOk result (λ made. made.items ≡ text_with_value (conf_key_name key) value.now bytes.now) }
    ensures kept { IfOk result (λ made. raw_lines made.items
        ≡ filter (lacks_value (conf_key_name key)) (raw_lines bytes.now)
        ++ key_line (conf_key_name key) value.now ∷ []) }
    ensures set { IfOk result (λ made. conf_value key (conf_of made.items) ≡ Some value.now) }
    ensures other { IfOk result (λ made. conf_value (other_conf_key key) (conf_of made.items)
        ≡ conf_value (other_conf_key key) (conf_of bytes.now)) }
{
    let made = changed_lines(alloc, bytes, key.name(), value)?;
    Ok(made)
}

// The lines that give the key no value, and the line that does.
fn changed_lines(
    alloc: Global,
    bytes: &[u8],
    key: &str,
    value: &[u8],
) -> Result<Vec<u8>, AllocError>
    ensures { IfOk result (λ made. made.items ≡ text_with_value key.now value.now bytes.now) }
{
    let mut made = other_lines(alloc, bytes, key)?;
    add_line(&mut made, key, value)?;
    Ok(made)
}

/// Appends the line that gives the key the value, and a newline.
pub(crate) fn add_line(made: &mut Vec<u8>, key: &str, value: &[u8]) -> Result<(), AllocError>
    ensures { OnOk result (made.new.items ≡ made.old.items ++ with_newline (key_line key.now value.now)) }
{
    made.extend_from_slice(key.as_bytes())?;
    made.push(b' ')?;
    made.extend_from_slice(value)?;
    made.push(b'\n')?;
    Ok(())
}

// The lines that give the key no value, byte for byte, each with a newline.
fn other_lines(alloc: Global, bytes: &[u8], key: &str) -> Result<Vec<u8>, AllocError>
    ensures { IfOk result (λ made. made.items ≡ text_of_lines (filter (lacks_value key.now) (raw_lines bytes.now))) }
{
    let mut made = Vec::new(alloc);
    let mut rest = bytes;
    while !rest.is_empty() {
        let (line, behind) = first_line(rest);
        keep_line(&mut made, line, key)?;
        rest = behind;
    }
    Ok(made)
}

// Appends a line that gives the key no value, and a newline.
fn keep_line(made: &mut Vec<u8>, line: &[u8], key: &str) -> Result<(), AllocError>
    ensures { OnOk result (made.new.items ≡ made.old.items
        ++ text_of_lines (filter (lacks_value key.now) (line.now ∷ []))) }
{
    if !has_value(line, key) {
        made.extend_from_slice(line)?;
        made.push(b'\n')?;
    }
    Ok(())
}

// The first line of a text that isn't empty, and what is behind its newline.
fn first_line(text: &[u8]) -> (&[u8], &[u8])
    requires { text.now ≢ [] }
    ensures lines { raw_lines text.now ≡ result.0.now ∷ raw_lines result.1.now }
    ensures shorter { length result.1.now < length text.now }
{
    let (line, behind) = first_piece(text);
    match behind {
        Some(behind) => (line, behind),
        None => (line, &text[text.len()..]),
    }
}

// A line as it stands in the file gives the key a value.
fn has_value(line: &[u8], key: &str) -> bool
    ensures { result ≡ not (lacks_value key.now line.now) }
{
    let line = trim_blanks(line);
    is_counted(line) && value_in(line, key).is_some()
}
