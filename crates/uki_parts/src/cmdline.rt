//! The text of a kernel command line.

ghost use Rattle.std.specs.Prelude.{◌≡◌, ◌==◌, ◌∷◌, ◌++◌, length, IfOk, OnOk, if◌then◌else◌};
ghost use Rattle.uki_parts.specs.Cmdlines.{is_whitespace, clean_cmdline};

use std::alloc::{AllocError, Global};

/// The words of a command line with one space between each two: runs of spaces, tabs, newlines, carriage returns,
/// vertical tabs and form feeds become one space, and none is left at the ends.
pub fn clean_cmdline(alloc: Global, text: &str) -> Result<Vec<u8>, AllocError>
    ensures { IfOk result (λ line. line.items ≡ clean_cmdline text.now) }
{
    let mut line = Vec::new(alloc);
    for word in text.as_bytes().split(|byte| is_whitespace(*byte)) {
        if !word.is_empty() {
            append_word(&mut line, word)?;
        }
    }
    Ok(line)
}

fn is_whitespace(byte: u8) -> bool
    ensures { result ≡ is_whitespace byte }
{
    matches!(byte, b' ' | b'\t' | b'\n' | b'\r' | 0x0B | 0x0C)
}

// Puts a word behind the others.
fn append_word(line: &mut Vec<u8>, word: &[u8]) -> Result<(), AllocError>
    ensures { OnOk result
        (line.new.items ≡ (if length line.old.items == 0 then word.now else line.old.items ++ (32 ∷ word.now))) }
{
    if !line.is_empty() {
        line.push(b' ')?;
    }
    line.extend_from_slice(word)
}
