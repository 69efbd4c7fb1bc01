//! SBAT metadata of an image (shim, SBAT.md), merged from that of its stub, of its kernel and what is given.

ghost use Rattle.std.specs.Prelude.{◌≡◌, ◌==◌, ◌∷◌, [], ◌++◌, IfOk, OnOk};
ghost use Rattle.std.specs.List.{before_first, after_first};
ghost use Rattle.uki_parts.specs.Sbat.{merged_sbat, with_first_line, lines_text, sbat_entries, entries_among, kept_lines, is_sbat_newline};

use crate::text::{before, length_before};
use std::alloc::{AllocError, Global};

/// What merged metadata begins with.
const FIRST_LINE: &[u8] =
    b"sbat,1,SBAT Version,sbat,1,https://github.com/rhboot/shim/blob/main/SBAT.md\n";

/// The SBAT metadata of an image: the entries of the stub's loaded `.sbat`, of the kernel's, and of the given bytes,
/// behind the line of SBAT itself and before one NUL; nothing where there is no entry.
///
/// The entries of each are those of its lines after the first that aren't empty, up to its first NUL; it has none where
/// its first line doesn't begin with `sbat,`.
pub fn merge_sbat(
    alloc: Global,
    stub: &[u8],
    kernel: &[u8],
    given: &[u8],
) -> Result<Vec<u8>, AllocError>
    ensures { IfOk result (λ text. text.items ≡ merged_sbat stub.now kernel.now given.now) }
{
    let mut entries = Vec::new(alloc);
    append_entries(&mut entries, stub)?;
    append_entries(&mut entries, kernel)?;
    append_entries(&mut entries, given)?;
    if entries.is_empty() {
        return Ok(entries);
    }
    with_first_line(alloc, &entries)
}

// The lines behind the line of SBAT itself, and before one NUL.
fn with_first_line(alloc: Global, entries: &[u8]) -> Result<Vec<u8>, AllocError>
    ensures { IfOk result (λ text. text.items ≡ with_first_line entries.now) }
{
    let mut text = Vec::new(alloc);
    text.extend_from_slice(FIRST_LINE)?;
    text.extend_from_slice(entries)?;
    text.push(0)?;
    Ok(text)
}

// Puts the entries of a section behind the others, each as a line.
fn append_entries(entries: &mut Vec<u8>, section: &[u8]) -> Result<(), AllocError>
    ensures { OnOk result (entries.new.items ≡ entries.old.items ++ lines_text (sbat_entries section.now)) }
{
    let (first, rest) = cut_at_newline(before(section, 0));
    if first.starts_with(b"sbat,") {
        append_lines(entries, rest)?;
    }
    Ok(())
}

// The first line, and what stands behind its newline.
fn cut_at_newline(text: &[u8]) -> (&[u8], &[u8])
    ensures first { result.0.now ≡ before_first is_sbat_newline text.now }
    ensures rest { result.1.now ≡ after_first is_sbat_newline text.now }
{
    let end = length_before(text, b'\n');
    let next = (end + 1).min(text.len());
    (&text[..end], &text[next..])
}

// Puts the lines of a text that aren't empty behind the others.
fn append_lines(entries: &mut Vec<u8>, text: &[u8]) -> Result<(), AllocError>
    ensures { OnOk result (entries.new.items ≡ entries.old.items ++ lines_text (kept_lines text.now)) }
{
    for line in text.split(|byte| *byte == b'\n') {
        if !line.is_empty() {
            append_line(entries, line)?;
        }
    }
    Ok(())
}

fn append_line(entries: &mut Vec<u8>, line: &[u8]) -> Result<(), AllocError>
    ensures { OnOk result (entries.new.items ≡ entries.old.items ++ (line.now ++ 10 ∷ [])) }
{
    entries.extend_from_slice(line)?;
    entries.push(b'\n')?;
    Ok(())
}
