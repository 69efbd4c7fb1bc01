//! The lines of a text of settings, as os-release(5), the Boot Loader Specification's entry files and
//! loader.conf(5) have them: cut at newlines, trimmed, without empty lines and comments. Of entry files and
//! loader.conf also the key and the value of a line.
ghost use Rattle.std.specs.Prelude.{◌≡◌, ◌∷◌, ◌<◌, length, IfSome, position, option_copied};
ghost use Rattle.std.specs.List.{slice_split};
ghost use Rattle.boot_texts.specs.TextLines.{is_blank, is_newline, is_counted, without_front_blanks, without_end_blanks, trim_blanks, pieces_of, lines_of};

use std::marker::Model;

/// The lines of a text that count, in order: what newlines part, without spaces, tabs and carriage returns
/// at both ends, but for empty lines and those that begin with `#`. Contracts see the list of the lines
/// that are still to come. It takes no memory.
#[derive(Debug, Drop)]
pub struct TextLines<'a> {
    rest: Option<&'a [u8]>,
}

impl<'a> Model for TextLines<'a> {
    ghost use Rattle.std.specs.Prelude.{List, ℕ, option_copied};
    ghost use Rattle.boot_texts.specs.TextLines.{counted_lines, pieces_of};

    ghost Value = { List (List ℕ) };

    ghost view = { λ lines. counted_lines (pieces_of (option_copied lines.rest)) };
}

impl<'a> TextLines<'a> {
    /// The lines of the text.
    pub fn of(text: &'a [u8]) -> TextLines<'a>
        ensures { result ≡ lines_of text.now }
    {
        TextLines { rest: Some(text) }
    }
}

impl<'a> Iterator for TextLines<'a> {
    ghost use Rattle.std.specs.Iterator.{YieldsFirstRef, item_count};

    type Item = &'a [u8];

    ghost next_gives = { YieldsFirstRef (λ lines. lines) };

    ghost remaining = { item_count (λ lines. lines) };

    fn next(&mut self) -> Option<&'a [u8]> {
        while let Some(text) = self.rest {
            let (piece, rest) = first_piece(text);
            self.rest = rest;
            let line = trim_blanks(piece);
            if is_counted(line) {
                return Some(line);
            }
        }
        None
    }
}

/// What stands before the text's first newline, and what is left behind it; nothing is where there is no newline.
pub fn first_piece(text: &[u8]) -> (&[u8], Option<&[u8]>)
    ensures first { slice_split is_newline text.now ≡ result.0.now ∷ pieces_of (option_copied result.1) }
    ensures shorter { IfSome result.1 (λ rest. length rest.now < length text.now) }
{
    match end_of_line(text) {
        Some(end) => (&text[..end], Some(&text[end + 1..])),
        None => (text, None),
    }
}

// Where the text's first newline stands.
fn end_of_line(text: &[u8]) -> Option<usize>
    ensures { result ≡ position is_newline text.now }
{
    text.iter().position(|byte| *byte == b'\n')
}

/// The line without the spaces, tabs and carriage returns at both ends.
pub fn trim_blanks(line: &[u8]) -> &[u8]
    ensures { result.now ≡ trim_blanks line.now }
{
    without_end_blanks(without_front_blanks(line))
}

fn without_front_blanks(line: &[u8]) -> &[u8]
    ensures { result.now ≡ without_front_blanks line.now }
{
    let mut start = 0;
    while start < line.len() && is_blank(line[start]) {
        start += 1;
    }
    &line[start..]
}

fn without_end_blanks(line: &[u8]) -> &[u8]
    ensures { result.now ≡ without_end_blanks line.now }
{
    let mut end = line.len();
    while end > 0 && is_blank(line[end - 1]) {
        end -= 1;
    }
    &line[..end]
}

fn is_blank(byte: u8) -> bool
    ensures { result ≡ is_blank byte }
{
    byte == b' ' || byte == b'\t' || byte == b'\r'
}

/// The line isn't empty, and no comment, which begins with `#`.
pub fn is_counted(line: &[u8]) -> bool
    ensures { result ≡ is_counted line.now }
{
    match line {
        [] => false,
        [first, ..] => *first != b'#',
    }
}
