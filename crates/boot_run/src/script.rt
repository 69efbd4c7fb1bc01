//! The lines of a script.
ghost use Rattle.std.specs.Prelude.{◌≡◌, ◌≤◌, length, IfOk};
ghost use Rattle.tool_words.specs.Meaning.{meaning};
ghost use Rattle.tool_words.specs.Shown.{texts};
ghost use Rattle.boot_run.specs.Lines.{script_limit};
ghost use Rattle.boot_run.specs.AskedLines.{command_in, in_script, is_passed_over, is_script_newline, line_at, lines_in, script_lines};

use crate::input::SCRIPT_LIMIT;
use crate::line::Line;
use std::alloc::{AllocError, Global};
use std::str;
use tool_words::{Command, LineFault, One, WordsFault, split_line};

// The command of a line's words. One of several actions is none, nor is a script.
fn command_of(alloc: Global, words: &Vec<String>) -> Result<Option<One>, AllocError>
    ensures { IfOk result (λ found. found ≡ in_script (meaning (texts words.now.items))) }
{
    match Command::read(alloc, words) {
        Ok(Command::One(command)) => Ok(Some(command)),
        Ok(Command::Several(command)) => {
            drop(command);
            Ok(None)
        }
        Ok(Command::Script) | Err(WordsFault::Usage { .. }) => Ok(None),
        Err(WordsFault::Memory) => Err(AllocError),
    }
}

// The command of a line, if it is one.
fn command_in(alloc: Global, piece: &[u8]) -> Result<Option<One>, AllocError>
    ensures { IfOk result (λ found. found ≡ command_in piece.now) }
{
    let Ok(text) = str::from_utf8(piece) else {
        return Ok(None);
    };
    match split_line(alloc, text) {
        Ok(words) => command_of(alloc, &words),
        Err(LineFault::OpenQuote) => Ok(None),
        Err(LineFault::Memory) => Err(AllocError),
    }
}

fn line_at(alloc: Global, number: u64, piece: &[u8]) -> Result<Line, AllocError>
    ensures { IfOk result (λ line. line ≡ line_at number (command_in piece.now)) }
{
    match command_in(alloc, piece)? {
        Some(command) => Ok(Line::Numbered(number, command)),
        None => Ok(Line::Unread(number)),
    }
}

fn is_passed_over(piece: &[u8]) -> bool
    ensures { result ≡ is_passed_over piece.now }
{
    match piece.first() {
        Some(first) => *first == b'#',
        None => true,
    }
}

fn is_newline(byte: u8) -> bool
    ensures { result ≡ is_script_newline byte }
{
    byte == b'\n'
}

// The lines of a script's bytes.
fn script_lines(alloc: Global, bytes: &[u8]) -> Result<Vec<Line>, AllocError>
    requires { length bytes.now ≤ script_limit }
    ensures { IfOk result (λ lines. lines.items ≡ script_lines bytes.now) }
{
    let mut lines = Vec::new(alloc);
    let mut number = 0u64;
    for piece in bytes.split(|byte| is_newline(*byte)) {
        number = number.saturating_add(1);
        if !is_passed_over(piece) {
            lines.push(line_at(alloc, number, piece)?)?;
        }
    }
    Ok(lines)
}

/// The lines of what was taken of standard input, or the one refusal of a script that is too long.
pub fn lines_in(alloc: Global, input: &[u8]) -> Result<Vec<Line>, AllocError>
    ensures { IfOk result (λ lines. lines.items ≡ lines_in input.now) }
{
    if input.len() <= SCRIPT_LIMIT {
        return script_lines(alloc, input);
    }
    let mut lines = Vec::new(alloc);
    lines.push(Line::TooLong)?;
    Ok(lines)
}
