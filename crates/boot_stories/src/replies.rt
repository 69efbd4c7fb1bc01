//! What a run has printed, and how it ended.
use boot_machine::{Channel, Machine, Printed};
use boot_run::run;
use memory_machine::{MemMachine, ReadSeen};
use std::alloc::{AllocError, Global};

/// Runs the program on these words, and says its status.
pub(crate) fn status_of<M: Machine>(alloc: Global, words: &Vec<String>, machine: &mut M) -> u8 {
    run(alloc, words, machine)
}

/// Runs the program on these words: what it prints, and its status.
pub(crate) fn answer<'a>(
    alloc: Global,
    words: &Vec<String>,
    machine: &'a mut MemMachine,
) -> (&'a [Printed], u8) {
    let before = machine.printed_bytes().len();
    let status = status_of(alloc, words, machine);
    let printed = machine.printed_bytes();
    (&printed[before.min(printed.len())..], status)
}

/// Adds a printed byte to a text. A newline and printable ASCII stand for themselves, but that a backslash is written
/// twice; every other byte is `\x` with two digits.
pub(crate) fn push_escaped(alloc: Global, text: &mut String, byte: u8) -> Result<(), AllocError> {
    match byte {
        b'\\' => text.push_str("\\\\"),
        b'\n' | b' '..=b'~' => text.push(char::from(byte)),
        _ => text.push_str(format!(in alloc; "\\x{byte:02x}")?.as_str()),
    }
}

// The text that was printed on a channel.
fn text_on(alloc: Global, printed: &[Printed], channel: Channel) -> Result<String, AllocError> {
    let mut text = String::new(alloc);
    for one in printed {
        if one.to == channel {
            push_escaped(alloc, &mut text, one.byte)?;
        }
    }
    Ok(text)
}

/// The bytes of a file, and how many they are.
pub(crate) fn bytes_text(alloc: Global, bytes: &[u8]) -> Result<String, AllocError> {
    let mut text = String::new(alloc);
    for byte in bytes {
        push_escaped(alloc, &mut text, *byte)?;
    }
    let end = if text.is_empty() || text.as_str().ends_with('\n') {
        ""
    } else {
        "\n"
    };
    let count = bytes.len();
    format!(in alloc; "{text}{end}{count} bytes\n")
}

/// What was printed on Out, then what was printed on Err, then the status.
pub(crate) fn reply_text(
    alloc: Global,
    printed: &[Printed],
    status: u8,
) -> Result<String, AllocError> {
    let out = text_on(alloc, printed, Channel::Out)?;
    let err = text_on(alloc, printed, Channel::Err)?;
    format!(in alloc; "{out}{err}status {status}\n")
}

/// How many lines of a script are acknowledged: the whole lines on Out that begin with `ok ` or `refused `.
pub(crate) fn acknowledged_lines(alloc: Global, printed: &[Printed]) -> Result<usize, AllocError> {
    let out = text_on(alloc, printed, Channel::Out)?;
    let mut count = 0usize;
    for line in out.as_str().lines() {
        if line.starts_with("ok ") || line.starts_with("refused ") {
            count = count.saturating_add(1);
        }
    }
    Ok(count)
}

/// How many whole lines were printed.
pub(crate) fn count_lines(printed: &[Printed]) -> usize {
    let mut count = 0usize;
    for one in printed {
        if one.byte == b'\n' {
            count = count.saturating_add(1);
        }
    }
    count
}

/// Adds a line to a text.
pub(crate) fn push_line(text: &mut String, line: &str) -> Result<(), AllocError> {
    text.push_str(line)?;
    text.push_str("\n")
}

/// The text, or that there is none.
pub(crate) fn or_none(text: String) -> Result<String, AllocError> {
    let mut told = text;
    if told.is_empty() {
        told.push_str("none\n")?;
    }
    Ok(told)
}

/// The sources of the entries of a list, in its order.
pub(crate) fn sources_text(alloc: Global, printed: &[Printed]) -> Result<String, AllocError> {
    let list = text_on(alloc, printed, Channel::Out)?;
    let mut text = String::new(alloc);
    for line in list.as_str().lines() {
        if let Some(source) = line.strip_prefix("      source: ") {
            push_line(&mut text, source)?;
        }
    }
    or_none(text)
}

/// The reads that gave bytes, each with its file, its length and its place.
pub(crate) fn reads_text(alloc: Global, reads: &[ReadSeen]) -> Result<String, AllocError> {
    let mut text = String::new(alloc);
    for read in reads {
        let (path, length, at) = (read.path.as_str(), read.length, read.at);
        let line = format!(in alloc; "/{path}: {length} bytes at {at}\n")?;
        text.push_str(line.as_str())?;
    }
    or_none(text)
}
