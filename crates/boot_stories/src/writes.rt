//! The lines of a story that write files.
use crate::fault::StoryFault;
use crate::files::{bytes_of, leave, put_intent};
use crate::lines::{number, parted_or_whole, split_at_space, unescape};
use crate::samples::image_of;
use crate::story::Story;
use boot_base::{BootPath, TempPath};
use std::alloc::{AllocError, Global};

// The length is a variable, so that no proof writes out a list of that many bytes.
fn repeat_byte(alloc: Global, count: usize, byte: u8) -> Result<Vec<u8>, AllocError> {
    vec![in alloc; byte; count]
}

// Fills up to so many bytes, of which two that are a piece apart differ.
fn add_series(bytes: &mut Vec<u8>, count: u64) -> Result<(), AllocError> {
    for place in 0..count.saturating_sub(bytes.len() as u64) {
        bytes.push((place % 251) as u8)?;
    }
    Ok(())
}

// Fills up to so many bytes with zeros.
fn add_zeros(bytes: &mut Vec<u8>, count: u64) -> Result<(), AllocError> {
    for _ in bytes.len() as u64..count {
        bytes.push(0)?;
    }
    Ok(())
}

/// The bytes of a file that is there.
pub(crate) fn bytes_of_file(
    alloc: Global,
    story: &mut Story,
    path: &str,
) -> Result<Vec<u8>, StoryFault> {
    bytes_of(alloc, &mut story.machine, path)?.ok_or(StoryFault::Unclear)
}

fn copy_file(alloc: Global, story: &mut Story, rest: &str) -> Result<(), StoryFault> {
    let (from, to) = split_at_space(rest)?;
    let bytes = bytes_of_file(alloc, story, from)?;
    story.write(alloc, to, bytes.as_slice())
}

fn write_text(alloc: Global, story: &mut Story, rest: &str) -> Result<(), StoryFault> {
    let (path, text) = parted_or_whole(rest);
    let bytes = unescape(alloc, text)?;
    story.write(alloc, path, bytes.as_slice())
}

fn write_image(alloc: Global, story: &mut Story, rest: &str) -> Result<(), StoryFault> {
    let (path, text) = parted_or_whole(rest);
    let osrel = unescape(alloc, text)?;
    story.write(alloc, path, image_of(osrel.as_slice()).bytes())
}

fn first_byte(alloc: Global, text: &str) -> Result<u8, StoryFault> {
    let bytes = unescape(alloc, text)?;
    bytes.first().copied().ok_or(StoryFault::Unclear)
}

fn write_filled(alloc: Global, story: &mut Story, rest: &str) -> Result<(), StoryFault> {
    let (path, rest) = split_at_space(rest)?;
    let (count, byte) = split_at_space(rest)?;
    let byte = first_byte(alloc, byte)?;
    let bytes = repeat_byte(alloc, number(count)? as usize, byte)?;
    story.write(alloc, path, bytes.as_slice())
}

// Writes these bytes, filled up by a series.
fn write_series(
    alloc: Global,
    story: &mut Story,
    path: &str,
    begin: Vec<u8>,
    count: u64,
) -> Result<(), StoryFault> {
    let mut bytes = begin;
    add_series(&mut bytes, count)?;
    story.write(alloc, path, bytes.as_slice())
}

fn write_new_series(alloc: Global, story: &mut Story, rest: &str) -> Result<(), StoryFault> {
    let (path, count) = split_at_space(rest)?;
    write_series(alloc, story, path, Vec::new(alloc), number(count)?)
}

fn extend_file(alloc: Global, story: &mut Story, rest: &str) -> Result<(), StoryFault> {
    let (path, count) = split_at_space(rest)?;
    let count = number(count)?;
    let bytes = bytes_of_file(alloc, story, path)?;
    write_series(alloc, story, path, bytes, count)
}

// Writes the intent of a rename: a text, filled up with zeros to so many bytes.
fn write_intent(alloc: Global, story: &mut Story, rest: &str) -> Result<(), StoryFault> {
    let (count, text) = parted_or_whole(rest);
    let count = number(count)?;
    let mut bytes = unescape(alloc, text)?;
    add_zeros(&mut bytes, count)?;
    put_intent(alloc, &mut story.machine, bytes.as_slice())
}

// Writes an empty file into the folder, named by that number.
fn write_numbered(
    alloc: Global,
    story: &mut Story,
    folder: &str,
    place: u64,
    suffix: &str,
) -> Result<(), StoryFault> {
    let path = format!(in alloc; "{folder}/a{place}{suffix}")?;
    story.write(alloc, path.as_str(), b"")
}

fn write_crowd(alloc: Global, story: &mut Story, rest: &str) -> Result<(), StoryFault> {
    let (folder, rest) = split_at_space(rest)?;
    let (count, suffix) = split_at_space(rest)?;
    for place in 0..number(count)? {
        write_numbered(alloc, story, folder, place, suffix)?;
    }
    Ok(())
}

fn leave_temp(alloc: Global, story: &mut Story, path: &str) -> Result<(), StoryFault> {
    let temp = TempPath::of(alloc, BootPath::read(alloc, path)?.file())?;
    leave(&mut story.machine, &temp)?;
    Ok(())
}

/// Writes files as a line with this verb says. Any other verb is unclear.
pub(crate) fn write_files(
    alloc: Global,
    verb: &str,
    rest: &str,
    story: &mut Story,
) -> Result<(), StoryFault> {
    match verb {
        "copy" => copy_file(alloc, story, rest),
        "write" => write_text(alloc, story, rest),
        "image" => write_image(alloc, story, rest),
        "fill" => write_filled(alloc, story, rest),
        "series" => write_new_series(alloc, story, rest),
        "extend" => extend_file(alloc, story, rest),
        "intent" => write_intent(alloc, story, rest),
        "crowd" => write_crowd(alloc, story, rest),
        "leave" => leave_temp(alloc, story, rest),
        _ => Err(StoryFault::Unclear),
    }
}
