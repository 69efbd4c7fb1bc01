//! The files of a machine, read, written and told.

use crate::contents::content_text;
use crate::fault::StoryFault;
use crate::replies::{or_none, push_line};
use crate::samples::Sample;
use boot_base::{BootPath, FilePath, Target, TempPath, ends_as_temp};
use boot_machine::{DiskFault, Machine};
use install_steps::{put_in_place, recover, settle, write_bytes};
use memory_machine::MemMachine;
use std::alloc::Global;

/// How many calls of the machine `put` makes.
pub(crate) const CALLS_OF_PUT: u64 = 7;

/// How many calls of the machine `put_intent` makes.
pub(crate) const CALLS_OF_PUT_INTENT: u64 = 6;

/// How many calls of the machine `leave` makes.
pub(crate) const CALLS_OF_LEAVE: u64 = 2;

// Where the file at a path is to stand.
fn target(alloc: Global, path: &str) -> Result<Target, StoryFault> {
    let path = BootPath::read(alloc, path)?;
    Ok(Target::of(alloc, path)?)
}

/// Writes a file, after what a stop has left is finished.
pub(crate) fn put(
    alloc: Global,
    machine: &mut MemMachine,
    path: &str,
    bytes: &[u8],
) -> Result<(), StoryFault> {
    let target = target(alloc, path)?;
    let intent = FilePath::intent(alloc)?;
    recover(alloc, machine, &intent)?;
    write_bytes(machine, &target, bytes)?;
    Ok(())
}

// Writes a file by its temporary file, whatever its path.
fn write_anywhere(
    machine: &mut MemMachine,
    temp: &TempPath,
    path: &FilePath,
    bytes: &[u8],
) -> Result<(), DiskFault> {
    settle(machine)?;
    machine.create(temp)?;
    machine.append(temp, bytes)?;
    put_in_place(machine, temp, path)
}

/// Writes the intent of a rename.
pub(crate) fn put_intent(
    alloc: Global,
    machine: &mut MemMachine,
    bytes: &[u8],
) -> Result<(), StoryFault> {
    let path = FilePath::intent(alloc)?;
    let temp = TempPath::of(alloc, &path)?;
    write_anywhere(machine, &temp, &path, bytes)?;
    Ok(())
}

/// Makes a temporary file, and leaves it.
pub(crate) fn leave(machine: &mut MemMachine, path: &TempPath) -> Result<(), DiskFault> {
    settle(machine)?;
    machine.create(path)
}

/// The bytes of the file at a path, if it is there.
pub(crate) fn bytes_at(
    alloc: Global,
    machine: &mut MemMachine,
    path: &FilePath,
) -> Result<Option<Vec<u8>>, StoryFault> {
    let Some(size) = machine.size(path)? else {
        return Ok(None);
    };
    let mut bytes = vec![in alloc; 0u8; size as usize]?;
    machine.read_at(path, 0, &mut bytes)?;
    Ok(Some(bytes))
}

/// The bytes of the file at a path that is given as a text, if it is there.
pub(crate) fn bytes_of(
    alloc: Global,
    machine: &mut MemMachine,
    path: &str,
) -> Result<Option<Vec<u8>>, StoryFault> {
    let path = BootPath::read(alloc, path)?;
    bytes_at(alloc, machine, path.file())
}

/// The names of the files directly in a folder, in order.
pub(crate) fn names_in(
    alloc: Global,
    machine: &mut MemMachine,
    folder: &BootPath,
) -> Result<Vec<String>, StoryFault> {
    let found = machine.names(alloc, folder)?;
    let mut names = Vec::new(alloc);
    for name in &found {
        names.push(String::from_str(alloc, name.as_str())?)?;
    }
    names.sort()?;
    Ok(names)
}

// What the file at a path has, or an empty one where it isn't there.
fn content_at(
    alloc: Global,
    machine: &mut MemMachine,
    samples: &[Sample],
    path: &BootPath,
) -> Result<String, StoryFault> {
    let bytes = bytes_at(alloc, machine, path.file())?.unwrap_or(Vec::new(alloc));
    Ok(content_text(alloc, samples, bytes.as_slice())?)
}

/// A name, and what its file has.
pub(crate) fn file_text(
    alloc: Global,
    machine: &mut MemMachine,
    samples: &[Sample],
    folder: &BootPath,
    name: &str,
) -> Result<String, StoryFault> {
    let path = BootPath::under(alloc, folder, name)?;
    let content = content_at(alloc, machine, samples, &path)?;
    Ok(format!(in alloc; "{name} {content}")?)
}

// A name, and what its file has. Of a temporary file it is the name alone.
fn text_in_folder(
    alloc: Global,
    machine: &mut MemMachine,
    samples: &[Sample],
    folder: &BootPath,
    name: &str,
) -> Result<String, StoryFault> {
    if ends_as_temp(name) {
        return Ok(String::from_str(alloc, name)?);
    }
    file_text(alloc, machine, samples, folder, name)
}

// The lines of the files directly in a folder.
fn lines_in(
    alloc: Global,
    machine: &mut MemMachine,
    samples: &[Sample],
    folder: &BootPath,
) -> Result<String, StoryFault> {
    let names = names_in(alloc, machine, folder)?;
    let mut text = String::new(alloc);
    for name in &names {
        let file = text_in_folder(alloc, machine, samples, folder, name.as_str())?;
        push_line(&mut text, file.as_str())?;
    }
    Ok(text)
}

/// The files directly in a folder, one line for each.
pub(crate) fn folder_text(
    alloc: Global,
    machine: &mut MemMachine,
    samples: &[Sample],
    folder: &str,
) -> Result<String, StoryFault> {
    let folder = BootPath::read(alloc, folder)?;
    let text = lines_in(alloc, machine, samples, &folder)?;
    Ok(or_none(text)?)
}
