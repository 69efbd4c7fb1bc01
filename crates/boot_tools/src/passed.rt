//! Which files in the folders of entries a list passes over, and why: lines of the log behind the reply.
//!
//! The files are looked at once more, by a machine that tells of no failed call. Nothing is changed, and whether all can
//! be told changes nothing.

use boot_base::{BootPath, FILE_LIMIT, TEXT_LIMIT, Text};
use boot_machine::Machine;
use boot_texts::{EntryFault, Type1};
use command_plans::{Outcome, Plan, ReadError, file_bytes, folders_in};
use entry_commands::plan_install;
use host_machine::host_machine;
use menu_order::Suffix;
use std::alloc::Global;
use std::fmt::Display;
use std::io::ErrorKind;
use std::{fs, io};
use tool_words::{Command, One};

/// Tells on Err which files `bootctl list` of these words passes over, and why. Of other words it tells nothing.
pub(crate) fn report_passed_over(rt: HostRuntime, words: &Vec<String>) {
    let alloc = rt.alloc();
    if let Some(esp) = listed_partition(alloc, words)
        && let Ok(folders) = folders_in(alloc, esp.as_str())
    {
        let mut machine = host_machine(rt, rt.stderr());
        let _ = report_folder(rt, &mut machine, &folders.entries, Suffix::Conf);
        let _ = report_folder(rt, &mut machine, &folders.images, Suffix::Efi);
    }
}

// The partition whose entries the words ask to list.
fn listed_partition(alloc: Global, words: &Vec<String>) -> Option<Text> {
    match Command::read(alloc, words) {
        Ok(Command::One(One::List { esp, .. })) => Some(esp),
        Ok(other) => {
            drop(other);
            None
        }
        Err(_) => None,
    }
}

// Tells of the files in one folder that are no entries, in the order of their names.
fn report_folder<M: Machine>(
    rt: HostRuntime,
    machine: &mut M,
    folder: &BootPath,
    suffix: Suffix,
) -> io::Result<()> {
    // What is listed needs no look of its own at how it is spelled.
    let _ = machine.names(rt.alloc(), folder);
    for name in names_in(rt, folder)?.as_slice() {
        let name = name.as_str();
        if let Some(reason) = reason_of(rt, machine, folder, name, suffix)? {
            report(rt, format_args!("{folder}/{name}: {reason}"))?;
        }
    }
    Ok(())
}

fn report<D: Display + Drop>(rt: HostRuntime, what: D) -> io::Result<()> {
    rt.stderr()
        .println(format_args!("boot_tools: passed over {what}"))
}

// All names in a folder, in order. One that isn't UTF-8 is told of.
fn names_in(rt: HostRuntime, folder: &BootPath) -> io::Result<Vec<String>> {
    let mut names = Vec::new(rt.alloc());
    for entry in fs::read_dir(&rt, folder.as_str())? {
        match entry {
            Ok(entry) => names.push(String::from_str(rt.alloc(), entry.file_name())?)?,
            Err(error) if error.kind() == ErrorKind::InvalidFilename => {
                report(
                    rt,
                    format_args!("a file in {folder}: its name is not UTF-8"),
                )?;
            }
            Err(error) => return Err(error),
        }
    }
    names.sort_unstable();
    Ok(names)
}

// Why what has that name is no entry, if its name is like that of one and the reason can be found.
fn reason_of<M: Machine>(
    rt: HostRuntime,
    machine: &mut M,
    folder: &BootPath,
    name: &str,
    suffix: Suffix,
) -> io::Result<Option<String>> {
    let alloc = rt.alloc();
    if !is_like(name, suffix) {
        return Ok(None);
    }
    if !name.ends_with(suffix.as_str()) {
        return said(alloc, "its suffix has capitals");
    }
    let Ok(path) = BootPath::under(alloc, folder, name) else {
        return said(alloc, "its name is too long");
    };
    let found = match fs::metadata(&rt, path.as_str()) {
        Ok(found) => found,
        Err(error) => return Ok(Some(format!(in alloc; "{error}")?)),
    };
    match suffix {
        _ if !found.is_file() => said(alloc, "it is no file"),
        Suffix::Efi if found.len() > FILE_LIMIT => {
            said(alloc, "it has more than 268,435,456 bytes")
        }
        Suffix::Efi => image_reason(alloc, machine, &path),
        Suffix::Conf if found.len() > TEXT_LIMIT => said(alloc, "it has more than 65,536 bytes"),
        Suffix::Conf => text_reason(alloc, machine, &path),
    }
}

// A name ends in a suffix, in letters of either case.
fn is_like(name: &str, suffix: Suffix) -> bool {
    let (name, suffix) = (name.as_bytes(), suffix.as_str().as_bytes());
    match name.split_at_checked(name.len().saturating_sub(suffix.len())) {
        Some((_, end)) => end.eq_ignore_ascii_case(suffix),
        None => false,
    }
}

fn said(alloc: Global, reason: &str) -> io::Result<Option<String>> {
    Ok(Some(String::from_str(alloc, reason)?))
}

// Why a file is no image that is listed: what an installation of it would be refused for.
fn image_reason<M: Machine>(
    alloc: Global,
    machine: &mut M,
    path: &BootPath,
) -> io::Result<Option<String>> {
    match plan_install(alloc, path.as_str(), "x", None, "x", machine) {
        Ok(plan) => {
            let reason = refusal_of(alloc, &plan);
            drop(plan);
            reason
        }
        Err(_) => Ok(None),
    }
}

// The text of a plan's refusal, without its number, if it is one of the two that are about the image and not about where it
// would go.
fn refusal_of(alloc: Global, plan: &Plan) -> io::Result<Option<String>> {
    if plan.outcome == Outcome::Done {
        return Ok(None);
    }
    match str::from_utf8(plan.text.as_slice()) {
        Ok(line) => match line.trim_end().split_once(": ") {
            Some((number, reason)) if number.ends_with(" 4") || number.ends_with(" 11") => {
                said(alloc, reason)
            }
            _ => Ok(None),
        },
        Err(_) => Ok(None),
    }
}

// Why a file is no entry of type 1.
fn text_reason<M: Machine>(
    alloc: Global,
    machine: &mut M,
    path: &BootPath,
) -> io::Result<Option<String>> {
    match file_bytes(alloc, path, machine) {
        Ok(bytes) => match Type1::read(alloc, &bytes) {
            Err(EntryFault::NothingToBoot) => said(alloc, "it has no line linux or efi"),
            _ => Ok(None),
        },
        Err(ReadError::Refused(refusal)) => {
            let reason = refusal.to_string(alloc);
            drop(refusal);
            Ok(Some(reason?))
        }
        Err(_) => Ok(None),
    }
}
