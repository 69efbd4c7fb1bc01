//! `keep`.
ghost use Rattle.std.specs.Prelude.{◌≡◌, ◌++◌, IfOk, IsTrue, OnOk};
ghost use Rattle.boot_machine.specs.Prelude.{Counts, Looks, TakesAtMost, seen};
ghost use Rattle.command_plans.specs.Prelude.{CountsReadError, Says, folders_of, menu_limit};
ghost use Rattle.entry_commands.specs.Keeping.{keep_result, menu_paths, would_line, would_text};

use crate::counts::count_in;
use boot_base::{BootPath, Refusal};
use boot_machine::Machine;
use command_plans::{ReadError, folders_in, menu_at};
use menu_order::{MenuItem, doomed_paths};
use std::alloc::{AllocError, Global};
use tool_words::KeepWords;

// Where the entries of a menu stand that go.
fn menu_paths(
    alloc: Global,
    menu: &[MenuItem],
    n: u32,
    per_key: bool,
) -> Result<Vec<BootPath>, ReadError>
    ensures says { Says (λ paths. paths.items) result (menu_paths n per_key menu.now) }
    ensures counts { (counts : Counts) → CountsReadError result counts counts }
{
    if menu.is_empty() {
        return Err(ReadError::Refused(Refusal::NoEntries));
    }
    Ok(doomed_paths(alloc, menu, n, per_key)?)
}

/// Where the entries stand that go if the newest are kept, in the order in which they go, or what the words are refused
/// for. Only headers and texts are read.
pub fn keep_paths<M: Machine>(
    alloc: Global,
    words: &KeepWords,
    machine: &mut M,
) -> Result<Vec<BootPath>, ReadError>
    ensures says { IsTrue M.tells
        → Says (λ paths. paths.items) result (keep_result (seen (M.state machine.old)) words.now) }
    ensures looks { Looks M.tells M.time M.state M.counts (CountsReadError result) machine.old machine.new }
    ensures taken { IsTrue M.tells
        → TakesAtMost (menu_limit (M.state machine.old).files (folders_of words.now.esp)) (M.taken machine.old)
        (M.taken machine.new) }
{
    let n = count_in(alloc, words.number.as_str())?;
    let folders = folders_in(alloc, words.esp.as_str())?;
    let menu = menu_at(alloc, &folders, machine)?;
    menu_paths(alloc, menu.as_slice(), n, words.per_key)
}

// Puts what is told of a file that would go behind a text.
fn append_line(alloc: Global, path: &BootPath, text: &mut Vec<u8>) -> Result<(), AllocError>
    ensures { OnOk result (text.new.items ≡ text.old.items ++ would_line path.now) }
{
    let line = format!(in alloc; "would unlink {path}\n")?;
    Ok(text.extend_from_slice(line.as_str().as_bytes())?)
}

/// What is told if no file goes: the files that would.
pub fn would_text(alloc: Global, paths: &[BootPath]) -> Result<Vec<u8>, AllocError>
    ensures { IfOk result (λ text. text.items ≡ would_text paths.now) }
{
    if paths.is_empty() {
        return Vec::from_slice(alloc, b"nothing to remove\n");
    }
    let mut text = Vec::new(alloc);
    for path in paths {
        append_line(alloc, path, &mut text)?;
    }
    Ok(text)
}
