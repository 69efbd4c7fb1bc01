//! `boot`.
ghost use Rattle.std.specs.Prelude.{◌≡◌, ◌∷◌, true, [], Ok, IfOk, IsTrue, string_bytes, option_map};
ghost use Rattle.boot_entries.specs.Entries.{IsEntry, folder_of};
ghost use Rattle.boot_machine.specs.Prelude.{Looks, TakesAtMost, has, seen};
ghost use Rattle.command_plans.specs.Prelude.{CountsRunError, CountsReadError, DeclinesWords, Plans, PlansAs, RefusesWords, folders_of, menu_limit};
ghost use Rattle.entry_commands.specs.Booting.{boot_answer, boot_entry, boot_result, booted_entry, booted_text, renamed_entry};

use crate::moves::{already_there, is_there, plan_move, plan_nothing};
use boot_base::{BootPath, Refusal};
use boot_entries::Folders;
use boot_machine::Machine;
use command_plans::{
    Plan, ReadError, RunError, answer_or_refusal, folders_in, menu_at, path_under,
};
use menu_order::{Counted, MenuItem, Suffix};
use std::alloc::{AllocError, Global};

// What is told of an entry that stands at a path after the boot.
fn booted_text(alloc: Global, path: &BootPath) -> Result<String, AllocError>
    ensures { IfOk result (λ text. string_bytes text ≡ booted_text path.now) }
{
    format!(in alloc; "booted {path}\n")
}

// The folder of the files of a type.
fn folder_of(folders: &Folders, suffix: Suffix) -> &BootPath
    ensures { result.now ≡ folder_of folders.now suffix }
{
    match suffix {
        Suffix::Conf => &folders.entries,
        Suffix::Efi => &folders.images,
    }
}

// The renaming of the entry at `from`.
fn rename_entry<M: Machine>(
    alloc: Global,
    from: &BootPath,
    to: BootPath,
    machine: &mut M,
) -> Result<Plan, ReadError>
    requires there { IsTrue M.tells → has (seen (M.state machine.old)) from.now ≡ true }
    ensures plans { IsTrue M.tells
        → PlansAs (M.state machine.old) result (renamed_entry (seen (M.state machine.old)) from.now to) }
    ensures looks { Looks M.tells M.time M.state M.counts (CountsReadError result) machine.old machine.new }
    ensures taken { IsTrue M.tells → TakesAtMost 0 (M.taken machine.old) (M.taken machine.new) }
{
    if is_there(&to, machine)? {
        return Err(ReadError::Refused(already_there(alloc, &to)?));
    }
    let text = booted_text(alloc, &to)?;
    Ok(plan_move(alloc, from, &to, text)?)
}

// A boot of the entry at a path in a folder, by its name after the boot.
fn boot_named<M: Machine>(
    alloc: Global,
    folder: &BootPath,
    path: &BootPath,
    name: Option<String>,
    machine: &mut M,
) -> Result<Plan, ReadError>
    requires there { IsTrue M.tells → has (seen (M.state machine.old)) path.now ≡ true }
    ensures plans { IsTrue M.tells → PlansAs (M.state machine.old) result
        (booted_entry (seen (M.state machine.old)) folder.now path.now (option_map string_bytes name)) }
    ensures looks { Looks M.tells M.time M.state M.counts (CountsReadError result) machine.old machine.new }
    ensures taken { IsTrue M.tells → TakesAtMost 0 (M.taken machine.old) (M.taken machine.new) }
{
    let Some(name) = name else {
        return Ok(plan_nothing(booted_text(alloc, path)?));
    };
    let to = path_under(alloc, folder, name.as_str())?;
    rename_entry(alloc, path, to, machine)
}

// A boot of an entry.
fn boot_entry<M: Machine>(
    alloc: Global,
    folders: &Folders,
    item: &MenuItem,
    machine: &mut M,
) -> Result<Plan, ReadError>
    requires there { IsTrue M.tells → has (seen (M.state machine.old)) item.now.path ≡ true }
    ensures plans { IsTrue M.tells → PlansAs (M.state machine.old) result
        (boot_entry (seen (M.state machine.old)) folders.now item.now) }
    ensures looks { Looks M.tells M.time M.state M.counts (CountsReadError result) machine.old machine.new }
    ensures taken { IsTrue M.tells → TakesAtMost 0 (M.taken machine.old) (M.taken machine.new) }
{
    let name = Counted::booted_name(alloc, item.path.file_name())?;
    let folder = folder_of(folders, item.suffix);
    boot_named(alloc, folder, &item.path, name, machine)
}

fn boot<M: Machine>(alloc: Global, esp: &str, machine: &mut M) -> Result<Plan, ReadError>
    ensures plans { IsTrue M.tells
        → PlansAs (M.state machine.old) result (boot_result (seen (M.state machine.old)) esp.now) }
    ensures looks { Looks M.tells M.time M.state M.counts (CountsReadError result) machine.old machine.new }
    ensures taken { IsTrue M.tells
        → TakesAtMost (menu_limit (M.state machine.old).files (folders_of esp.now)) (M.taken machine.old)
        (M.taken machine.new) }
    ensures words { DeclinesWords (folders_of esp.now) result }
{
    let folders = folders_in(alloc, esp)?;
    let menu = menu_at(alloc, &folders, machine)?;
    match menu.first() {
        Some(item) => boot_entry(alloc, &folders, item, machine),
        None => Err(ReadError::Refused(Refusal::NoEntries)),
    }
}

/// What the counting of a boot of the first entry of the menu is going to do. Only headers and texts are read.
pub fn plan_boot<M: Machine>(alloc: Global, esp: &str, machine: &mut M) -> Result<Plan, RunError>
    ensures plans { IfOk result (λ plan. IsTrue M.tells
        → Plans (M.state machine.old) plan (boot_answer (seen (M.state machine.old)) esp.now)) }
    ensures looks { Looks M.tells M.time M.state M.counts (CountsRunError result) machine.old machine.new }
    ensures taken { IsTrue M.tells
        → TakesAtMost (menu_limit (M.state machine.old).files (folders_of esp.now)) (M.taken machine.old)
        (M.taken machine.new) }
    ensures words { RefusesWords (folders_of esp.now) result }
{
    let plan = boot(alloc, esp, machine);
    answer_or_refusal(alloc, plan)
}
