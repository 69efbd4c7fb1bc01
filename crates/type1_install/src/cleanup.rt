//! The commands that `type1 cleanup` stands for.
ghost use Rattle.std.specs.Prelude.{◌≡◌, All, IfErr, IfOk, IsTrue, map};
ghost use Rattle.boot_machine.specs.Prelude.{Looks, TakesAtMost, seen, IsNamesOf};
ghost use Rattle.tool_words.specs.declared.action.Action.TheVariants.{Remove};
ghost use Rattle.command_plans.specs.Prelude.{CountsReadError, Says, folders_of, menu_limit};
ghost use Rattle.type1_install.specs.Cleaning.{cleanup_expansion, unnamed_payloads};
ghost use Rattle.type1_install.specs.Payloads.{HasRoom, payload_folder};
ghost use Rattle.type1_install.specs.Unnamed.{IsNoRefusal};

use crate::naming::unnamed;
use crate::place::payload_folder;
use boot_base::{BootPath, FileName};
use boot_machine::Machine;
use command_plans::{ReadError, folders_in, menu_at, path_in, push};
use menu_order::MenuItem;
use std::alloc::{AllocError, Global};
use tool_words::Action;

/// The names of the files directly in a folder.
pub(crate) fn names_in<M: Machine>(
    alloc: Global,
    folder: &BootPath,
    machine: &mut M,
) -> Result<Vec<FileName>, ReadError>
    ensures names { IfOk result (λ names. IsTrue M.tells
        → IsNamesOf (M.state machine.old).files folder.now names.items) }
    ensures faults { IfErr result IsNoRefusal }
    ensures looks { Looks M.tells M.time M.state M.counts (CountsReadError result) machine.old machine.new }
    ensures taken { IsTrue M.tells → TakesAtMost 0 (M.taken machine.old) (M.taken machine.new) }
{
    Ok(machine.names(alloc, folder)?)
}

// The payloads of an ESP that none of the entries names, in the order of their paths.
fn unnamed_payloads<M: Machine>(
    alloc: Global,
    esp: &BootPath,
    folder: &BootPath,
    items: &[MenuItem],
    machine: &mut M,
) -> Result<Vec<BootPath>, ReadError>
    requires folder { folder.now ≡ payload_folder esp.now }
    requires room { HasRoom folder.now }
    ensures paths { IfOk result (λ paths. IsTrue M.tells
        → unnamed_payloads (seen (M.state machine.old)) esp.now items.now ≡ paths.items) }
    ensures faults { IfErr result IsNoRefusal }
    ensures looks { Looks M.tells M.time M.state M.counts (CountsReadError result) machine.old machine.new }
    ensures taken { IsTrue M.tells → TakesAtMost 0 (M.taken machine.old) (M.taken machine.new) }
{
    let names = names_in(alloc, folder, machine)?;
    Ok(unnamed(alloc, esp, folder, items, &names)?)
}

/// The commands that remove these files.
pub fn removals(alloc: Global, paths: &[BootPath]) -> Result<Vec<Action>, AllocError>
    ensures { IfOk result (λ commands. commands.items ≡ map Remove paths.now) }
{
    let mut commands = Vec::new(alloc);
    for path in paths {
        let path = path.copy(alloc)?;
        push(&mut commands, Action::Remove { path })?;
    }
    Ok(commands)
}

/// The commands that a cleanup stands for, or what it is refused for. Of the entries their headers and texts are read.
#[tactic(auto, unfolding(crate::specs::Cleaning::cleanup_expansion))]
pub fn cleanup_expansion<M: Machine>(
    alloc: Global,
    esp: &str,
    machine: &mut M,
) -> Result<Vec<Action>, ReadError>
    ensures says { IsTrue M.tells → Says (λ commands. commands.items) result
        (cleanup_expansion (seen (M.state machine.old)) esp.now) }
    ensures looks { Looks M.tells M.time M.state M.counts (CountsReadError result) machine.old machine.new }
    ensures taken { IsTrue M.tells
        → TakesAtMost (menu_limit (M.state machine.old).files (folders_of esp.now)) (M.taken machine.old)
        (M.taken machine.new) }
{
    let folders = folders_in(alloc, esp)?;
    let esp = path_in(alloc, esp)?;
    let folder = payload_folder(alloc, &esp)?;
    let menu = menu_at(alloc, &folders, machine)?;
    let paths = unnamed_payloads(alloc, &esp, &folder, &menu, machine)?;
    Ok(removals(alloc, &paths)?)
}
