//! `bootctl unlink`.
ghost use Rattle.std.specs.Prelude.{◌≡◌, IfOk, IsTrue};
ghost use Rattle.boot_machine.specs.Prelude.{Looks, TakesAtMost, seen};
ghost use Rattle.command_plans.specs.Prelude.{CountsRunError, Means, Plans, RefusesWords, unless_refused, unlink_answer};
ghost use Rattle.entry_commands.specs.Unlinking.{entry_folder, entry_path, entry_under, is_entry_name, is_type1_name};

use boot_base::{BootPath, ENTRIES, FileName, IMAGES, PathFault, Refusal, Text};
use boot_machine::Machine;
use command_plans::{
    Plan, ReadError, RunError, WordError, file_under, path_in, plan_read_error, plan_removal,
};
use std::alloc::{AllocError, Global};

fn is_type1_name(name: &str) -> bool
    ensures { result ≡ is_type1_name name.now }
{
    name.as_bytes().ends_with(b".conf")
}

fn is_entry_name(alloc: Global, name: &str) -> Result<bool, AllocError>
    ensures { IfOk result (λ is. is ≡ is_entry_name name.now) }
{
    match FileName::read(alloc, name) {
        Ok(_) => Ok(is_type1_name(name) || name.as_bytes().ends_with(b".efi")),
        Err(PathFault::BadPath) => Ok(false),
        Err(PathFault::Memory) => Err(AllocError),
    }
}

// The folder of an entry of that name, below an EFI system partition.
fn entry_folder(name: &str) -> &'static str
    ensures { result.now ≡ entry_folder name.now }
{
    if is_type1_name(name) { ENTRIES } else { IMAGES }
}

fn entry_under(alloc: Global, esp: &BootPath, name: &str) -> Result<BootPath, WordError>
    ensures { Means (λ path. path) result (entry_under esp.now name.now) }
{
    if !is_entry_name(alloc, name)? {
        let text = Text::of(alloc, name)?;
        return Err(WordError::Refused(Refusal::BadName { text }));
    }
    file_under(alloc, esp, entry_folder(name), name)
}

fn entry_path(alloc: Global, name: &str, esp: &str) -> Result<BootPath, WordError>
    ensures { Means (λ path. path) result (entry_path name.now esp.now) }
{
    let esp = path_in(alloc, esp)?;
    entry_under(alloc, &esp, name)
}

/// What the removal of an entry is going to do.
pub fn plan_unlink<M: Machine>(
    alloc: Global,
    name: &str,
    esp: &str,
    machine: &mut M,
) -> Result<Plan, RunError>
    ensures plans { IfOk result (λ plan. IsTrue M.tells → Plans (M.state machine.old) plan
        (unless_refused (seen (M.state machine.old)) (entry_path name.now esp.now)
        (unlink_answer (seen (M.state machine.old))))) }
    ensures looks { Looks M.tells M.time M.state M.counts (CountsRunError result) machine.old machine.new }
    ensures taken { IsTrue M.tells → TakesAtMost 0 (M.taken machine.old) (M.taken machine.new) }
    ensures words { RefusesWords (entry_path name.now esp.now) result }
{
    match entry_path(alloc, name, esp) {
        Err(word_error) => plan_read_error(alloc, ReadError::from(word_error)),
        Ok(path) => plan_removal(alloc, path, machine),
    }
}
