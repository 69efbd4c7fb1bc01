//! `tidy`.
ghost use Rattle.std.specs.Prelude.{◌≡◌, All, IfOk, IsTrue, Ok, bytes_eq, true};
ghost use Rattle.std.specs.List.{IsDistinct};
ghost use Rattle.boot_machine.specs.Prelude.{Files, Looks, State, TakesAtMost, has, seen};
ghost use Rattle.command_plans.specs.Prelude.{CountsRunError, Drops, Plans, RefusesWords, folders_of, own_temps, unless_refused};
ghost use Rattle.entry_commands.specs.Tidying.{AreClean, HasLeftovers, IsDirectlyIn, IsTidied, StandsAt, leftovers_among, tidy_answer};

use boot_base::{BootPath, Bytes, FileName, TempPath};
use boot_entries::Folders;
use boot_machine::Machine;
use command_plans::{
    Change, Outcome, Plan, ReadError, RunError, each_once, folders_in, plan_read_error,
};
use std::alloc::{AllocError, Global};

// The paths of the temporary files among these names of a folder.
fn leftovers_among(
    alloc: Global,
    folder: &BootPath,
    names: &[FileName],
) -> Result<Vec<TempPath>, AllocError>
    ensures { IfOk result (λ temps. temps.items ≡ leftovers_among folder.now names.now) }
{
    let mut temps = Vec::new(alloc);
    for name in names {
        if let Some(temp) = TempPath::leftover(alloc, folder, name)? {
            temps.push(temp)?;
        }
    }
    Ok(temps)
}

// The temporary files directly in a folder.
fn leftovers_in<M: Machine>(
    alloc: Global,
    folder: &BootPath,
    machine: &mut M,
) -> Result<Vec<TempPath>, RunError>
    ensures there { IfOk result (λ temps. IsTrue M.tells
        → All (λ temp. has (M.state machine.old).files temp ≡ true) temps.items) }
    ensures all { IfOk result (λ temps. IsTrue M.tells
        → HasLeftovers (M.state machine.old).files folder.now temps.items) }
    ensures within { IfOk result (λ temps. IsTrue M.tells → All (IsDirectlyIn folder.now) temps.items) }
    ensures looks { Looks M.tells M.time M.state M.counts (CountsRunError result) machine.old machine.new }
    ensures taken { IsTrue M.tells → TakesAtMost 0 (M.taken machine.old) (M.taken machine.new) }
{
    let names = machine.names(alloc, folder)?;
    Ok(leftovers_among(alloc, folder, names.as_slice())?)
}

// The temporary files directly in the folders, each once.
fn leftovers<M: Machine>(
    alloc: Global,
    folders: &Folders,
    machine: &mut M,
) -> Result<Vec<TempPath>, RunError>
    ensures distinct { IfOk result (λ temps. IsDistinct bytes_eq temps.items) }
    ensures there { IfOk result (λ temps. IsTrue M.tells
        → All (λ temp. has (M.state machine.old).files temp ≡ true) temps.items) }
    ensures entries { IfOk result (λ temps. IsTrue M.tells
        → HasLeftovers (M.state machine.old).files folders.now.entries temps.items) }
    ensures images { IfOk result (λ temps. IsTrue M.tells
        → HasLeftovers (M.state machine.old).files folders.now.images temps.items) }
    ensures within { IfOk result (λ temps. IsTrue M.tells → All (StandsAt (Ok folders.now)) temps.items) }
    ensures looks { Looks M.tells M.time M.state M.counts (CountsRunError result) machine.old machine.new }
    ensures taken { IsTrue M.tells → TakesAtMost 0 (M.taken machine.old) (M.taken machine.new) }
{
    let mut temps = leftovers_in(alloc, &folders.entries, machine)?;
    let mut images = leftovers_in(alloc, &folders.images, machine)?;
    temps.append(&mut images)?;
    Ok(each_once(temps))
}

// What the tidying of two folders is going to do.
fn tidy<M: Machine>(alloc: Global, folders: &Folders, machine: &mut M) -> Result<Plan, RunError>
    ensures plans { IfOk result (λ plan. IsTrue M.tells → Plans (M.state machine.old) plan
        (tidy_answer (seen (M.state machine.old)) folders.now)) }
    ensures tidies { IfOk result (λ plan. IsTrue M.tells
        → (files : Files) → Drops plan.change (M.state machine.old).files files → AreClean files folders.now) }
    ensures within { IfOk result (λ plan. IsTrue M.tells
        → All (StandsAt (Ok folders.now)) (own_temps plan.change)) }
    ensures looks { Looks M.tells M.time M.state M.counts (CountsRunError result) machine.old machine.new }
    ensures taken { IsTrue M.tells → TakesAtMost 0 (M.taken machine.old) (M.taken machine.new) }
{
    let temps = leftovers(alloc, folders, machine)?;
    let text = Bytes::of(alloc, b"cleaned\n")?;
    Ok(Plan {
        change: Change::Leftovers(temps),
        outcome: Outcome::Done,
        text,
    })
}

/// What the tidying of an EFI system partition is going to do.
pub fn plan_tidy<M: Machine>(alloc: Global, esp: &str, machine: &mut M) -> Result<Plan, RunError>
    ensures plans { IfOk result (λ plan. IsTrue M.tells → Plans (M.state machine.old) plan
        (unless_refused (seen (M.state machine.old)) (folders_of esp.now) (tidy_answer (seen (M.state machine.old))))) }
    ensures tidies { IfOk result (λ plan. IsTrue M.tells → (files : Files)
        → Drops plan.change (M.state machine.old).files files → IsTidied esp.now files) }
    ensures within { IfOk result (λ plan. IsTrue M.tells
        → All (StandsAt (folders_of esp.now)) (own_temps plan.change)) }
    ensures looks { Looks M.tells M.time M.state M.counts (CountsRunError result) machine.old machine.new }
    ensures taken { IsTrue M.tells → TakesAtMost 0 (M.taken machine.old) (M.taken machine.new) }
    ensures words { RefusesWords (folders_of esp.now) result }
{
    match folders_in(alloc, esp) {
        Err(word_error) => plan_read_error(alloc, ReadError::from(word_error)),
        Ok(folders) => tidy(alloc, &folders, machine),
    }
}
