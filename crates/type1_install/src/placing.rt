//! The commands that an installation and a cleanup are made of.
ghost use Rattle.std.specs.Prelude.{◌≡◌, ◌↔◌, ◌≤◌, ℕ, length, true, List, Some, IfErr, IfOk, IsTrue};
ghost use Rattle.std.specs.FinMap.{get, insert};
ghost use Rattle.boot_base.specs.Limits.{file_limit};
ghost use Rattle.boot_machine.specs.Prelude.{Looks, State, TakesAtMost, contents, seen};
ghost use Rattle.command_plans.specs.Prelude.{CanCopy, CountsRunError, CountsReadError, Plans, PlansAs, done_answer, unlink_answer};
ghost use Rattle.type1_install.specs.Unnamed.{IsNoRefusal};
ghost use Rattle.type1_install.specs.Placing.{LeavesStanding, comparing_length, enter_answer, payload_text, put_answer, put_result};

use crate::alike::are_alike;
use boot_base::{BootPath, Bytes, Target};
use boot_machine::Machine;
use command_plans::{
    Change, Outcome, Plan, ReadError, RunError, installed_text, plan_copy, plan_read_error,
    plan_removal, readable_size,
};
use std::alloc::{AllocError, Global};

// What is told of a payload.
fn payload_text(alloc: Global, target: &BootPath) -> Result<Bytes, AllocError>
    ensures { IfOk result (λ text. text ≡ payload_text target.now) }
{
    let text = format!(in alloc; "placed {target}\n")?;
    Ok(Bytes::from(text.into_bytes()))
}

// The plan of a payload's copy.
fn put_plan(alloc: Global, file: &BootPath, target: &BootPath) -> Result<Plan, AllocError>
    ensures { IfOk result (λ plan. (s : State) → CanCopy s file.now → Plans s plan
        (done_answer (insert (seen s) target.now (contents (seen s) file.now)) (payload_text target.now))) }
{
    let text = payload_text(alloc, target)?;
    let file = file.copy(alloc)?;
    let target = target.copy(alloc)?;
    plan_copy(alloc, file, target, text)
}

// The plan of a payload that stands at its place already: nothing is changed, so that no cut can harm a file that
// entries name.
fn standing_plan(alloc: Global, target: &BootPath) -> Result<Plan, AllocError>
    ensures plans { IfOk result (λ plan. (s : State) (bytes : List ℕ) → get (seen s) target.now ≡ Some bytes
        → Plans s plan (done_answer (insert (seen s) target.now bytes) (payload_text target.now))) }
    ensures idle { IfOk result (λ plan. plan.change ≡ Change.Nothing) }
{
    Ok(Plan {
        change: Change::Nothing,
        outcome: Outcome::Done,
        text: payload_text(alloc, target)?,
    })
}

// Whether the bytes of the file, which has `size`, stand at the target already.
fn is_copied<M: Machine>(
    alloc: Global,
    file: &BootPath,
    size: u64,
    target: &BootPath,
    machine: &mut M,
) -> Result<bool, ReadError>
    requires limit { size ≤ file_limit }
    ensures copied { IfOk result (λ copied. IsTrue M.tells
        → length (contents (M.state machine.old).files file.now) ≡ size
        → (copied ≡ true)
        ↔ (get (seen (M.state machine.old)) target.now ≡ Some (contents (M.state machine.old).files file.now))) }
    ensures faults { IfErr result IsNoRefusal }
    ensures looks { Looks M.tells M.time M.state M.counts (CountsReadError result) machine.old machine.new }
    ensures taken { IsTrue M.tells → length (contents (seen (M.state machine.old)) file.now) ≡ size → TakesAtMost
        (comparing_length (seen (M.state machine.old)) file.now target.now) (M.taken machine.old)
        (M.taken machine.new) }
{
    match readable_size(alloc, target, machine) {
        Ok(length) if length == size => Ok(are_alike(file, target, size, machine)?),
        Ok(_) => Ok(false),
        Err(ReadError::Memory) => Err(ReadError::Memory),
        Err(ReadError::Disk) => Err(ReadError::Disk),
        Err(ReadError::Refused(why)) => {
            drop(why);
            Ok(false)
        }
    }
}

fn put<M: Machine>(
    alloc: Global,
    file: &BootPath,
    target: &BootPath,
    machine: &mut M,
) -> Result<Plan, ReadError>
    ensures plans { IsTrue M.tells → PlansAs (M.state machine.old) result
        (put_result (seen (M.state machine.old)) file.now target.now) }
    ensures stands { IfOk result (λ plan. IsTrue M.tells
        → LeavesStanding (seen (M.state machine.old)) file.now target.now plan.change) }
    ensures looks { Looks M.tells M.time M.state M.counts (CountsReadError result) machine.old machine.new }
    ensures taken { IsTrue M.tells → TakesAtMost
        (comparing_length (seen (M.state machine.old)) file.now target.now) (M.taken machine.old)
        (M.taken machine.new) }
{
    let size = readable_size(alloc, file, machine)?;
    if is_copied(alloc, file, size, target, machine)? {
        return Ok(standing_plan(alloc, target)?);
    }
    Ok(put_plan(alloc, file, target)?)
}

/// What the copy of a file to the place of its payload is going to do: nothing if these bytes stand there already. To
/// tell that, they are compared with those of a file of the same length that stands there, each byte read once.
pub fn plan_put<M: Machine>(
    alloc: Global,
    file: &BootPath,
    target: &BootPath,
    machine: &mut M,
) -> Result<Plan, RunError>
    ensures plans { IfOk result (λ plan. IsTrue M.tells → Plans (M.state machine.old) plan
        (put_answer (seen (M.state machine.old)) file.now target.now)) }
    ensures stands { IfOk result (λ plan. IsTrue M.tells
        → LeavesStanding (seen (M.state machine.old)) file.now target.now plan.change) }
    ensures looks { Looks M.tells M.time M.state M.counts (CountsRunError result) machine.old machine.new }
    ensures taken { IsTrue M.tells → TakesAtMost
        (comparing_length (seen (M.state machine.old)) file.now target.now) (M.taken machine.old)
        (M.taken machine.new) }
{
    match put(alloc, file, target, machine) {
        Ok(plan) => Ok(plan),
        Err(read_error) => plan_read_error(alloc, read_error),
    }
}

/// What the entering of an entry's text is going to do.
pub fn plan_enter(alloc: Global, path: &BootPath, text: &Bytes) -> Result<Plan, AllocError>
    ensures { IfOk result (λ plan. (s : State) → Plans s plan (enter_answer (seen s) path.now text.now)) }
{
    let told = installed_text(alloc, path)?;
    let bytes = Bytes::of(alloc, text.as_slice())?;
    let target = Target::of(alloc, path.copy(alloc)?)?;
    Ok(Plan {
        change: Change::Put { target, bytes },
        outcome: Outcome::Done,
        text: told,
    })
}

/// What the removal of a payload is going to do.
pub fn plan_remove<M: Machine>(
    alloc: Global,
    path: &BootPath,
    machine: &mut M,
) -> Result<Plan, RunError>
    ensures plans { IfOk result (λ plan. IsTrue M.tells → Plans (M.state machine.old) plan
        (unlink_answer (seen (M.state machine.old)) path.now)) }
    ensures looks { Looks M.tells M.time M.state M.counts (CountsRunError result) machine.old machine.new }
    ensures taken { IsTrue M.tells → TakesAtMost 0 (M.taken machine.old) (M.taken machine.new) }
{
    let path = path.copy(alloc)?;
    plan_removal(alloc, path, machine)
}
