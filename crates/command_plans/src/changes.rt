//! Changes that several commands make: a file comes to stand at another path too, or goes.
ghost use Rattle.std.specs.Prelude.{◌≡◌, length, IfOk, IsTrue, Some, ℕ, option_map};
ghost use Rattle.std.specs.FinMap.{get, insert};
ghost use Rattle.boot_machine.specs.Prelude.{Looks, State, TakesAtMost, contents, seen};
ghost use Rattle.command_plans.specs.Prelude.{done_answer, refusal, IsCopy, installed_text, unlink_answer, unlinked_text, printed_path, CountsRunError, IsLineOf, TellsGone, CanCopy, Plans};

use crate::outcome::{Outcome, RunError};
use crate::plan::{Change, Plan, RefusalLine};
use crate::reading::seen_size;
use crate::refusing::refusal_plan;
use crate::word_error::not_there;
use boot_base::{BootPath, Bytes, Refusal, Target};
use boot_machine::Machine;
use std::alloc::{AllocError, Global};

/// What is printed of a refusal.
pub fn printed_line(alloc: Global, why: Refusal) -> Result<RefusalLine, AllocError>
    ensures { IfOk result (IsLineOf why) }
{
    let refusal = RefusalLine::of(alloc, &why);
    drop(why);
    refusal
}

/// What is printed where the file at a path is gone that was to be taken away, copied or moved.
pub fn gone_line(alloc: Global, path: &BootPath) -> Result<RefusalLine, AllocError>
    ensures { IfOk result (TellsGone path.now) }
{
    printed_line(alloc, not_there(alloc, path)?)
}

/// What is told of an entry that comes to stand at a path.
pub fn installed_text(alloc: Global, path: &BootPath) -> Result<Bytes, AllocError>
    ensures { IfOk result (λ text. text ≡ installed_text path.now) }
{
    let text = format!(in alloc; "installed {path}\n")?;
    Ok(Bytes::from(text.into_bytes()))
}

// The copy of the file at a path to another.
fn copy_of(alloc: Global, from: BootPath, target: BootPath) -> Result<Change, AllocError>
    ensures { IfOk result (IsCopy from target) }
{
    let gone = gone_line(alloc, &from)?;
    let target = Target::of(alloc, target)?;
    Ok(Change::Copy { from, target, gone })
}

/// The plan of a copy of the file at `from` to `target`, which is told by this text.
pub fn plan_copy(
    alloc: Global,
    from: BootPath,
    target: BootPath,
    text: Bytes,
) -> Result<Plan, AllocError>
    ensures { IfOk result (λ plan. (s : State) → CanCopy s from
        → Plans s plan (done_answer (insert (seen s) target (contents (seen s) from)) text)) }
{
    let change = copy_of(alloc, from, target)?;
    Ok(Plan {
        change,
        outcome: Outcome::Done,
        text,
    })
}

// What is told of a file that goes.
fn unlinked_text(alloc: Global, path: &BootPath) -> Result<Bytes, AllocError>
    ensures { IfOk result (λ text. text ≡ unlinked_text path.now) }
{
    let text = format!(in alloc; "unlinked {path}\n")?;
    Ok(Bytes::from(text.into_bytes()))
}

// The plan of a removal, of a file that is there.
fn removal_there(alloc: Global, path: BootPath) -> Result<Plan, AllocError>
    ensures { IfOk result (λ plan. (s : State) (size : ℕ) → option_map length (get (seen s) path) ≡ Some size
        → Plans s plan (unlink_answer (seen s) path)) }
{
    let text = unlinked_text(alloc, &path)?;
    let gone = gone_line(alloc, &path)?;
    Ok(Plan {
        change: Change::Remove { path, gone },
        outcome: Outcome::Done,
        text,
    })
}

// The plan of a removal where no file is.
fn removal_missing(alloc: Global, path: &BootPath) -> Result<Plan, AllocError>
    ensures plans { IfOk result (λ plan. (s : State)
        → Plans s plan (refusal (seen s) (Refusal.NotFound (printed_path path.now)))) }
    ensures idle { IfOk result (λ plan. plan.change ≡ Change.Nothing) }
{
    let why = not_there(alloc, path)?;
    let plan = refusal_plan(alloc, &why);
    drop(why);
    plan
}

// The plan for the file at a path, by its length.
fn removal(alloc: Global, path: BootPath, size: Option<u64>) -> Result<Plan, AllocError>
    ensures { IfOk result (λ plan. (s : State) → option_map length (get (seen s) path) ≡ size
        → Plans s plan (unlink_answer (seen s) path)) }
{
    match size {
        None => removal_missing(alloc, &path),
        Some(_) => removal_there(alloc, path),
    }
}

/// What the removal of the file at a path is going to do.
pub fn plan_removal<M: Machine>(
    alloc: Global,
    path: BootPath,
    machine: &mut M,
) -> Result<Plan, RunError>
    ensures plans { IfOk result (λ plan. IsTrue M.tells → Plans (M.state machine.old) plan
        (unlink_answer (seen (M.state machine.old)) path)) }
    ensures looks { Looks M.tells M.time M.state M.counts (CountsRunError result) machine.old machine.new }
    ensures taken { IsTrue M.tells → TakesAtMost 0 (M.taken machine.old) (M.taken machine.new) }
{
    let size = seen_size(&path, machine)?;
    Ok(removal(alloc, path, size)?)
}
