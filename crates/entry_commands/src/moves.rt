//! Boot files that get another name.
ghost use Rattle.std.specs.Prelude.{◌≡◌, true, false, IfOk, IsTrue, string_bytes};
ghost use Rattle.boot_machine.specs.Prelude.{CountsDisk, Looks, State, TakesAtMost, has, move_in, seen};
ghost use Rattle.command_plans.specs.Prelude.{Plans, done_answer, printed_path};
ghost use Rattle.entry_commands.specs.Moving.{IsMove};

use boot_base::{BootPath, Bytes, Refusal};
use boot_machine::{DiskFault, Machine};
use command_plans::{Change, Outcome, Plan, gone_line, printed_line, printed_path, seen_size};
use install_steps::Intent;
use std::alloc::{AllocError, Global};

/// Whether a boot file stands at a path.
pub(crate) fn is_there<M: Machine>(path: &BootPath, machine: &mut M) -> Result<bool, DiskFault>
    ensures there { IfOk result (λ is. IsTrue M.tells → is ≡ has (seen (M.state machine.old)) path.now) }
    ensures looks { Looks M.tells M.time M.state M.counts (CountsDisk result) machine.old machine.new }
    ensures taken { IsTrue M.tells → TakesAtMost 0 (M.taken machine.old) (M.taken machine.new) }
{
    let size = seen_size(path, machine)?;
    Ok(size.is_some())
}

/// The refusal of a path at which a file is there already.
pub(crate) fn already_there(alloc: Global, path: &BootPath) -> Result<Refusal, AllocError>
    ensures { IfOk result (λ why. why ≡ Refusal.TargetExists (printed_path path.now)) }
{
    let path = printed_path(alloc, path)?;
    Ok(Refusal::TargetExists { path })
}

// The move, with what is printed where a machine has changed its mind about the two files.
fn move_of(alloc: Global, from: &BootPath, to: &BootPath) -> Result<Change, AllocError>
    ensures { IfOk result (IsMove from.now to.now) }
{
    let gone = gone_line(alloc, from)?;
    let exists = printed_line(alloc, already_there(alloc, to)?)?;
    let intent = Intent::of(alloc, from, to)?;
    Ok(Change::Move {
        from: from.copy(alloc)?,
        to: to.copy(alloc)?,
        intent,
        gone,
        exists,
    })
}

/// The plan of a move of the boot file at `from` to `to`, which is told by this text.
pub(crate) fn plan_move(
    alloc: Global,
    from: &BootPath,
    to: &BootPath,
    text: String,
) -> Result<Plan, AllocError>
    ensures { IfOk result (λ plan. (s : State) → has (seen s) from.now ≡ true → has (seen s) to.now ≡ false
        → Plans s plan (done_answer (move_in from.now to.now (seen s)) (string_bytes text))) }
{
    Ok(Plan {
        change: move_of(alloc, from, to)?,
        outcome: Outcome::Done,
        text: Bytes::from(text.into_bytes()),
    })
}

/// The plan of a command that has nothing to change, and is told by this text.
pub(crate) fn plan_nothing(text: String) -> Plan
    ensures { (s : State) → Plans s result (done_answer (seen s) (string_bytes text)) }
{
    Plan {
        change: Change::Nothing,
        outcome: Outcome::Done,
        text: Bytes::from(text.into_bytes()),
    }
}
