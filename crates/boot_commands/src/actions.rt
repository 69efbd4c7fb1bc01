//! One action of a command of several, from its reads to the end of its reply.
ghost use Rattle.std.specs.Prelude.{◌≡◌, IfOk, IsTrue};
ghost use Rattle.boot_machine.specs.Prelude.{IsFirm, IsRested, Looks, State, TakesAtMost, seen};
ghost use Rattle.boot_commands.specs.Commands.{Behaves, action_deed, action_length};
ghost use Rattle.boot_commands.specs.Replies.{action_reply, told_text};
ghost use Rattle.command_plans.specs.Prelude.{CountsRunError, LeavesRested, Performs, Plans, SparesTemps, done_answer, end_of};

use crate::carrying::carry_out;
use boot_base::Bytes;
use boot_machine::Machine;
use command_plans::{Change, Outcome, Plan, RunError, refusal_plan};
use std::alloc::{AllocError, Global};
use tool_words::Action;
use type1_install::{plan_enter, plan_put, plan_remove};

// A text as it is told.
fn told_text(alloc: Global, text: &Bytes) -> Result<Bytes, AllocError>
    ensures { IfOk result (λ told. told ≡ told_text text.now) }
{
    let text = text.as_slice();
    if text.is_empty() {
        return Bytes::of(alloc, b"\n");
    }
    Bytes::of(alloc, text)
}

// The plan that only tells a text.
fn plan_told(alloc: Global, text: &Bytes) -> Result<Plan, AllocError>
    ensures { IfOk result (λ plan. (s : State) → Plans s plan (done_answer (seen s) (told_text text.now))) }
{
    Ok(Plan {
        change: Change::Nothing,
        outcome: Outcome::Done,
        text: told_text(alloc, text)?,
    })
}

/// What an action is going to do and to say, made by reads alone.
#[tactic(auto, unfolding(crate::specs::Replies::action_reply))]
pub fn plan_action<M: Machine>(
    alloc: Global,
    action: &Action,
    machine: &mut M,
) -> Result<Plan, RunError>
    ensures plans { IfOk result (λ plan. IsTrue M.tells
        → Plans (M.state machine.old) plan (action_reply (seen (M.state machine.old)) action.now)) }
    ensures looks { Looks M.tells M.time M.state M.counts (CountsRunError result) machine.old machine.new }
    ensures taken { IsTrue M.tells → TakesAtMost (action_length (seen (M.state machine.old)) action.now)
        (M.taken machine.old) (M.taken machine.new) }
{
    match action {
        Action::Put { file, target } => plan_put(alloc, file, target, machine),
        Action::Enter { path, text } => Ok(plan_enter(alloc, path, text)?),
        Action::Remove { path } => plan_remove(alloc, path, machine),
        Action::Refuse { why } => Ok(refusal_plan(alloc, why)?),
        Action::Tell { text } => Ok(plan_told(alloc, text)?),
    }
}

/// One action of a command of several: its reads, its change and its reply, which goes to Out, or to Err where it is a
/// refusal.
///
/// On a machine on which no file that boot sees waits for a sync, a stop at any moment shows the boot files
/// before the action or after it, and none of the reply is printed before the change can't be undone.
///
/// # Errors
///
/// `Disk` and `Pipe` only where the machine's own count of such faults rose; `Memory` only before anything
/// is changed or printed.
pub fn run_action<M: Machine>(
    alloc: Global,
    action: &Action,
    machine: &mut M,
) -> Result<Outcome, RunError>
    requires rested { IsTrue M.tells → IsRested (M.state machine.old) }
    ensures performs { IsTrue M.tells → IsFirm (M.state machine.old)
        → Performs M.time M.state end_of machine.old machine.new
        (action_deed (seen (M.state machine.old)) action.now) result }
    ensures spares { IsTrue M.tells → SparesTemps (action_reply (seen (M.state machine.old)) action.now)
        (M.state machine.old).files (M.state machine.new).files }
    ensures rests { IsTrue M.tells → LeavesRested result (M.state machine.new) }
    ensures behaves { Behaves M.tells M.state M.counts machine.old machine.new result }
{
    let plan = plan_action(alloc, action, machine)?;
    carry_out(plan, machine)
}
