//! A command of several actions, which are found and then done.
ghost use Rattle.std.specs.Prelude.{◌≡◌, false, true, All, IfOk, IsTrue, OnOk, bytes_eq, map};
ghost use Rattle.std.specs.List.{IsDistinct};
ghost use Rattle.boot_machine.specs.Prelude.{CountsDisk, HasOneCandidate, IsFirm, IsRested, has, recovered_now};
ghost use Rattle.boot_commands.specs.Commands.{Behaves};
ghost use Rattle.boot_commands.specs.Expanding.{StandsFor};
ghost use Rattle.boot_commands.specs.Sweeps.{KeepsUnswept, SweptBy};
ghost use Rattle.install_steps.specs.Recovery.{RecoversTo, SameFrom};
ghost use Rattle.install_steps.specs.Steps.{CanStep, Keeps, Lacks, LeavesAlone, NoNewTemp, StepsTo};
ghost use Rattle.command_plans.specs.Prelude.{CountsRunError, LeavesRested};
ghost use Rattle.boot_run.specs.Lines.{is_unread};
ghost use Rattle.boot_run.specs.RunsTo.{RunsTo};
ghost use Rattle.boot_run.specs.Spared.{AllKeep};
ghost use Rattle.boot_run.specs.UpToRefused.{up_to_refused};
ghost use Rattle.boot_run.specs.declared.line.Line.TheVariants.{Part};

use crate::line::Line;
use crate::lines::run_line;
use crate::recovery::recover_rename;
use boot_base::TempPath;
use boot_commands::{expand, find_leftovers};
use boot_machine::{DiskFault, Machine};
use command_plans::RunError;
use install_steps::drop_leftovers;
use std::alloc::{AllocError, Global};
use tool_words::{Action, Several};

// Takes these temporary files away, if there are any. Boot sees the same all the while.
fn sweep<M: Machine>(temps: &[TempPath], machine: &mut M) -> Result<(), DiskFault>
    requires ready { IsTrue M.tells → CanStep (M.state machine.old) }
    requires distinct { IsDistinct bytes_eq temps.now }
    requires there { IsTrue M.tells → All (λ temp. has (M.state machine.old).files temp ≡ true) temps.now }
    ensures step { IsTrue M.tells → IsFirm (M.state machine.old) → StepsTo M.time M.state
        (recovered_now (M.state machine.old)) machine.old machine.new }
    ensures gone { OnOk result (IsTrue M.tells
        → Lacks temps.now (M.state machine.old).files (M.state machine.new).files) }
    ensures next { OnOk result (IsTrue M.tells → CanStep (M.state machine.new)) }
    ensures alone { LeavesAlone M.tells M.time M.state M.counts (CountsDisk result) temps.now machine.old machine.new }
{
    if temps.is_empty() {
        return Ok(());
    }
    drop_leftovers(machine, temps)
}

/// The actions of a command. Before they are looked for, what a stop has left is finished. The temporary files that go
/// with the command are taken away before its first action.
pub fn find_actions<M: Machine>(
    alloc: Global,
    command: &Several,
    machine: &mut M,
) -> Result<Vec<Action>, RunError>
    ensures stands { IfOk result (λ actions. IsTrue M.tells → StandsFor (M.state machine.new) command.now actions.items) }
    ensures recovers { IsTrue M.tells → IsFirm (M.state machine.old)
        → RecoversTo M.time M.state machine.old machine.new }
    ensures synced { OnOk result (IsTrue M.tells → IsFirm (M.state machine.old)
        → SameFrom M.time M.state machine.old machine.new) }
    ensures one { OnOk result (IsTrue M.tells → HasOneCandidate (M.state machine.new)) }
    ensures rests { OnOk result (IsTrue M.tells → IsRested (M.state machine.new)) }
    ensures keeps { IsTrue M.tells → Keeps (M.state machine.old) (M.state machine.new) }
    ensures temps { IsTrue M.tells → NoNewTemp (M.state machine.old) (M.state machine.new) }
    ensures spares { IsTrue M.tells
        → KeepsUnswept command.now (M.state machine.old).files (M.state machine.new).files }
    ensures swept { IfOk result (λ actions. IsTrue M.tells
        → SweptBy command.now actions.items (M.state machine.new).files) }
    ensures counts { CountsRunError result (M.counts machine.old) (M.counts machine.new) }
{
    recover_rename(alloc, machine)?;
    let actions = expand(alloc, command, machine)?;
    let temps = find_leftovers(alloc, command, actions.as_slice(), machine)?;
    sweep(temps.as_slice(), machine)?;
    Ok(actions)
}

/// A line for each of these actions.
pub fn action_lines(alloc: Global, actions: Vec<Action>) -> Result<Vec<Line>, AllocError>
    ensures { IfOk result (λ lines. lines.items ≡ map Part actions.items) }
{
    let mut lines = Vec::new(alloc);
    for action in actions {
        lines.push(Line::Part(action))?;
    }
    Ok(lines)
}

/// The actions of a command, one after the other up to the first one that is refused: whether one is. A fault of the
/// machine and want of memory end the run too.
pub fn run_actions<M: Machine>(
    alloc: Global,
    lines: &[Line],
    machine: &mut M,
) -> Result<bool, RunError>
    requires commands { All (λ line. is_unread line ≡ false) lines.now }
    requires rested { IsTrue M.tells → IsRested (M.state machine.old) }
    ensures runs { IsTrue M.tells → IsFirm (M.state machine.old)
        → RunsTo M.time M.state machine.old machine.new
        (up_to_refused (recovered_now (M.state machine.old)) lines.now) result }
    ensures spares { IsTrue M.tells → IsFirm (M.state machine.old) → AllKeep (recovered_now (M.state machine.old))
        (up_to_refused (recovered_now (M.state machine.old)) lines.now) (M.state machine.old).files
        (M.state machine.new).files }
    ensures rests { IsTrue M.tells → LeavesRested result (M.state machine.new) }
    ensures behaves { Behaves M.tells M.state M.counts machine.old machine.new result }
{
    for line in lines {
        let outcome = run_line(alloc, line, machine)?;
        if outcome.is_refused() {
            return Ok(true);
        }
    }
    Ok(false)
}
