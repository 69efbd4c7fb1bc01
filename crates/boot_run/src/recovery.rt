//! The recovery with which a run begins, before its first command.
ghost use Rattle.std.specs.Prelude.{[], ◌≡◌, IsTrue, OnOk};
ghost use Rattle.boot_machine.specs.Prelude.{HasOneCandidate, IsFirm, IsRested};
ghost use Rattle.install_steps.specs.Recovery.{RecoversTo, SameFrom};
ghost use Rattle.install_steps.specs.Steps.{Keeps, KeepsTempsBut, NoNewTemp};
ghost use Rattle.command_plans.specs.Prelude.{CountsRunError};

use boot_base::FilePath;
use boot_machine::Machine;
use command_plans::RunError;
use install_steps::recover;
use std::alloc::Global;

/// Finishes or undoes the rename that a stop has left half done. Where there is no memory for the intent's path
/// nothing has changed.
pub fn recover_rename<M: Machine>(alloc: Global, machine: &mut M) -> Result<(), RunError>
    ensures recovers { IsTrue M.tells → IsFirm (M.state machine.old)
        → RecoversTo M.time M.state machine.old machine.new }
    ensures synced { OnOk result (IsTrue M.tells → IsFirm (M.state machine.old)
        → SameFrom M.time M.state machine.old machine.new) }
    ensures one { OnOk result (IsTrue M.tells → HasOneCandidate (M.state machine.new)) }
    ensures rests { OnOk result (IsTrue M.tells → IsRested (M.state machine.new)) }
    ensures keeps { IsTrue M.tells → Keeps (M.state machine.old) (M.state machine.new) }
    ensures temps { IsTrue M.tells → NoNewTemp (M.state machine.old) (M.state machine.new) }
    ensures spares { IsTrue M.tells → KeepsTempsBut [] (M.state machine.old).files (M.state machine.new).files }
    ensures counts { CountsRunError result (M.counts machine.old) (M.counts machine.new) }
{
    let intent = FilePath::intent(alloc)?;
    recover(alloc, machine, &intent)?;
    Ok(())
}
