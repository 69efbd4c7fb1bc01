//! What the carrying out of a plan keeps of the files, and what it leaves to tidy.
ghost use Rattle.std.specs.Prelude.{◌≡◌, IsTrue};
ghost use Rattle.boot_machine.specs.Prelude.{Files, IsFirm, IsRested, seen};
ghost use Rattle.boot_commands.specs.Commands.{Behaves, LeavesTidied, TidiesTo};
ghost use Rattle.command_plans.specs.Prelude.{CanMake, Drops, LeavesRested, Performs, SparesTemps, answer_of_plan, end_of, deed_of_answer, own_temps};
ghost use Rattle.install_steps.specs.Steps.{KeepsTempsBut};
ghost use Rattle.tool_words.specs.declared.command.One.{One};

use boot_machine::Machine;
use command_plans::{Outcome, Plan, RunError, perform};

/// Carries out a plan, as `perform` does it.
pub(crate) fn carry_out<M: Machine>(plan: Plan, machine: &mut M) -> Result<Outcome, RunError>
    requires rested { IsTrue M.tells → IsRested (M.state machine.old) }
    requires there { IsTrue M.tells → CanMake (M.state machine.old) plan.change }
    ensures performs { IsTrue M.tells → IsFirm (M.state machine.old)
        → Performs M.time M.state end_of machine.old machine.new
        (deed_of_answer (answer_of_plan (seen (M.state machine.old)) plan)) result }
    ensures tidies { IsTrue M.tells → (c : One)
        → ((files : Files) → Drops plan.change (M.state machine.old).files files → LeavesTidied c files)
        → TidiesTo result c (M.state machine.old) (M.state machine.new) }
    ensures spares { IsTrue M.tells → SparesTemps (answer_of_plan (seen (M.state machine.old)) plan)
        (M.state machine.old).files (M.state machine.new).files }
    ensures others { IsTrue M.tells → KeepsTempsBut (own_temps plan.change) (M.state machine.old).files
        (M.state machine.new).files }
    ensures rests { IsTrue M.tells → LeavesRested result (M.state machine.new) }
    ensures behaves { Behaves M.tells M.state M.counts machine.old machine.new result }
{
    let result = perform(&plan, machine);
    drop(plan);
    Ok(result?)
}
