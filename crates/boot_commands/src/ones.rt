//! One command of one action, from its reads to the end of its reply.
ghost use Rattle.std.specs.Prelude.{◌≡◌, IfOk, IsTrue};
ghost use Rattle.boot_machine.specs.Prelude.{Files, IsFirm, IsRested, Looks, seen};
ghost use Rattle.boot_commands.specs.Commands.{Behaves, LeavesTidied, MayOwn, TidiesThere, TidiesTo, one_deed};
ghost use Rattle.boot_commands.specs.Replies.{one_reply};
ghost use Rattle.command_plans.specs.Prelude.{CountsRunError, Drops, LeavesRested, Performs, Plans, SparesTemps, end_of, own_temps};

use crate::carrying::carry_out;
use boot_machine::Machine;
use command_plans::{Outcome, Plan, RunError};
use entry_commands::{plan_bless, plan_boot, plan_install, plan_list, plan_tidy, plan_unlink};
use image_build::plan_build;
use image_commands::{plan_calculate, plan_identify, plan_image, plan_inspect};
use loader_commands::{plan_default, plan_show, plan_timeout};
use std::alloc::Global;
use tool_words::One;

/// What a command of one action is going to do and to say, made by reads alone.
#[tactic(auto, unfolding(crate::specs::Replies::one_reply))]
pub fn plan_one<M: Machine>(alloc: Global, command: &One, machine: &mut M) -> Result<Plan, RunError>
    ensures plans { IfOk result (λ plan. IsTrue M.tells
        → Plans (M.state machine.old) plan (one_reply (seen (M.state machine.old)) command.now)) }
    ensures tidies { IfOk result (λ plan. IsTrue M.tells
        → (files : Files) → Drops plan.change (M.state machine.old).files files → LeavesTidied command.now files) }
    ensures owns { IfOk result (λ plan. IsTrue M.tells → MayOwn command.now (own_temps plan.change)) }
    ensures looks { Looks M.tells M.time M.state M.counts (CountsRunError result) machine.old machine.new }
{
    match command {
        One::Build(words) => plan_build(alloc, words, machine),
        One::Calculate(words) => plan_calculate(alloc, words, machine),
        One::Inspect { file, json } => plan_inspect(alloc, file.as_str(), *json, machine),
        One::Image {
            file,
            banks,
            phases,
            json,
        } => {
            let banks = banks.as_slice();
            plan_image(
                alloc,
                file.as_str(),
                banks,
                phases.as_slice(),
                *json,
                machine,
            )
        }
        One::Identify { file } => plan_identify(alloc, file.as_str(), machine),
        One::Unlink { name, esp } => plan_unlink(alloc, name.as_str(), esp.as_str(), machine),
        One::Tidy { esp } => plan_tidy(alloc, esp.as_str(), machine),
        One::List { esp, json } => plan_list(alloc, esp.as_str(), *json, machine),
        One::Boot { esp } => plan_boot(alloc, esp.as_str(), machine),
        One::Install {
            file,
            name,
            tries,
            esp,
        } => {
            let (file, name) = (file.as_str(), name.as_str());
            plan_install(alloc, file, name, tries.as_ref(), esp.as_str(), machine)
        }
        One::Bless { verb, path, esp } => {
            plan_bless(alloc, *verb, path.as_str(), esp.as_str(), machine)
        }
        One::LoaderShow { esp } => plan_show(alloc, esp.as_str(), machine),
        One::LoaderDefault { pattern, esp } => {
            plan_default(alloc, pattern.as_str(), esp.as_str(), machine)
        }
        One::LoaderTimeout { value, esp } => {
            plan_timeout(alloc, value.as_str(), esp.as_str(), machine)
        }
    }
}

/// One command of one action: its reads, its change and its reply, which goes to Out, or to Err where it is a refusal.
///
/// On a machine on which no file that boot sees waits for a sync, a stop at any moment shows the boot files
/// before the command or after it, and none of the reply is printed before the change can't be undone.
///
/// # Errors
///
/// `Disk` and `Pipe` only where the machine's own count of such faults rose; `Memory` only before anything
/// is changed or printed.
pub fn run_one<M: Machine>(
    alloc: Global,
    command: &One,
    machine: &mut M,
) -> Result<Outcome, RunError>
    requires rested { IsTrue M.tells → IsRested (M.state machine.old) }
    ensures performs { IsTrue M.tells → IsFirm (M.state machine.old)
        → Performs M.time M.state end_of machine.old machine.new
        (one_deed (seen (M.state machine.old)) command.now) result }
    ensures tidies { IsTrue M.tells
        → TidiesTo result command.now (M.state machine.old) (M.state machine.new) }
    ensures there { IsTrue M.tells
        → TidiesThere command.now (M.state machine.old).files (M.state machine.new).files }
    ensures spares { IsTrue M.tells → SparesTemps (one_reply (seen (M.state machine.old)) command.now)
        (M.state machine.old).files (M.state machine.new).files }
    ensures rests { IsTrue M.tells → LeavesRested result (M.state machine.new) }
    ensures behaves { Behaves M.tells M.state M.counts machine.old machine.new result }
{
    let plan = plan_one(alloc, command, machine)?;
    carry_out(plan, machine)
}
