//! The temporary files that go with a command of several actions.
ghost use Rattle.std.specs.Prelude.{◌≡◌, All, IfErr, IfOk, IsTrue, Result, List, [], bytes_eq, true};
ghost use Rattle.std.specs.List.{IsDistinct};
ghost use Rattle.boot_base.specs.Paths.{Path};
ghost use Rattle.boot_base.specs.declared.refusal.Refusal.{Refusal};
ghost use Rattle.boot_machine.specs.Prelude.{Counts, Files, Looks, TakesAtMost, has};
ghost use Rattle.boot_commands.specs.Sweeps.{FindsSwept, MaySweep, begins_refused};
ghost use Rattle.command_plans.specs.Prelude.{CountsRunError, CountsReadError, ReadErrorFor};
ghost use Rattle.tool_words.specs.declared.command.Several.{Several};
ghost use Rattle.type1_install.specs.Sweeping.{FindsBeside};

use boot_base::TempPath;
use boot_machine::Machine;
use command_plans::{ReadError, RunError};
use std::alloc::Global;
use tool_words::{Action, Several};
use type1_install::payload_leftovers;

// Whether these actions are the refusal of a command.
fn begins_refused(actions: &[Action]) -> bool
    ensures { result ≡ begins_refused actions.now }
{
    matches!(actions, [Action::Refuse { .. }, ..])
}

/// The temporary files that go with a command: with a cleanup that isn't refused those beside payloads. They are found by
/// the names in their folder, and no file is read.
pub fn find_leftovers<M: Machine>(
    alloc: Global,
    command: &Several,
    actions: &[Action],
    machine: &mut M,
) -> Result<Vec<TempPath>, RunError>
    ensures distinct { IfOk result (λ temps. IsDistinct bytes_eq temps.items) }
    ensures there { IfOk result (λ temps. IsTrue M.tells
        → All (λ temp. has (M.state machine.old).files temp ≡ true) temps.items) }
    ensures all { IfOk result (λ temps. IsTrue M.tells
        → FindsSwept command.now actions.now (M.state machine.old).files temps.items) }
    ensures within { IfOk result (λ temps. All (MaySweep command.now) temps.items) }
    ensures looks { Looks M.tells M.time M.state M.counts (CountsRunError result) machine.old machine.new }
    ensures taken { IsTrue M.tells → TakesAtMost 0 (M.taken machine.old) (M.taken machine.new) }
{
    match command {
        Several::Type1Cleanup { esp } if !begins_refused(actions) => {
            let temps = payload_leftovers(alloc, esp.as_str(), machine);
            temps_or_none(alloc, temps)
        }
        _ => Ok(Vec::new(alloc)),
    }
}

// The temporary files that were found, and none of a command that is refused.
fn temps_or_none(
    alloc: Global,
    temps: Result<Vec<TempPath>, ReadError>,
) -> Result<Vec<TempPath>, RunError>
    ensures distinct { IfOk temps (λ found. IsDistinct bytes_eq found.items)
        → IfOk result (λ found. IsDistinct bytes_eq found.items) }
    ensures there { (files : Files) → IfOk temps (λ found. All (λ temp. has files temp ≡ true) found.items)
        → IfOk result (λ found. All (λ temp. has files temp ≡ true) found.items) }
    ensures within { (c : Several) → IfOk temps (λ found. All (MaySweep c) found.items)
        → IfOk result (λ found. All (MaySweep c) found.items) }
    ensures all { (files : Files) (meant : Result Path Refusal)
        → IfOk temps (λ found. FindsBeside meant files found.items) → IfErr temps (λ error. ReadErrorFor error meant)
        → IfOk result (λ found. FindsBeside meant files found.items) }
    ensures counts { (old new : Counts) → CountsReadError temps old new → CountsRunError result old new }
{
    match temps {
        Ok(temps) => Ok(temps),
        Err(ReadError::Memory) => Err(RunError::Memory),
        Err(ReadError::Disk) => Err(RunError::Disk),
        Err(ReadError::Refused(_)) => Ok(Vec::new(alloc)),
    }
}
