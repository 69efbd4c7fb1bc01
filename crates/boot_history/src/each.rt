//! Runs on one machine, one after the other.
ghost use Rattle.std.specs.Prelude.{◌≡◌, IsTrue, length, map, string_bytes};
ghost use Rattle.boot_machine.specs.Prelude.{IsFirm, Adds};
ghost use Rattle.boot_history.specs.Histories.{HasHistory, HaveCauses};

use boot_machine::Machine;
use boot_run::run;
use std::alloc::Global;

/// Runs the program with each of these words in turn, and writes down the status of each. The runs are a history, and
/// what the machine printed is what they printed. Each begins with what the ones before it left of the machine's input,
/// and ended as its status tells. On any machine, 3 and 4 are written down only where that count of faults rose.
pub fn run_each<M: Machine>(
    alloc: Global,
    calls: &[Vec<String>],
    statuses: &mut [u8],
    machine: &mut M,
)
    requires { length statuses.old ≡ length calls.now }
    ensures history { IsTrue M.tells → IsFirm (M.state machine.old)
        → Adds (M.state machine.old).printed (M.state machine.new).printed
        (HasHistory (map (λ words. map string_bytes words.items) calls.now) statuses.new
        (M.state machine.old) (M.state machine.new)) }
    ensures firm { IsTrue M.tells → IsFirm (M.state machine.old) → IsFirm (M.state machine.new) }
    ensures causes { HaveCauses statuses.new (M.counts machine.old) (M.counts machine.new) }
{
    for (index, words) in calls.iter().enumerate() {
        statuses[index] = run(alloc, words, machine);
    }
}
