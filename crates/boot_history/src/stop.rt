//! A run on a machine in memory that is stopped.
ghost use Rattle.std.specs.Prelude.{◌≡◌, List, IfOk, Ok, map, string_bytes};
ghost use Rattle.boot_machine.specs.Prelude.{IsFirm, IsSettled, Adds, recovered_now};
ghost use Rattle.boot_machine.specs.Sent.{IsPrefix};
ghost use Rattle.memory_machine.specs.Memory.{mem_state};
ghost use Rattle.boot_run.specs.AskedLines.{asked_lines_of};
ghost use Rattle.boot_run.specs.Step.{Leaves, join_replies, replies};
ghost use Rattle.boot_run.specs.declared.line.Line.{Line};
ghost use Rattle.boot_history.specs.Histories.{StopsBy};

use boot_run::run;
use memory_machine::{CrashChoice, Fuse, MemMachine};
use std::alloc::{AllocError, Global};

/// Runs the program on a machine in memory and stops it after so many calls: each later call fails, and then the chosen
/// stop leaves a machine. So it shows in one call what `run` says of a stop at any moment, and `stop_law` of one at the
/// end: what is printed by then is a first part of the right replies, and boot sees the files before or after each
/// command. How far the run came isn't said.
pub fn run_and_stop(
    alloc: Global,
    words: &Vec<String>,
    machine: MemMachine,
    calls: u64,
    choice: &CrashChoice,
) -> Result<MemMachine, AllocError>
    // What is printed is a prefix of the replies to the lines that the words ask for.
    ensures printed { IfOk result (λ left. IsFirm (mem_state machine)
        → (lines : List Line) → asked_lines_of (map string_bytes words.now.items) (mem_state machine) ≡ Ok lines
        → Adds (mem_state machine).printed (mem_state left).printed
        (λ sent. IsPrefix sent (join_replies (replies (recovered_now (mem_state machine)) lines)))) }
    // On a settled machine boot sees the files after the acknowledged commands or one more.
    ensures seen { IfOk result (λ left. IsSettled (mem_state machine)
        → (lines : List Line) → asked_lines_of (map string_bytes words.now.items) (mem_state machine) ≡ Ok lines
        → Adds (mem_state machine).printed (mem_state left).printed
        (Leaves (recovered_now (mem_state machine)) lines (recovered_now (mem_state left)))) }
    // Whatever the words, this is a step of a history.
    ensures stops { IfOk result (λ left. IsFirm (mem_state machine)
        → StopsBy (map string_bytes words.now.items) (mem_state machine)
        (mem_state left).files (mem_state left).printed) }
    // The next run begins on a settled machine.
    ensures settled { IfOk result (λ left. IsSettled (mem_state left)) }
{
    let mut fuse = Fuse::new(machine, calls);
    run(alloc, words, &mut fuse);
    fuse.into_inner().crash(alloc, choice)
}
