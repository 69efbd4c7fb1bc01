//! The top call.
ghost use Rattle.std.specs.Prelude.{◌≡◌, ◌≤◌, ◌++◌, true, false, ℕ, List, [], ◌∷◌, All, IfOk, IsErrOf, IsTrue, OnOk, Ok, Err, drop, take, ◌+◌, map, string_bytes};
ghost use Rattle.boot_machine.specs.Prelude.{EachSince, IsFirm, IsImage, IsRested, IsSettled, on_channel, recovered_now, recovered_view, recovered_views, Adds, SameButInput};
ghost use Rattle.boot_machine.specs.declared.machine.Channel.TheVariants.{Err as ErrChannel};
ghost use Rattle.install_steps.specs.Steps.{NoNewTemp};
ghost use Rattle.command_plans.specs.Prelude.{CountsRunError, Stopped};
ghost use Rattle.tool_words.specs.Meaning.{meaning};
ghost use Rattle.tool_words.specs.declared.command.Command.{Command};
ghost use Rattle.tool_words.specs.declared.fault.UsageReason.{UsageReason};
ghost use Rattle.boot_run.specs.CommandRuns.{RunsCommand};
ghost use Rattle.boot_run.specs.AskedLines.{asked_lines_of, lines_in, usage_line};
ghost use Rattle.boot_run.specs.Endings.{AllTidied, AnswersRefusals, AnswersUsage, AtEnd, FitsWords, HasCause, TakesInput, UnlessDisk, end_at, ended_of, status_of};
ghost use Rattle.boot_run.specs.Lines.{has_command, script_limit};
ghost use Rattle.boot_run.specs.RunBy.{AllPrinted, CleanBehind, LeavesFromSync, RunsBy, RunsUsage};
ghost use Rattle.boot_run.specs.Spared.{RunSpares};
ghost use Rattle.boot_run.specs.Step.{Leads, Leaves, SeesBegun, some_refused};
ghost use Rattle.boot_run.specs.declared.line.Line.{Line};

use crate::ended::Ended;
use crate::expansion::{action_lines, find_actions, run_actions};
use crate::input::read_all;
use crate::line::Line;
use crate::lines::run_lines;
use crate::script::lines_in;
use boot_base::Text;
use boot_machine::{Channel, Machine, print_all};
use command_plans::RunError;
use std::alloc::{AllocError, Global};
use tool_words::{Command, One, Several, UsageReason, WordsFault};

// The lines of a script, taken from standard input.
fn read_script<M: Machine>(alloc: Global, machine: &mut M) -> Result<Vec<Line>, RunError>
    ensures lines { IfOk result (λ lines. IsTrue M.tells
        → lines.items ≡ lines_in (take (script_limit + 1) (M.state machine.old).input)) }
    ensures rest { OnOk result (IsTrue M.tells
        → (M.state machine.new).input ≡ drop (script_limit + 1) (M.state machine.old).input) }
    ensures taken { IsTrue M.tells
        → (k : ℕ) × (k ≤ script_limit + 1) × ((M.state machine.new).input ≡ drop k (M.state machine.old).input) }
    ensures same { IsTrue M.tells → SameButInput (M.state machine.old) (M.state machine.new) }
    ensures moments { IsTrue M.tells → EachSince M.time machine.old machine.new
        (λ m o. IsImage (M.state machine.old) m × (o ≡ (M.state machine.old).printed)) }
    ensures no_disk { IsErrOf result RunError.Disk → ⊥ }
    ensures counts { CountsRunError result (M.counts machine.old) (M.counts machine.new) }
{
    let input = read_all(alloc, machine)?;
    Ok(lines_in(alloc, input.as_slice())?)
}

// A script: the commands on standard input.
fn run_script<M: Machine>(alloc: Global, machine: &mut M) -> Result<bool, RunError>
    ensures { RunsCommand M.tells M.time M.state M.counts machine.old machine.new Command.Script result }
{
    let lines = read_script(alloc, machine)?;
    run_lines(alloc, lines.as_slice(), machine)
}

// A command of one action.
fn run_alone<M: Machine>(alloc: Global, command: One, machine: &mut M) -> Result<bool, RunError>
    ensures { RunsCommand M.tells M.time M.state M.counts machine.old machine.new (Command.One command) result }
{
    let lines = [Line::Plain(command)];
    run_lines(alloc, &lines, machine)
}

// A command of several actions.
fn run_several<M: Machine>(
    alloc: Global,
    command: Several,
    machine: &mut M,
) -> Result<bool, RunError>
    ensures { RunsCommand M.tells M.time M.state M.counts machine.old machine.new (Command.Several command) result }
{
    let actions = find_actions(alloc, &command, machine);
    drop(command);
    let lines = action_lines(alloc, actions?)?;
    run_actions(alloc, lines.as_slice(), machine)
}

// A command, by its kind.
fn run_command<M: Machine>(
    alloc: Global,
    command: Command,
    machine: &mut M,
) -> Result<bool, RunError>
    ensures { RunsCommand M.tells M.time M.state M.counts machine.old machine.new command result }
{
    match command {
        Command::Script => run_script(alloc, machine),
        Command::One(command) => run_alone(alloc, command, machine),
        Command::Several(command) => run_several(alloc, command, machine),
    }
}

fn usage_line(alloc: Global, reason: &UsageReason) -> Result<Text, AllocError>
    ensures { IfOk result (λ line. line ≡ usage_line reason.now) }
{
    Ok(Text::from(format!(in alloc; "usage: {reason}\n")?))
}

// Prints the line for words that are no command.
fn print_usage<M: Machine>(alloc: Global, reason: &UsageReason, machine: &mut M) -> Ended
    ensures status { AnswersUsage result }
    ensures runs { IsTrue M.tells
        → RunsUsage M.time M.state machine.old machine.new (on_channel ErrChannel (usage_line reason.now)) result }
    ensures causes { HasCause result (M.counts machine.old) (M.counts machine.new) }
{
    let Ok(line) = usage_line(alloc, reason) else {
        return Ended::Memory;
    };
    match print_all(Channel::Err, line.as_str().as_bytes(), machine) {
        Ok(()) => Ended::Usage,
        Err(_) => Ended::Pipe,
    }
}

// A run, by how it ends.
fn run_to_end<M: Machine>(alloc: Global, words: &Vec<String>, machine: &mut M) -> Ended
    ensures fits { FitsWords (meaning (map string_bytes words.now.items)) result }
    ensures runs { IsTrue M.tells → RunsBy M.time M.state
        (asked_lines_of (map string_bytes words.now.items) (M.state machine.old)) machine.old machine.new result }
    ensures tidies { IsTrue M.tells → (lines : List Line)
        → asked_lines_of (map string_bytes words.now.items) (M.state machine.old) ≡ Ok lines
        → AtEnd result (AllTidied lines (M.state machine.new)) }
    ensures rests { IsTrue M.tells → (lines : List Line)
        → asked_lines_of (map string_bytes words.now.items) (M.state machine.old) ≡ Ok lines
        → AtEnd result (has_command lines ≡ true → IsRested (M.state machine.new)) }
    ensures behind { IsTrue M.tells → IsFirm (M.state machine.old)
        → (lines : List Line) → asked_lines_of (map string_bytes words.now.items) (M.state machine.old) ≡ Ok lines
        → CleanBehind (M.state machine.old) (M.state machine.new) lines result }
    ensures input { IsTrue M.tells
        → TakesInput (meaning (map string_bytes words.now.items)) result
        (M.state machine.old).input (M.state machine.new).input }
    ensures temps { IsTrue M.tells → UnlessDisk result (NoNewTemp (M.state machine.old) (M.state machine.new)) }
    ensures spares { IsTrue M.tells → IsFirm (M.state machine.old) → (command : Command)
        → meaning (map string_bytes words.now.items) ≡ Ok command
        → RunSpares command (M.state machine.old) (M.state machine.new) }
    ensures causes { HasCause result (M.counts machine.old) (M.counts machine.new) }
{
    match Command::read(alloc, words) {
        Ok(command) => Ended::of_lines(run_command(alloc, command, machine)),
        Err(WordsFault::Memory) => Ended::Memory,
        Err(WordsFault::Usage { reason }) => print_usage(alloc, &reason, machine),
    }
}

/// The whole program over any machine: a command by its words, or a script of commands on standard input.
/// The result is the status that the program ends with.
///
/// - 0: done, and all replies are printed.
/// - 1: the same, and some reply is a refusal.
/// - 2: the words are no command. The usage line is printed on Err, and nothing else is changed.
/// - 3: a disk fault, before all replies are printed; 4: a fault of input or output; 5: want of memory. With 3 and 5
///   whole replies alone are printed, with 4 maybe a part of one.
///
/// Before the first line that is a command, a rename that a stop has left half done is finished or undone.
pub fn run<M: Machine>(alloc: Global, words: &Vec<String>, machine: &mut M) -> u8
    ensures status { result ≡ status_of (ended_of result) }
    // On a settled machine a stop at any moment leaves printed a prefix of the replies, and boot sees the
    // files after the acknowledged commands or one more.
    ensures headline { IsTrue M.tells → IsSettled (M.state machine.old)
        → (lines : List Line) → asked_lines_of (map string_bytes words.now.items) (M.state machine.old) ≡ Ok lines
        → EachSince M.time machine.old machine.new (λ image printed. Adds (M.state machine.old).printed printed
        (Leaves (recovered_now (M.state machine.old)) lines (recovered_view image))) }
    // No part of a reply is printed before its change.
    ensures after_change { IsTrue M.tells → IsSettled (M.state machine.old)
        → (lines : List Line) → asked_lines_of (map string_bytes words.now.items) (M.state machine.old) ≡ Ok lines
        → EachSince M.time machine.old machine.new (λ image printed. Adds (M.state machine.old).printed printed
        (SeesBegun (recovered_now (M.state machine.old)) lines (recovered_view image))) }
    // On a machine that is only firm, each moment is one up to the sync of the names, at which a stop leaves what it
    // would have left at the start and no more is printed than replies to leading lines that are no command, or one
    // from that sync on, at which all is as on a settled machine.
    ensures from_sync { IsTrue M.tells → IsFirm (M.state machine.old)
        → (lines : List Line) → asked_lines_of (map string_bytes words.now.items) (M.state machine.old) ≡ Ok lines
        → LeavesFromSync M.time M.state machine.old machine.new lines }
    // Whatever the words, the run leads from the views at its start to those at its end, and a stop at any moment to
    // one view. These are the steps of a history. At 3 not all lines are acknowledged.
    ensures leads { IsTrue M.tells → IsFirm (M.state machine.old)
        → Adds (M.state machine.old).printed (M.state machine.new).printed (λ sent. Leads
        (recovered_views (M.state machine.old))
        (asked_lines_of (map string_bytes words.now.items) (M.state machine.old))
        (recovered_views (M.state machine.new)) sent (end_at (ended_of result))) }
    ensures stops { IsTrue M.tells → IsFirm (M.state machine.old)
        → EachSince M.time machine.old machine.new (λ image printed. Adds (M.state machine.old).printed printed
        (λ sent. Leads (recovered_views (M.state machine.old))
        (asked_lines_of (map string_bytes words.now.items) (M.state machine.old)) (recovered_view image ∷ []) sent
        Stopped)) }
    // At 0 and 1 all replies are printed, and boot sees the files after all lines.
    ensures finished { IsTrue M.tells → IsFirm (M.state machine.old)
        → (lines : List Line) → asked_lines_of (map string_bytes words.now.items) (M.state machine.old) ≡ Ok lines
        → AtEnd (ended_of result) (AllPrinted (M.state machine.old) (M.state machine.new) lines) }
    // 1 exactly where some reply is a refusal, unless a fault or want of memory ended the run.
    ensures refused { IsTrue M.tells → IsFirm (M.state machine.old)
        → (lines : List Line) → asked_lines_of (map string_bytes words.now.items) (M.state machine.old) ≡ Ok lines
        → AnswersRefusals (some_refused (recovered_now (M.state machine.old)) lines) (ended_of result) }
    // 2 exactly where the words are no command, unless a pipe failed or memory was wanting.
    ensures fits { FitsWords (meaning (map string_bytes words.now.items)) (ended_of result) }
    ensures usage { IsTrue M.tells → (reason : UsageReason) → meaning (map string_bytes words.now.items) ≡ Err reason
        → RunsUsage M.time M.state machine.old machine.new
        (on_channel ErrChannel (usage_line reason)) (ended_of result) }
    // 3 and 4 only where that count rose, and every other status leaves both.
    ensures causes { HasCause (ended_of result) (M.counts machine.old) (M.counts machine.new) }
    ensures firm { IsTrue M.tells → IsFirm (M.state machine.old) → IsFirm (M.state machine.new) }
    ensures settled { IsTrue M.tells
        → UnlessDisk (ended_of result) (IsSettled (M.state machine.old) → IsSettled (M.state machine.new)) }
    // Standard input is taken only by a script, and never more than one byte past its limit.
    ensures input { IsTrue M.tells → TakesInput (meaning (map string_bytes words.now.items)) (ended_of result)
        (M.state machine.old).input (M.state machine.new).input }
    // No temporary file is left that wasn't there, and at 0 and 1 none in a folder that was tidied.
    ensures temps { IsTrue M.tells
        → UnlessDisk (ended_of result) (NoNewTemp (M.state machine.old) (M.state machine.new)) }
    // Each temporary file is as it was, but one beside a file that stands after a line, the one beside the intent, those in
    // the folders of a tidying, and with a cleanup those beside payloads.
    ensures spares { IsTrue M.tells → IsFirm (M.state machine.old) → (command : Command)
        → meaning (map string_bytes words.now.items) ≡ Ok command
        → RunSpares command (M.state machine.old) (M.state machine.new) }
    ensures tidied { IsTrue M.tells
        → (lines : List Line) → asked_lines_of (map string_bytes words.now.items) (M.state machine.old) ≡ Ok lines
        → AtEnd (ended_of result) (AllTidied lines (M.state machine.new)) }
    // Where a line was a command, no rename is left half done at 0 and 1.
    ensures rests { IsTrue M.tells
        → (lines : List Line) → asked_lines_of (map string_bytes words.now.items) (M.state machine.old) ≡ Ok lines
        → AtEnd (ended_of result) (has_command lines ≡ true → IsRested (M.state machine.new)) }
    // At 4 and 5 both hold of the lines that were acknowledged.
    ensures behind { IsTrue M.tells → IsFirm (M.state machine.old)
        → (lines : List Line) → asked_lines_of (map string_bytes words.now.items) (M.state machine.old) ≡ Ok lines
        → CleanBehind (M.state machine.old) (M.state machine.new) lines (ended_of result) }
{
    run_to_end(alloc, words, machine).status()
}
