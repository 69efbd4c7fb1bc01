//! A run over a list of lines.
ghost use Rattle.std.specs.Prelude.{◌≡◌, ◌||◌, true, false, not, All, IfOk, OnOk, OnErr, ℕ, take, IsTrue};
ghost use Rattle.boot_base.specs.Refusals.{line_of};
ghost use Rattle.boot_machine.specs.Prelude.{CountsPipe, EachSince, IsFirm, IsRested, on_channel, recovered_now, seen, with_printed, PrintsPart};
ghost use Rattle.boot_machine.specs.declared.machine.Channel.TheVariants.{Err, Out};
ghost use Rattle.command_plans.specs.Prelude.{CountsRunError, LeavesRested, Performs, end_of, is_refusal};
ghost use Rattle.boot_commands.specs.Commands.{Behaves, LeavesTidied, one_deed};
ghost use Rattle.boot_run.specs.Endings.{AllTidied, ended_by};
ghost use Rattle.boot_run.specs.Lines.{Prints, TidiedBy, with_acknowledgement, acknowledgement, acknowledgement_in, has_command, is_unread, line_deed, no_command_text, too_long_text, unread_deed};
ghost use Rattle.boot_run.specs.RunBy.{CleanBehind};
ghost use Rattle.boot_run.specs.RunsTo.{IsSyncedBy, OnlyPrints, PerformsBehind, RunsTo, SyncsFirst, WherePrinted};
ghost use Rattle.boot_run.specs.Spared.{AllKeep, LineKeeps};
ghost use Rattle.boot_run.specs.declared.line.Line.TheVariants.{Numbered};

use crate::input::SCRIPT_LIMIT;
use crate::line::Line;
use crate::recovery::recover_rename;
use boot_base::{Bytes, Refusal, Text};
use boot_commands::{run_action, run_one};
use boot_machine::{Channel, Machine, PipeFault, print_all};
use command_plans::{Outcome, RunError, refusal_line};
use std::alloc::{AllocError, Global};
use tool_words::One;

/// The two lines that may stand behind a reply.
#[derive(Drop)]
struct Acknowledgements {
    ok: Bytes,
    refused: Bytes,
}

impl Acknowledgements {
    // Both lines of a script's line of that number.
    fn of(alloc: Global, number: u64) -> Result<Acknowledgements, AllocError>
        ensures { IfOk result (λ texts. (outcome : Outcome)
            → acknowledgement_in texts outcome ≡ acknowledgement outcome number) }
    {
        let ok = format!(in alloc; "ok {number}\n")?;
        let refused = format!(in alloc; "refused {number}\n")?;
        Ok(Acknowledgements {
            ok: Bytes::from(ok.into_bytes()),
            refused: Bytes::from(refused.into_bytes()),
        })
    }
}

// Prints the line behind a reply.
fn acknowledge<M: Machine>(
    outcome: Outcome,
    texts: &Acknowledgements,
    machine: &mut M,
) -> Result<(), PipeFault>
    ensures done { OnOk result (IsTrue M.tells
        → M.state machine.new ≡ with_printed Out (acknowledgement_in texts.now outcome) (M.state machine.old)) }
    ensures part { OnErr result (IsTrue M.tells
        → (k : ℕ) × (M.state machine.new
        ≡ with_printed Out (take k (acknowledgement_in texts.now outcome)) (M.state machine.old))) }
    ensures moments { IsTrue M.tells
        → EachSince M.time machine.old machine.new
        (PrintsPart (M.state machine.old) (on_channel Out (acknowledgement_in texts.now outcome))) }
    ensures stays { IsTrue M.tells → Prints (M.state machine.old) (M.state machine.new) }
    ensures counts { CountsPipe result (M.counts machine.old) (M.counts machine.new) }
{
    match outcome {
        Outcome::Done => print_all(Channel::Out, texts.ok.as_slice(), machine),
        Outcome::Refused { .. } => print_all(Channel::Out, texts.refused.as_slice(), machine),
    }
}

// Prints the refusal of what is no command.
fn refuse_unread<M: Machine>(number: u8, text: &Bytes, machine: &mut M) -> Result<Outcome, RunError>
    ensures performs { IsTrue M.tells → IsFirm (M.state machine.old)
        → Performs M.time M.state end_of machine.old machine.new
        (unread_deed number text.now (recovered_now (M.state machine.old))) result }
    ensures moments { IsTrue M.tells → EachSince M.time machine.old machine.new
        (PrintsPart (M.state machine.old) (on_channel Err text.now)) }
    ensures stays { IsTrue M.tells → Prints (M.state machine.old) (M.state machine.new) }
    ensures counts { CountsRunError result (M.counts machine.old) (M.counts machine.new) }
{
    print_all(Channel::Err, text.as_slice(), machine)?;
    Ok(Outcome::Refused { number })
}

// A line of a script that is a command.
fn run_numbered<M: Machine>(
    alloc: Global,
    number: u64,
    command: &One,
    machine: &mut M,
) -> Result<Outcome, RunError>
    requires rested { IsTrue M.tells → IsRested (M.state machine.old) }
    ensures performs { IsTrue M.tells → IsFirm (M.state machine.old)
        → Performs M.time M.state end_of machine.old machine.new
        (with_acknowledgement number (one_deed (seen (M.state machine.old)) command.now)) result }
    ensures tidies { IsTrue M.tells → WherePrinted result (M.state machine.old) (M.state machine.new)
        (LeavesTidied command.now (M.state machine.new).files) }
    ensures spares { IsTrue M.tells → LineKeeps (seen (M.state machine.old)) (Numbered number command.now)
        (M.state machine.old).files (M.state machine.new).files }
    ensures rests { IsTrue M.tells → LeavesRested result (M.state machine.new) }
    ensures behaves { Behaves M.tells M.state M.counts machine.old machine.new result }
{
    let texts = Acknowledgements::of(alloc, number)?;
    let outcome = run_one(alloc, command, machine)?;
    acknowledge(outcome, &texts, machine)?;
    Ok(outcome)
}

fn no_command(alloc: Global, number: u64) -> Result<Bytes, AllocError>
    ensures { IfOk result (λ text. text ≡ no_command_text number) }
{
    refusal_line(alloc, &Refusal::BadScript { line: number })
}

// A line of a script that is no command.
fn unread_line<M: Machine>(alloc: Global, number: u64, machine: &mut M) -> Result<Outcome, RunError>
    ensures performs { IsTrue M.tells → IsFirm (M.state machine.old)
        → Performs M.time M.state end_of machine.old machine.new
        (with_acknowledgement number (unread_deed 17 (no_command_text number) (recovered_now (M.state machine.old))))
        result }
    ensures moments { IsTrue M.tells → IsFirm (M.state machine.old)
        → EachSince M.time machine.old machine.new
        (PrintsPart (M.state machine.old)
        (with_acknowledgement number
        (unread_deed 17 (no_command_text number) (recovered_now (M.state machine.old)))).sent) }
    ensures stays { IsTrue M.tells → Prints (M.state machine.old) (M.state machine.new) }
    ensures counts { CountsRunError result (M.counts machine.old) (M.counts machine.new) }
{
    let text = no_command(alloc, number)?;
    let texts = Acknowledgements::of(alloc, number)?;
    let outcome = refuse_unread(17, &text, machine)?;
    acknowledge(outcome, &texts, machine)?;
    Ok(outcome)
}

fn too_long_refusal(alloc: Global) -> Result<Bytes, AllocError>
    ensures { IfOk result (λ text. text ≡ too_long_text) }
{
    let path = Text::of(alloc, "standard input")?;
    let size = SCRIPT_LIMIT as u64 + 1;
    refusal_line(alloc, &Refusal::TooLarge { path, size })
}

// A script that is too long.
fn too_long<M: Machine>(alloc: Global, machine: &mut M) -> Result<Outcome, RunError>
    ensures performs { IsTrue M.tells → IsFirm (M.state machine.old)
        → Performs M.time M.state end_of machine.old machine.new
        (unread_deed 3 too_long_text (recovered_now (M.state machine.old))) result }
    ensures moments { IsTrue M.tells → EachSince M.time machine.old machine.new
        (PrintsPart (M.state machine.old) (on_channel Err too_long_text)) }
    ensures stays { IsTrue M.tells → Prints (M.state machine.old) (M.state machine.new) }
    ensures counts { CountsRunError result (M.counts machine.old) (M.counts machine.new) }
{
    let text = too_long_refusal(alloc)?;
    refuse_unread(3, &text, machine)
}

/// One line. A command asks for a machine that is rested.
pub fn run_line<M: Machine>(
    alloc: Global,
    line: &Line,
    machine: &mut M,
) -> Result<Outcome, RunError>
    requires rested { IsTrue M.tells → is_unread line.now ≡ false → IsRested (M.state machine.old) }
    ensures performs { IsTrue M.tells → IsFirm (M.state machine.old)
        → Performs M.time M.state end_of machine.old machine.new
        (line_deed (recovered_now (M.state machine.old)) line.now) result }
    ensures only_prints { IsTrue M.tells → IsFirm (M.state machine.old) → is_unread line.now ≡ true
        → OnlyPrints M.time M.state machine.old machine.new
        (line_deed (recovered_now (M.state machine.old)) line.now).sent }
    ensures tidies { IsTrue M.tells → WherePrinted result (M.state machine.old) (M.state machine.new)
        (TidiedBy (M.state machine.new).files line.now) }
    ensures spares { IsTrue M.tells → LineKeeps (recovered_now (M.state machine.old)) line.now
        (M.state machine.old).files (M.state machine.new).files }
    ensures rests { IsTrue M.tells → IsRested (M.state machine.old) → LeavesRested result (M.state machine.new) }
    ensures behaves { Behaves M.tells M.state M.counts machine.old machine.new result }
{
    match line {
        Line::Plain(command) => run_one(alloc, command, machine),
        Line::Part(action) => run_action(alloc, action, machine),
        Line::Numbered(number, command) => run_numbered(alloc, *number, command, machine),
        Line::Unread(number) => unread_line(alloc, *number, machine),
        Line::TooLong => too_long(alloc, machine),
    }
}

// The first command of a run: what a stop has left is finished before its reads.
fn first_command<M: Machine>(
    alloc: Global,
    line: &Line,
    machine: &mut M,
) -> Result<Outcome, RunError>
    requires command { is_unread line.now ≡ false }
    ensures performs { IsTrue M.tells → IsFirm (M.state machine.old)
        → PerformsBehind M.time M.state machine.old machine.new
        (line_deed (recovered_now (M.state machine.old)) line.now) result }
    ensures syncs { IsTrue M.tells → IsFirm (M.state machine.old)
        → SyncsFirst M.time M.state machine.old machine.new
        (line_deed (recovered_now (M.state machine.old)) line.now) result }
    ensures tidies { IsTrue M.tells → WherePrinted result (M.state machine.old) (M.state machine.new)
        (TidiedBy (M.state machine.new).files line.now) }
    ensures spares { IsTrue M.tells → IsFirm (M.state machine.old)
        → LineKeeps (recovered_now (M.state machine.old)) line.now (M.state machine.old).files
        (M.state machine.new).files }
    ensures rests { IsTrue M.tells → WherePrinted result (M.state machine.old) (M.state machine.new)
        (IsRested (M.state machine.new)) }
    ensures behaves { Behaves M.tells M.state M.counts machine.old machine.new result }
{
    recover_rename(alloc, machine)?;
    run_line(alloc, line, machine)
}

// The next line of a run, in which a command was done or was not.
fn next_line<M: Machine>(
    alloc: Global,
    line: &Line,
    rested: bool,
    machine: &mut M,
) -> Result<Outcome, RunError>
    requires rested { IsTrue M.tells → rested ≡ true → IsRested (M.state machine.old) }
    ensures performs { IsTrue M.tells → IsFirm (M.state machine.old)
        → PerformsBehind M.time M.state machine.old machine.new
        (line_deed (recovered_now (M.state machine.old)) line.now) result }
    ensures only_prints { IsTrue M.tells → IsFirm (M.state machine.old) → is_unread line.now ≡ true
        → OnlyPrints M.time M.state machine.old machine.new
        (line_deed (recovered_now (M.state machine.old)) line.now).sent }
    ensures syncs { IsTrue M.tells → IsFirm (M.state machine.old) → rested ≡ false → is_unread line.now ≡ false
        → SyncsFirst M.time M.state machine.old machine.new
        (line_deed (recovered_now (M.state machine.old)) line.now) result }
    ensures tidies { IsTrue M.tells → WherePrinted result (M.state machine.old) (M.state machine.new)
        (TidiedBy (M.state machine.new).files line.now) }
    ensures spares { IsTrue M.tells → IsFirm (M.state machine.old)
        → LineKeeps (recovered_now (M.state machine.old)) line.now (M.state machine.old).files
        (M.state machine.new).files }
    ensures rests { IsTrue M.tells → WherePrinted result (M.state machine.old) (M.state machine.new)
        ((rested || not (is_unread line.now)) ≡ true → IsRested (M.state machine.new)) }
    ensures still { IsTrue M.tells → rested ≡ true → LeavesRested result (M.state machine.new) }
    ensures behaves { Behaves M.tells M.state M.counts machine.old machine.new result }
{
    if rested || line.is_unread() {
        return run_line(alloc, line, machine);
    }
    first_command(alloc, line, machine)
}

// Whether some line was a command, this one too.
fn is_begun(begun: bool, line: &Line) -> bool
    ensures { result ≡ (begun || not (is_unread line.now)) }
{
    begun || !line.is_unread()
}

// Whether some reply is a refusal, this outcome's too.
fn some_refused(refused: bool, outcome: Outcome) -> bool
    ensures { result ≡ (refused || is_refusal outcome) }
{
    refused || outcome.is_refused()
}

/// The lines of a script, one after the other: whether some reply is a refusal. A refused line doesn't end the run; a
/// fault of the machine and want of memory do. Before the first command what a stop has left is finished.
pub fn run_lines<M: Machine>(
    alloc: Global,
    lines: &[Line],
    machine: &mut M,
) -> Result<bool, RunError>
    ensures runs { IsTrue M.tells → IsFirm (M.state machine.old)
        → RunsTo M.time M.state machine.old machine.new lines.now result }
    ensures synced { IsTrue M.tells → IsFirm (M.state machine.old)
        → IsSyncedBy M.time M.state machine.old machine.new lines.now }
    ensures tidies { OnOk result (IsTrue M.tells → AllTidied lines.now (M.state machine.new)) }
    ensures rests { OnOk result (IsTrue M.tells → has_command lines.now ≡ true → IsRested (M.state machine.new)) }
    ensures behind { IsTrue M.tells → IsFirm (M.state machine.old)
        → CleanBehind (M.state machine.old) (M.state machine.new) lines.now (ended_by result) }
    ensures spares { IsTrue M.tells → IsFirm (M.state machine.old) → AllKeep (recovered_now (M.state machine.old))
        lines.now (M.state machine.old).files (M.state machine.new).files }
    ensures behaves { Behaves M.tells M.state M.counts machine.old machine.new result }
{
    let mut refused = false;
    let mut rested = false;
    for line in lines {
        let outcome = next_line(alloc, line, rested, machine)?;
        rested = is_begun(rested, line);
        refused = some_refused(refused, outcome);
    }
    Ok(refused)
}
