//! Carries a plan out.
ghost use Rattle.std.specs.Prelude.{[], ◌∷◌, ◌≡◌, ◌≤◌, ℕ, true, length, take, IfOk, IsErrOf, MatchResult, OnOk, IsTrue};
ghost use Rattle.std.specs.FinMap.{insert};
ghost use Rattle.boot_base.specs.Limits.{file_limit};
ghost use Rattle.boot_machine.specs.Prelude.{CountsDisk, EachSince, IsFirm, IsRested, TakesAtMost, TakesNone, contents, has, on_channel, seen, with_printed, PrintsPart};
ghost use Rattle.image_writer.specs.Sourced.{IsSourced};
ghost use Rattle.image_writer.specs.Taken.{writing_length};
ghost use Rattle.install_steps.specs.Steps.{CanStep, CountsStep, IsDone, KeepsTempsBut, LeavesAlone, LeavesReady, ReadyUnless, StepsTo};
ghost use Rattle.command_plans.specs.Prelude.{channel_of, deed_of_answer, CountsFault, LeavesNoTempBy, LeavesRestedBy, Performs, end_by, IsMakeable, CanMake, Drops, DropsBy, with_copy, effect, making_length, own_temps, answer_of_plan, view_with_image};
ghost use Rattle.command_plans.specs.Telling.{CanApply, CanTell};

use crate::outcome::{MachineFault, Outcome};
use crate::plan::{Change, Plan, RefusalLine};
use boot_base::{BootPath, PIECE_SIZE, Target};
use boot_machine::{DiskFault, Machine, print_all};
use image_writer::{Sources, write_planned};
use install_steps::{
    MoveFault, StepFault, drop_leftovers, drop_name, move_name, settle, write_bytes, write_whole,
};

// Writes the finished image by a plan of these sources at the target. The buffer stands here, so that no other change
// has to make room for it.
#[inline(never)]
fn write<M: Machine>(
    image: &pe_builder::ImageLayout,
    sources: &Sources,
    target: &Target,
    machine: &mut M,
) -> Result<(), DiskFault>
    requires ready { IsTrue M.tells → CanStep (M.state machine.old) }
    requires sourced { IsTrue M.tells → IsSourced image.now sources.now (seen (M.state machine.old)) }
    ensures done { OnOk result (IsTrue M.tells → IsFirm (M.state machine.old)
        → IsDone (M.state machine.new)
        (view_with_image image.now sources.now target.now.path (seen (M.state machine.old)))) }
    ensures step { IsTrue M.tells → IsFirm (M.state machine.old) → StepsTo M.time M.state
        (view_with_image image.now sources.now target.now.path (seen (M.state machine.old))) machine.old machine.new }
    ensures ready { OnOk result (IsTrue M.tells → LeavesReady (M.state machine.old) (M.state machine.new)) }
    ensures alone { LeavesAlone M.tells M.time M.state M.counts (CountsDisk result) (target.now.temp ∷ []) machine.old
        machine.new }
    ensures taken { IsTrue M.tells → TakesAtMost (writing_length image.now sources.now)
        (M.taken machine.old) (M.taken machine.new) }
{
    let mut buffer = [0; PIECE_SIZE];
    write_planned(machine, image, sources, target, &mut buffer)
}

// Writes these bytes at the target.
fn put<M: Machine>(bytes: &[u8], target: &Target, machine: &mut M) -> Result<(), DiskFault>
    requires ready { IsTrue M.tells → CanStep (M.state machine.old) }
    ensures done { OnOk result (IsTrue M.tells → IsFirm (M.state machine.old)
        → IsDone (M.state machine.new) (insert (seen (M.state machine.old)) target.now.path bytes.now)) }
    ensures step { IsTrue M.tells → IsFirm (M.state machine.old) → StepsTo M.time M.state
        (insert (seen (M.state machine.old)) target.now.path bytes.now) machine.old machine.new }
    ensures ready { OnOk result (IsTrue M.tells → LeavesReady (M.state machine.old) (M.state machine.new)) }
    ensures alone { LeavesAlone M.tells M.time M.state M.counts (CountsDisk result) (target.now.temp ∷ []) machine.old
        machine.new }
    ensures taken { IsTrue M.tells → TakesNone (M.taken machine.old) (M.taken machine.new) }
{
    write_bytes(machine, target, bytes)
}

// Writes the bytes of the file at `from` at the target. The buffer stands here, as in `write`.
#[inline(never)]
fn copy<M: Machine>(from: &BootPath, target: &Target, machine: &mut M) -> Result<(), StepFault>
    requires ready { IsTrue M.tells → CanStep (M.state machine.old) }
    requires there { IsTrue M.tells → has (seen (M.state machine.old)) from.now ≡ true }
    requires small { IsTrue M.tells → length (contents (seen (M.state machine.old)) from.now) ≤ file_limit }
    ensures done { OnOk result (IsTrue M.tells → IsFirm (M.state machine.old)
        → IsDone (M.state machine.new) (with_copy from.now target.now.path (seen (M.state machine.old)))) }
    ensures step { IsTrue M.tells → IsFirm (M.state machine.old) → StepsTo M.time M.state
        (with_copy from.now target.now.path (seen (M.state machine.old))) machine.old machine.new }
    ensures found { IsErrOf result StepFault.NotFound → IsTrue M.tells → ⊥ }
    ensures ready { IsTrue M.tells → ReadyUnless StepFault.Disk result (M.state machine.old) (M.state machine.new) }
    ensures alone { LeavesAlone M.tells M.time M.state M.counts (CountsStep result) (target.now.temp ∷ []) machine.old
        machine.new }
    ensures taken { IsTrue M.tells → TakesAtMost (length (contents (seen (M.state machine.old)) from.now))
        (M.taken machine.old) (M.taken machine.new) }
{
    from.know();
    let mut buffer = [0; PIECE_SIZE];
    write_whole(machine, from, target, &mut buffer)
}

/// What a change came to.
enum Applied<'a> {
    /// It is made.
    Done,
    /// It isn't made, nothing is changed, and this is to be printed.
    Refused(&'a RefusalLine),
}

// Makes a change on a settled machine. Where the file to be removed, copied or moved is gone, or one stands where it
// is to be moved, which no machine comes to that tells its files, it gives the refusal to print, and nothing is
// changed.
fn apply<'a, M: Machine>(change: &'a Change, machine: &mut M) -> Result<Applied<'a>, DiskFault>
    requires ready { IsTrue M.tells → CanStep (M.state machine.old) }
    requires makeable { IsMakeable change.now }
    requires there { IsTrue M.tells → CanMake (M.state machine.old) change.now }
    ensures done { OnOk result (IsTrue M.tells → IsFirm (M.state machine.old)
        → IsDone (M.state machine.new) (effect (seen (M.state machine.old)) change.now)) }
    ensures made { IfOk result (λ applied. IsTrue M.tells → applied ≡ Applied.Done) }
    ensures line { IfOk result (CanApply change.now) }
    ensures step { IsTrue M.tells → IsFirm (M.state machine.old) → StepsTo M.time M.state
        (effect (seen (M.state machine.old)) change.now) machine.old machine.new }
    ensures drops { OnOk result (IsTrue M.tells
        → Drops change.now (M.state machine.old).files (M.state machine.new).files) }
    ensures ready { OnOk result (IsTrue M.tells → LeavesReady (M.state machine.old) (M.state machine.new)) }
    ensures alone { LeavesAlone M.tells M.time M.state M.counts (CountsDisk result) (own_temps change.now) machine.old
        machine.new }
    ensures taken { IsTrue M.tells → TakesAtMost (making_length (seen (M.state machine.old)) change.now)
        (M.taken machine.old) (M.taken machine.new) }
{
    match change {
        Change::Nothing => Ok(Applied::Done),
        Change::Remove { path, gone } => match drop_name(machine, path) {
            Ok(()) => Ok(Applied::Done),
            Err(StepFault::Disk) => Err(DiskFault),
            Err(StepFault::NotFound) => Ok(Applied::Refused(gone)),
        },
        Change::Leftovers(temps) => {
            drop_leftovers(machine, temps.as_slice())?;
            Ok(Applied::Done)
        }
        Change::Write {
            image,
            sources,
            target,
        } => {
            write(image, sources, target, machine)?;
            Ok(Applied::Done)
        }
        Change::Put { target, bytes } => {
            put(bytes.as_slice(), target, machine)?;
            Ok(Applied::Done)
        }
        Change::Copy { from, target, gone } => match copy(from, target, machine) {
            Ok(()) => Ok(Applied::Done),
            Err(StepFault::Disk) => Err(DiskFault),
            Err(StepFault::NotFound) => Ok(Applied::Refused(gone)),
        },
        Change::Move {
            from,
            to,
            intent,
            gone,
            exists,
        } => match move_name(machine, from, to, intent) {
            Ok(()) => Ok(Applied::Done),
            Err(MoveFault::Disk) => Err(DiskFault),
            Err(MoveFault::NotFound) => Ok(Applied::Refused(gone)),
            Err(MoveFault::TargetExists) => Ok(Applied::Refused(exists)),
        },
    }
}

// Prints the whole reply of a command, on the channel of its outcome, and gives that outcome.
fn reply<M: Machine>(
    outcome: Outcome,
    text: &[u8],
    machine: &mut M,
) -> Result<Outcome, MachineFault>
    ensures printed { IsTrue M.tells → MatchResult result
        (λ told. (told ≡ outcome)
        × (M.state machine.new ≡ with_printed (channel_of outcome) text.now (M.state machine.old)))
        (λ fault. (fault ≡ MachineFault.Pipe) × ((k : ℕ)
        × (M.state machine.new ≡ with_printed (channel_of outcome) (take k text.now) (M.state machine.old)))) }
    ensures moments { IsTrue M.tells → EachSince M.time machine.old machine.new
        (PrintsPart (M.state machine.old) (on_channel (channel_of outcome) text.now)) }
    ensures counts { CountsFault result (M.counts machine.old) (M.counts machine.new) }
    ensures same { IfOk result (λ told. told ≡ outcome) }
    ensures taken { IsTrue M.tells → TakesNone (M.taken machine.old) (M.taken machine.new) }
{
    print_all(outcome.channel(), text, machine)?;
    Ok(outcome)
}

/// Settles the machine, makes the change of a plan and prints its reply. It takes no memory.
pub fn perform<M: Machine>(plan: &Plan, machine: &mut M) -> Result<Outcome, MachineFault>
    requires rested { IsTrue M.tells → IsRested (M.state machine.old) }
    requires there { IsTrue M.tells → CanMake (M.state machine.old) plan.now.change }
    ensures performs { IsTrue M.tells → IsFirm (M.state machine.old)
        → Performs M.time M.state end_by machine.old machine.new
        (deed_of_answer (answer_of_plan (seen (M.state machine.old)) plan.now)) result }
    ensures drops { IsTrue M.tells → DropsBy result plan.now.change (M.state machine.old).files
        (M.state machine.new).files }
    ensures others { IsTrue M.tells → KeepsTempsBut (own_temps plan.now.change) (M.state machine.old).files
        (M.state machine.new).files }
    ensures input { IsTrue M.tells → (M.state machine.new).input ≡ (M.state machine.old).input }
    ensures rests { IsTrue M.tells → LeavesRestedBy result (M.state machine.new) }
    ensures temps { IsTrue M.tells → LeavesNoTempBy result (M.state machine.old) (M.state machine.new) }
    ensures counts { CountsFault result (M.counts machine.old) (M.counts machine.new) }
    // On any machine, also on one that has changed its mind about a file.
    ensures told { IfOk result (CanTell plan.now) }
    ensures taken { IsTrue M.tells → TakesAtMost (making_length (seen (M.state machine.old)) plan.now.change)
        (M.taken machine.old) (M.taken machine.new) }
{
    settle(machine)?;
    match apply(&plan.change, machine)? {
        Applied::Done => reply(plan.outcome, plan.text.as_slice(), machine),
        Applied::Refused(refusal) => {
            let outcome = Outcome::Refused {
                number: refusal.number,
            };
            reply(outcome, refusal.line.as_slice(), machine)
        }
    }
}
