//! Finishing or undoing the rename that a stop has left half done.
ghost use Rattle.std.specs.Prelude.{[], ◌≡◌, ◌⊎◌, true, false, length, IsTrue, IfOk, OnOk, Some, option_map};
ghost use Rattle.boot_base.specs.Intents.{names_of, intent_limit};
ghost use Rattle.boot_base.specs.Paths.{intent as intent_path};
ghost use Rattle.boot_machine.specs.Prelude.{CountsDisk, CountsRead, EachSince, HasOneCandidate, IsFirm, IsSettled, Looks, TakesAtMost, TakesNone, contents, has, recovered_view, HasNoHalfRename, intent_names};
ghost use Rattle.install_steps.specs.Recovery.{RecoversTo, SameFrom, SeesSame};
ghost use Rattle.install_steps.specs.Steps.{CanStep, LeavesAlone, NoNewTemp, StepsTo};

use crate::steps::{settle, unlink_synced};
use boot_base::{FilePath, INTENT_LIMIT, IntentNames};
use boot_machine::{DiskFault, Machine, ReadFault, read_part, zeros};
use std::alloc::{AllocError, Global};

// The names in the intent of that size, where it is in the right form. A longer file is not.
fn left_names<M: Machine>(
    alloc: Global,
    machine: &mut M,
    intent: &FilePath,
    size: u64,
) -> Result<Option<IntentNames>, ReadFault>
    requires at_intent { intent.now ≡ intent_path }
    requires there { IsTrue M.tells → has (M.state machine.old).files intent_path ≡ true }
    requires size { IsTrue M.tells → size ≡ length (contents (M.state machine.old).files intent_path) }
    ensures names { IfOk result (λ found. IsTrue M.tells
        → option_map names_of found ≡ intent_names (M.state machine.old).files) }
    ensures looks { Looks M.tells M.time M.state M.counts (CountsRead result) machine.old machine.new }
    ensures taken { IsTrue M.tells → TakesAtMost intent_limit (M.taken machine.old) (M.taken machine.new) }
{
    if size > INTENT_LIMIT {
        return Ok(None);
    }
    let mut bytes = zeros(alloc, size as usize)?;
    read_part(machine, intent, 0, &mut bytes)?;
    Ok(IntentNames::read(alloc, &bytes)?)
}

// Takes the first name away where both are there. Boot sees the same all the while.
fn drop_left<M: Machine>(machine: &mut M, names: &IntentNames) -> Result<(), DiskFault>
    requires named { IsTrue M.tells → intent_names (M.state machine.old).files ≡ Some (names_of names.now) }
    requires one { IsTrue M.tells → HasOneCandidate (M.state machine.old) }
    ensures step { IsTrue M.tells → IsFirm (M.state machine.old) → StepsTo M.time M.state
        (recovered_view (M.state machine.old).files) machine.old machine.new }
    ensures whole { OnOk result (IsTrue M.tells → HasNoHalfRename (M.state machine.new).files) }
    ensures there { OnOk result (IsTrue M.tells → has (M.state machine.new).files intent_path ≡ true) }
    ensures one { OnOk result (IsTrue M.tells → HasOneCandidate (M.state machine.new)) }
    ensures temps { IsTrue M.tells → NoNewTemp (M.state machine.old) (M.state machine.new) }
    ensures alone { LeavesAlone M.tells M.time M.state M.counts (CountsDisk result) [] machine.old machine.new }
    ensures taken { IsTrue M.tells → TakesNone (M.taken machine.old) (M.taken machine.new) }
{
    if machine.size(names.from.file())?.is_none() {
        return Ok(());
    }
    if machine.size(names.to.file())?.is_none() {
        return Ok(());
    }
    unlink_synced(machine, names.from.file())
}

// Takes away an intent that is there, once its rename isn't half done.
fn drop_intent<M: Machine>(machine: &mut M, intent: &FilePath) -> Result<(), DiskFault>
    requires at_intent { intent.now ≡ intent_path }
    requires whole { IsTrue M.tells → HasNoHalfRename (M.state machine.old).files }
    requires there { IsTrue M.tells → has (M.state machine.old).files intent_path ≡ true }
    requires one { IsTrue M.tells → HasOneCandidate (M.state machine.old) }
    ensures step { IsTrue M.tells → IsFirm (M.state machine.old) → StepsTo M.time M.state
        (recovered_view (M.state machine.old).files) machine.old machine.new }
    ensures ready { OnOk result (IsTrue M.tells → CanStep (M.state machine.new)) }
    ensures temps { IsTrue M.tells → NoNewTemp (M.state machine.old) (M.state machine.new) }
    ensures alone { LeavesAlone M.tells M.time M.state M.counts (CountsDisk result) [] machine.old machine.new }
    ensures taken { IsTrue M.tells → TakesNone (M.taken machine.old) (M.taken machine.new) }
{
    unlink_synced(machine, intent)
}

// Ends the rename that an intent names, if one is there, and then takes the intent away. The names are synced already.
fn finish_left<M: Machine>(
    alloc: Global,
    machine: &mut M,
    intent: &FilePath,
) -> Result<(), ReadFault>
    requires at_intent { intent.now ≡ intent_path }
    requires one { IsTrue M.tells → HasOneCandidate (M.state machine.old) }
    ensures step { IsTrue M.tells → IsFirm (M.state machine.old) → StepsTo M.time M.state
        (recovered_view (M.state machine.old).files) machine.old machine.new }
    ensures ready { OnOk result (IsTrue M.tells → CanStep (M.state machine.new)) }
    ensures temps { IsTrue M.tells → NoNewTemp (M.state machine.old) (M.state machine.new) }
    ensures alone { LeavesAlone M.tells M.time M.state M.counts (CountsRead result) [] machine.old machine.new }
    ensures taken { IsTrue M.tells → TakesAtMost intent_limit (M.taken machine.old) (M.taken machine.new) }
{
    let Some(size) = machine.size(intent)? else {
        return Ok(());
    };
    let Some(names) = left_names(alloc, machine, intent, size)? else {
        drop_intent(machine, intent)?;
        return Ok(());
    };
    drop_left(machine, &names)?;
    drop_intent(machine, intent)?;
    Ok(())
}

/// Finishes or undoes the rename that a stop has left half done: where the intent names two files that are both
/// there, the first is taken away, and then the intent is. From the sync of the names with which it begins, boot sees
/// the same at every moment. After a fault or want of memory what a stop had left may be left still.
pub fn recover<M: Machine>(
    alloc: Global,
    machine: &mut M,
    intent: &FilePath,
) -> Result<(), ReadFault>
    requires at_intent { intent.now ≡ intent_path }
    ensures recovers { IsTrue M.tells → IsFirm (M.state machine.old)
        → RecoversTo M.time M.state machine.old machine.new }
    ensures same { IsTrue M.tells → IsSettled (M.state machine.old)
        → EachSince M.time machine.old machine.new (SeesSame (M.state machine.old)) }
    ensures synced { OnOk result (IsTrue M.tells → IsFirm (M.state machine.old)
        → SameFrom M.time M.state machine.old machine.new) }
    ensures settled { OnOk result (IsTrue M.tells → IsFirm (M.state machine.old) → IsSettled (M.state machine.new)) }
    ensures ready { OnOk result (IsTrue M.tells → CanStep (M.state machine.new)) }
    ensures temps { IsTrue M.tells → NoNewTemp (M.state machine.old) (M.state machine.new) }
    ensures alone { LeavesAlone M.tells M.time M.state M.counts (CountsRead result) [] machine.old machine.new }
    ensures taken { IsTrue M.tells → TakesAtMost intent_limit (M.taken machine.old) (M.taken machine.new) }
{
    settle(machine)?;
    finish_left(alloc, machine, intent)
}
