//! Moving a file under an intent, which says at a stop which of its two names counts.
ghost use Rattle.std.specs.Prelude.{[], ◌∷◌, ◌≡◌, ◌≢◌, true, false, IfOk, IsTrue, OnOk, IsErrOf, Some};
ghost use Rattle.boot_base.specs.Paths.{intent_bytes};
ghost use Rattle.boot_machine.specs.Prelude.{CountsDisk, HasOneCandidate, IsFirm, Looks, TakesNone, has, move_in, recovered_view, intent_names};
ghost use Rattle.install_steps.specs.Steps.{CanStep, CountsMove, Intends, IsDone, IsIntentOf, LeavesAlone, LeavesReady, NoNewTemp, ReadyUnless, StepsTo, after_move};

use crate::MoveFault;
use crate::appends::append;
use crate::steps::unlink_synced;
use crate::write::put_in_place;
use boot_base::{BootPath, Bytes, FilePath, TempPath};
use boot_machine::{DiskFault, Machine};
use std::alloc::{AllocError, Global};

/// The intent of a move: where it stands and is written first, and its bytes, which name the two paths.
#[derive(Debug, Drop)]
pub struct Intent {
    pub path: FilePath,
    pub temp: TempPath,
    pub bytes: Bytes,
}

impl Intent {
    /// That of the move from one path to another.
    pub fn of(alloc: Global, from: &BootPath, to: &BootPath) -> Result<Intent, AllocError>
        ensures { IfOk result (IsIntentOf from.now to.now) }
    {
        let path = FilePath::intent(alloc)?;
        let temp = TempPath::of(alloc, &path)?;
        let bytes = bytes_of(alloc, from.as_str().as_bytes(), to.as_str().as_bytes())?;
        Ok(Intent { path, temp, bytes })
    }
}

// Each of two paths with a NUL behind it.
fn bytes_of(alloc: Global, from: &[u8], to: &[u8]) -> Result<Bytes, AllocError>
    ensures { IfOk result (λ bytes. bytes ≡ intent_bytes from.now to.now) }
{
    let mut bytes = from.to_vec(alloc)?;
    bytes.push(0)?;
    bytes.extend_from_slice(to)?;
    bytes.push(0)?;
    Ok(Bytes::from(bytes))
}

// Puts the intent in its place. Boot sees the same all the while.
fn put_intent<M: Machine>(
    machine: &mut M,
    from: &BootPath,
    to: &BootPath,
    intent: &Intent,
) -> Result<(), DiskFault>
    requires intent { IsIntentOf from.now to.now intent.now }
    requires differ { IsTrue M.tells → from.now ≢ to.now }
    requires ready { IsTrue M.tells → CanStep (M.state machine.old) }
    requires none { IsTrue M.tells → has (M.state machine.old).files to.now ≡ false }
    ensures step { IsTrue M.tells → IsFirm (M.state machine.old) → StepsTo M.time M.state
        (recovered_view (M.state machine.old).files) machine.old machine.new }
    ensures intends { OnOk result (IsTrue M.tells
        → Intends from.now to.now (M.state machine.old).files (M.state machine.new).files) }
    ensures one { OnOk result (IsTrue M.tells → HasOneCandidate (M.state machine.new)) }
    ensures temps { OnOk result (IsTrue M.tells → NoNewTemp (M.state machine.old) (M.state machine.new)) }
    ensures alone { LeavesAlone M.tells M.time M.state M.counts (CountsDisk result) (intent.now.temp ∷ []) machine.old
        machine.new }
    ensures taken { IsTrue M.tells → TakesNone (M.taken machine.old) (M.taken machine.new) }
{
    from.know_normal();
    to.know_normal();
    intent.temp.know();
    machine.create(&intent.temp)?;
    append(machine, &intent.temp, intent.bytes.as_slice())?;
    put_in_place(machine, &intent.temp, &intent.path)
}

// Renames a file as the intent says, and syncs the names. While both names are there boot sees the new one alone.
fn rename_synced<M: Machine>(
    machine: &mut M,
    from: &BootPath,
    to: &BootPath,
) -> Result<(), DiskFault>
    requires one { IsTrue M.tells → HasOneCandidate (M.state machine.old) }
    requires there { IsTrue M.tells → has (M.state machine.old).files from.now ≡ true }
    requires named { IsTrue M.tells → intent_names (M.state machine.old).files ≡ Some (from.now, to.now) }
    ensures step { IsTrue M.tells → IsFirm (M.state machine.old) → StepsTo M.time M.state
        (recovered_view (move_in from.now to.now (M.state machine.old).files)) machine.old machine.new }
    ensures files { OnOk result (IsTrue M.tells
        → (M.state machine.new).files ≡ move_in from.now to.now (M.state machine.old).files) }
    ensures one { OnOk result (IsTrue M.tells → HasOneCandidate (M.state machine.new)) }
    ensures alone { LeavesAlone M.tells M.time M.state M.counts (CountsDisk result) [] machine.old machine.new }
    ensures taken { IsTrue M.tells → TakesNone (M.taken machine.old) (M.taken machine.new) }
{
    from.know();
    to.know();
    machine.rename_name(from, to)?;
    machine.sync_names()
}

// The move of a file that is there to a path at which none is.
fn move_intended<M: Machine>(
    machine: &mut M,
    from: &BootPath,
    to: &BootPath,
    intent: &Intent,
) -> Result<(), DiskFault>
    requires intent { IsIntentOf from.now to.now intent.now }
    requires ready { IsTrue M.tells → CanStep (M.state machine.old) }
    requires there { IsTrue M.tells → has (M.state machine.old).files from.now ≡ true }
    requires none { IsTrue M.tells → has (M.state machine.old).files to.now ≡ false }
    ensures done { OnOk result (IsTrue M.tells → IsFirm (M.state machine.old)
        → IsDone (M.state machine.new) (move_in from.now to.now (recovered_view (M.state machine.old).files))) }
    ensures step { IsTrue M.tells → IsFirm (M.state machine.old) → StepsTo M.time M.state
        (move_in from.now to.now (recovered_view (M.state machine.old).files)) machine.old machine.new }
    ensures ready { OnOk result (IsTrue M.tells → LeavesReady (M.state machine.old) (M.state machine.new)) }
    ensures alone { LeavesAlone M.tells M.time M.state M.counts (CountsDisk result) (intent.now.temp ∷ []) machine.old
        machine.new }
    ensures taken { IsTrue M.tells → TakesNone (M.taken machine.old) (M.taken machine.new) }
{
    from.know();
    to.know();
    put_intent(machine, from, to, intent)?;
    rename_synced(machine, from, to)?;
    unlink_synced(machine, &intent.path)
}

// Refuses a move of a file that isn't there, and one to a path at which one is.
fn allow_move<M: Machine>(machine: &mut M, from: &BootPath, to: &BootPath) -> Result<(), MoveFault>
    ensures found { OnOk result (IsTrue M.tells → (has (M.state machine.old).files from.now ≡ true)
        × (has (M.state machine.old).files to.now ≡ false)) }
    ensures not_found { IsErrOf result MoveFault.NotFound → IsTrue M.tells
        → has (M.state machine.old).files from.now ≡ false }
    ensures exists { IsErrOf result MoveFault.TargetExists → IsTrue M.tells
        → (has (M.state machine.old).files from.now ≡ true) × (has (M.state machine.old).files to.now ≡ true) }
    ensures looks { Looks M.tells M.time M.state M.counts (CountsMove result) machine.old machine.new }
    ensures taken { IsTrue M.tells → TakesNone (M.taken machine.old) (M.taken machine.new) }
{
    if machine.size(from.file())?.is_none() {
        return Err(MoveFault::NotFound);
    }
    if machine.size(to.file())?.is_some() {
        return Err(MoveFault::TargetExists);
    }
    Ok(())
}

/// Moves a boot file to a path at which none is. A stop at any moment leaves what boot saw before, or the
/// file at its new path alone: the intent says which of two names counts. `NotFound` comes exactly where `from`
/// isn't there, and is looked at first; `TargetExists` where both paths are. After both nothing has changed.
/// After a fault of the disk boot sees the file at one of the two paths, and the intent may be left.
pub fn move_name<M: Machine>(
    machine: &mut M,
    from: &BootPath,
    to: &BootPath,
    intent: &Intent,
) -> Result<(), MoveFault>
    requires intent { IsIntentOf from.now to.now intent.now }
    requires ready { IsTrue M.tells → CanStep (M.state machine.old) }
    ensures done { OnOk result (IsTrue M.tells → IsFirm (M.state machine.old)
        → IsDone (M.state machine.new) (after_move from.now to.now (recovered_view (M.state machine.old).files))) }
    ensures step { IsTrue M.tells → IsFirm (M.state machine.old) → StepsTo M.time M.state
        (after_move from.now to.now (recovered_view (M.state machine.old).files)) machine.old machine.new }
    ensures found { OnOk result (IsTrue M.tells → (has (recovered_view (M.state machine.old).files) from.now ≡ true)
        × (has (recovered_view (M.state machine.old).files) to.now ≡ false)) }
    ensures not_found { IsErrOf result MoveFault.NotFound → IsTrue M.tells
        → (has (recovered_view (M.state machine.old).files) from.now ≡ false)
        × (M.state machine.new ≡ M.state machine.old) }
    ensures exists { IsErrOf result MoveFault.TargetExists → IsTrue M.tells
        → (has (recovered_view (M.state machine.old).files) from.now ≡ true)
        × (has (recovered_view (M.state machine.old).files) to.now ≡ true)
        × (M.state machine.new ≡ M.state machine.old) }
    ensures ready { IsTrue M.tells → ReadyUnless MoveFault.Disk result (M.state machine.old) (M.state machine.new) }
    ensures alone { LeavesAlone M.tells M.time M.state M.counts (CountsMove result) (intent.now.temp ∷ []) machine.old
        machine.new }
    ensures taken { IsTrue M.tells → TakesNone (M.taken machine.old) (M.taken machine.new) }
{
    from.know();
    to.know();
    allow_move(machine, from, to)?;
    move_intended(machine, from, to, intent)?;
    Ok(())
}
