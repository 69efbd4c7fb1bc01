//! Writes files: bytes at hand, and copies of whole files.
ghost use Rattle.std.specs.Prelude.{[], ◌∷◌, ◌≡◌, ◌≤◌, ℕ, List, true, false, length, IsTrue, OnOk, IsErrOf};
ghost use Rattle.std.specs.FinMap as map;
ghost use Rattle.boot_machine.specs.Prelude.{CountsDisk, HasOneCandidate, IsFirm, IsSettled, TakesAtMost, TakesNone, contents, has, move_in, recovered_view};
ghost use Rattle.boot_base.specs.Limits.{file_limit};
ghost use Rattle.install_steps.specs.Steps.{CanStep, CountsStep, IsDone, LeavesAlone, LeavesReady, ReadyUnless, StepsTo, after_copy};

use crate::StepFault;
use crate::appends::copy_part;
use boot_base::{BootPath, Buffer, FILE_LIMIT, FilePath, Target, TempPath};
use boot_machine::{DiskFault, Machine};

/// Writes these bytes at the target, in place of a file that is there. A stop at any moment leaves what
/// boot saw before, or that with the whole new file. After a fault of the disk either stands, and a
/// temporary file may be left.
pub fn write_bytes<M: Machine>(
    machine: &mut M,
    target: &Target,
    bytes: &[u8],
) -> Result<(), DiskFault>
    requires ready { IsTrue M.tells → CanStep (M.state machine.old) }
    ensures done { OnOk result (IsTrue M.tells → IsFirm (M.state machine.old)
        → IsDone (M.state machine.new)
        (map.insert (recovered_view (M.state machine.old).files) target.now.path bytes.now)) }
    ensures step { IsTrue M.tells → IsFirm (M.state machine.old) → StepsTo M.time M.state
        (map.insert (recovered_view (M.state machine.old).files) target.now.path bytes.now) machine.old machine.new }
    ensures ready { OnOk result (IsTrue M.tells → LeavesReady (M.state machine.old) (M.state machine.new)) }
    ensures alone { LeavesAlone M.tells M.time M.state M.counts (CountsDisk result) (target.now.temp ∷ []) machine.old
        machine.new }
    ensures taken { IsTrue M.tells → TakesNone (M.taken machine.old) (M.taken machine.new) }
{
    target.path.know();
    target.temp.know();
    machine.create(&target.temp)?;
    machine.append(&target.temp, bytes)?;
    put_in_place(machine, &target.temp, &target.path)
}

/// Writes the bytes of the file `from` at the target, in place of a file that is there, which may be `from`
/// itself. They go through the buffer in pieces, and no memory is taken. A stop at any moment leaves what boot
/// saw before, or that with the whole copy. `NotFound` comes exactly where `from` isn't there, and nothing has
/// changed then. After a fault of the disk either stands, and a temporary file may be left. Zeros stand for
/// bytes that the machine doesn't give.
pub fn write_whole<M: Machine>(
    machine: &mut M,
    from: &BootPath,
    target: &Target,
    buffer: &mut Buffer,
) -> Result<(), StepFault>
    requires ready { IsTrue M.tells → CanStep (M.state machine.old) }
    requires small { IsTrue M.tells
        → length (contents (recovered_view (M.state machine.old).files) from.now) ≤ file_limit }
    ensures done { OnOk result (IsTrue M.tells → IsFirm (M.state machine.old)
        → IsDone (M.state machine.new)
        (after_copy from.now target.now.path (recovered_view (M.state machine.old).files))) }
    ensures step { IsTrue M.tells → IsFirm (M.state machine.old) → StepsTo M.time M.state
        (after_copy from.now target.now.path (recovered_view (M.state machine.old).files)) machine.old machine.new }
    ensures found { OnOk result (IsTrue M.tells → has (recovered_view (M.state machine.old).files) from.now ≡ true) }
    ensures not_found { IsErrOf result StepFault.NotFound → IsTrue M.tells
        → (has (recovered_view (M.state machine.old).files) from.now ≡ false)
        × (M.state machine.new ≡ M.state machine.old) }
    ensures ready { IsTrue M.tells → ReadyUnless StepFault.Disk result (M.state machine.old) (M.state machine.new) }
    ensures alone { LeavesAlone M.tells M.time M.state M.counts (CountsStep result) (target.now.temp ∷ []) machine.old
        machine.new }
    ensures taken { IsTrue M.tells → TakesAtMost (length (contents (M.state machine.old).files from.now))
        (M.taken machine.old) (M.taken machine.new) }
{
    from.know();
    target.path.know();
    target.temp.know();
    let Some(size) = machine.size(from.file())? else {
        return Err(StepFault::NotFound);
    };
    let size = size.min(FILE_LIMIT);
    machine.create(&target.temp)?;
    copy_part(machine, &target.temp, from, 0, size, buffer)?;
    put_in_place(machine, &target.temp, &target.path)?;
    Ok(())
}

/// Puts a temporary file, which is written, in its place: syncs it, renames it, and syncs the names. A stop at any
/// moment leaves what boot saw before, or that with the whole new file. After a fault of the disk either stands, and
/// the temporary file may be left.
pub fn put_in_place<M: Machine>(
    machine: &mut M,
    temp: &TempPath,
    path: &FilePath,
) -> Result<(), DiskFault>
    requires there { IsTrue M.tells → has (M.state machine.old).files temp.now ≡ true }
    ensures done { OnOk result (IsTrue M.tells → IsFirm (M.state machine.old) → IsSettled (M.state machine.old)
        → IsDone (M.state machine.new)
        (recovered_view (move_in temp.now path.now (M.state machine.old).files))) }
    ensures step { IsTrue M.tells → IsFirm (M.state machine.old) → IsSettled (M.state machine.old)
        → StepsTo M.time M.state
        (recovered_view (move_in temp.now path.now (M.state machine.old).files)) machine.old machine.new }
    ensures files { OnOk result (IsTrue M.tells
        → (M.state machine.new).files ≡ move_in temp.now path.now (M.state machine.old).files) }
    ensures one { OnOk result (IsTrue M.tells → HasOneCandidate (M.state machine.new)) }
    ensures alone { LeavesAlone M.tells M.time M.state M.counts (CountsDisk result) (temp.now ∷ []) machine.old
        machine.new }
    ensures taken { IsTrue M.tells → TakesNone (M.taken machine.old) (M.taken machine.new) }
{
    path.know();
    temp.know();
    machine.sync_file(temp)?;
    machine.rename_temp(temp, path)?;
    machine.sync_names()
}
