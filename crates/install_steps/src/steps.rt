//! Settling the names, and the small steps: one change of names that is synced.
ghost use Rattle.std.specs.Prelude.{[], ◌≡◌, ◌≢◌, true, false, IsTrue, OnOk, OnErr, IsErrOf, All, bytes_eq};
ghost use Rattle.std.specs.List.{IsDistinct};
ghost use Rattle.std.specs.FinMap as map;
ghost use Rattle.boot_machine.specs.Prelude.{CountsDisk, EachSince, HasOneCandidate, IsFirm, IsImage, IsSettled, TakesNone, has, recovered_view};
ghost use Rattle.install_steps.specs.Steps.{CanStep, CountsStep, IsDone, Lacks, LeavesAlone, LeavesReady, NoNewTemp, ReadyUnless, StepsTo};

use crate::StepFault;
use boot_base::{BootPath, FilePath, TempPath};
use boot_machine::{DiskFault, Machine};

/// Syncs the names: after Ok a stop can undo no earlier change of names, and what boot sees is settled on a
/// firm machine. After a fault of the disk nothing has changed.
pub fn settle<M: Machine>(machine: &mut M) -> Result<(), DiskFault>
    ensures one { OnOk result (IsTrue M.tells → HasOneCandidate (M.state machine.new)) }
    ensures settled { OnOk result (IsTrue M.tells → IsFirm (M.state machine.old)
        → IsSettled (M.state machine.new)) }
    ensures firm { IsTrue M.tells → IsFirm (M.state machine.old) → IsFirm (M.state machine.new) }
    ensures files { IsTrue M.tells → (M.state machine.new).files ≡ (M.state machine.old).files }
    ensures same { OnErr result (IsTrue M.tells → M.state machine.new ≡ M.state machine.old) }
    ensures moments { IsTrue M.tells → EachSince M.time machine.old machine.new
        (λ m o. IsImage (M.state machine.old) m × (o ≡ (M.state machine.old).printed)) }
    ensures alone { LeavesAlone M.tells M.time M.state M.counts (CountsDisk result) [] machine.old machine.new }
    ensures taken { IsTrue M.tells → TakesNone (M.taken machine.old) (M.taken machine.new) }
{
    machine.sync_names()
}

/// Takes a boot file away. A stop at any moment leaves what boot saw before, or that without the file.
/// `NotFound` comes exactly where no such file is there, and nothing has changed then. After a fault of the
/// disk the file may be there or not.
pub fn drop_name<M: Machine>(machine: &mut M, path: &BootPath) -> Result<(), StepFault>
    requires ready { IsTrue M.tells → CanStep (M.state machine.old) }
    ensures done { OnOk result (IsTrue M.tells → IsFirm (M.state machine.old)
        → IsDone (M.state machine.new) (map.remove (recovered_view (M.state machine.old).files) path.now)) }
    ensures step { IsTrue M.tells → IsFirm (M.state machine.old) → StepsTo M.time M.state
        (map.remove (recovered_view (M.state machine.old).files) path.now) machine.old machine.new }
    ensures found { OnOk result (IsTrue M.tells → has (recovered_view (M.state machine.old).files) path.now ≡ true) }
    ensures not_found { IsErrOf result StepFault.NotFound → IsTrue M.tells
        → (has (recovered_view (M.state machine.old).files) path.now ≡ false)
        × (M.state machine.new ≡ M.state machine.old) }
    ensures ready { IsTrue M.tells → ReadyUnless StepFault.Disk result (M.state machine.old) (M.state machine.new) }
    ensures alone { LeavesAlone M.tells M.time M.state M.counts (CountsStep result) [] machine.old machine.new }
    ensures taken { IsTrue M.tells → TakesNone (M.taken machine.old) (M.taken machine.new) }
{
    let path = path.file();
    path.know();
    if machine.size(path)?.is_none() {
        return Err(StepFault::NotFound);
    }
    unlink_synced(machine, path)?;
    Ok(())
}

/// Takes these temporary files away, which differ and are there, and then syncs the names once. Boot sees
/// the same all the while. After a fault of the disk some of them may be left.
pub fn drop_leftovers<M: Machine>(machine: &mut M, paths: &[TempPath]) -> Result<(), DiskFault>
    requires ready { IsTrue M.tells → CanStep (M.state machine.old) }
    requires distinct { IsDistinct bytes_eq paths.now }
    requires there { IsTrue M.tells → All (λ path. has (M.state machine.old).files path ≡ true) paths.now }
    ensures done { OnOk result (IsTrue M.tells → IsFirm (M.state machine.old)
        → IsDone (M.state machine.new) (recovered_view (M.state machine.old).files)) }
    ensures step { IsTrue M.tells → IsFirm (M.state machine.old) → StepsTo M.time M.state
        (recovered_view (M.state machine.old).files) machine.old machine.new }
    ensures gone { OnOk result (IsTrue M.tells
        → Lacks paths.now (M.state machine.old).files (M.state machine.new).files) }
    ensures ready { OnOk result (IsTrue M.tells → LeavesReady (M.state machine.old) (M.state machine.new)) }
    ensures alone { LeavesAlone M.tells M.time M.state M.counts (CountsDisk result) paths.now machine.old machine.new }
    ensures taken { IsTrue M.tells → TakesNone (M.taken machine.old) (M.taken machine.new) }
{
    for path in paths {
        path.know();
        machine.unlink_temp(path)?;
    }
    machine.sync_names()?;
    Ok(())
}

/// Takes the file at that path away, whatever it is, and syncs the names.
pub(crate) fn unlink_synced<M: Machine>(machine: &mut M, path: &FilePath) -> Result<(), DiskFault>
    requires one { IsTrue M.tells → HasOneCandidate (M.state machine.old) }
    requires there { IsTrue M.tells → has (M.state machine.old).files path.now ≡ true }
    ensures step { IsTrue M.tells → IsFirm (M.state machine.old) → StepsTo M.time M.state
        (recovered_view (map.remove (M.state machine.old).files path.now)) machine.old machine.new }
    ensures files { OnOk result (IsTrue M.tells
        → (M.state machine.new).files ≡ map.remove (M.state machine.old).files path.now) }
    ensures one { OnOk result (IsTrue M.tells → HasOneCandidate (M.state machine.new)) }
    ensures temps { IsTrue M.tells → NoNewTemp (M.state machine.old) (M.state machine.new) }
    ensures alone { LeavesAlone M.tells M.time M.state M.counts (CountsDisk result) [] machine.old machine.new }
    ensures taken { IsTrue M.tells → TakesNone (M.taken machine.old) (M.taken machine.new) }
{
    path.know();
    machine.unlink(path)?;
    machine.sync_names()
}
