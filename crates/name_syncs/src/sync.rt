//! The sync of names: each renamed file, then each changed folder with those above it, then what was looked at.
ghost use Rattle.std.specs.Prelude.{◌≡◌, ◌++◌, [], ◌∷◌, All, IfOk, IsTrue, false, true, filter, map, not};
ghost use Rattle.name_syncs.specs.Folders.{has_folder, listed};
ghost use Rattle.name_syncs.specs.Named.{AsksChanged, Covers, IsSynced, NothingWaits};
ghost use Rattle.name_syncs.specs.Waiting.{Asks, AsksAmong, AsksFolders, FileAt, KeepsSynced, NeedsNoSync, SettlesOnly, ShowsTruth, SyncRow, is_no_failure};

use crate::disk::{Disk, FolderFault};
use crate::folders::FolderSet;
use crate::named::Named;
use boot_base::Text;

/// Syncs what has changed, and then what was only looked at: nothing that this run has changed waits any more, and what
/// the folders show that it has looked at is on the disk. No name comes or goes by it.
///
/// # Errors
///
/// The first sync that fails ends it, and all of it is still to be synced. So does a renamed file, or a folder in which
/// this run has changed a name, that isn't there any more. A folder that was only looked at may be one that this run may
/// not open.
pub fn sync_names<D: Disk>(disk: &mut D, named: &mut Named) -> Result<(), D::Fault>
    ensures kept { IsTrue D.tells → KeepsSynced (D.state disk.old) (D.state disk.new) }
    ensures waits { IfOk result (λ _. IsTrue D.tells → Covers named.old (D.state disk.old)
        → NothingWaits (D.state disk.new)) }
    ensures shown { IfOk result (λ _. IsTrue D.tells
        → All (ShowsTruth (D.state disk.new)) (listed named.old.changed ++ listed named.old.seen)) }
    ensures names { IfOk result (λ _. IsTrue D.tells → D.names disk.new ≡ D.names disk.old) }
{
    sync_changed(disk, named)?;
    sync_seen(disk, named)
}

/// Syncs the renamed files, and then the changed folders.
///
/// # Errors
///
/// The first sync that fails ends it, and all of it is still to be synced. A folder in which this run has changed no name
/// may be gone, or of a file system that syncs no folders.
pub fn sync_changed<D: Disk>(disk: &mut D, named: &mut Named) -> Result<(), D::Fault>
    ensures kept { IsTrue D.tells → KeepsSynced (D.state disk.old) (D.state disk.new) }
    ensures synced { IfOk result (λ _. IsTrue D.tells → IsSynced named.old (D.state disk.new)) }
    ensures order { IfOk result (λ _. IsTrue D.tells → AsksChanged named.old (D.state disk.old) (D.state disk.new)) }
    ensures all { IfOk result (λ _. IsTrue D.tells →
        Covers named.old (D.state disk.old) → NothingWaits (D.state disk.new)) }
    ensures noted { named.new ≡ record named.old { settled = named.new.settled } }
    ensures settled { IsTrue D.tells
        → SettlesOnly (listed named.old.changed) (D.state disk.new) named.old.settled named.new.settled }
    ensures names { IfOk result (λ _. IsTrue D.tells → D.names disk.new ≡ D.names disk.old) }
{
    sync_noted(disk, named)
}

// Syncs the renamed files, then the changed folders below the starting one, then that one.
fn sync_noted<D: Disk>(disk: &mut D, named: &mut Named) -> Result<(), D::Fault>
    ensures kept { IsTrue D.tells → KeepsSynced (D.state disk.old) (D.state disk.new) }
    ensures synced { IfOk result (λ _. IsTrue D.tells → IsSynced named.old (D.state disk.new)) }
    ensures order { IfOk result (λ _. IsTrue D.tells → AsksChanged named.old (D.state disk.old) (D.state disk.new)) }
    ensures noted { named.new ≡ record named.old { settled = named.new.settled } }
    ensures settled { IsTrue D.tells
        → SettlesOnly (listed named.old.changed) (D.state disk.new) named.old.settled named.new.settled }
    ensures names { IfOk result (λ _. IsTrue D.tells → D.names disk.new ≡ D.names disk.old) }
{
    sync_files(disk, named.renamed.as_slice())?;
    sync_folders(
        disk,
        named.changed.below.as_slice(),
        &named.own,
        &mut named.settled,
    )?;
    if named.changed.has_root {
        settle_changed(disk, "", &named.own, &mut named.settled)?;
    }
    Ok(())
}

// Syncs these files.
fn sync_files<D: Disk>(disk: &mut D, paths: &[Text]) -> Result<(), D::Fault>
    ensures kept { IsTrue D.tells → KeepsSynced (D.state disk.old) (D.state disk.new) }
    ensures synced { IfOk result (λ _. IsTrue D.tells → All (λ path. (D.state disk.new).files path ≡ false) paths.now) }
    ensures order { IfOk result (λ _. IsTrue D.tells
        → Asks (map FileAt paths.now) (D.state disk.old) (D.state disk.new)) }
    ensures names { IfOk result (λ _. IsTrue D.tells → D.names disk.new ≡ D.names disk.old) }
{
    for path in paths {
        sync_renamed(disk, path.as_str())?;
    }
    Ok(())
}

// Syncs a file that this run has renamed.
fn sync_renamed<D: Disk>(disk: &mut D, path: &str) -> Result<(), D::Fault>
    ensures asks { IsTrue D.tells → Asks (FileAt path.now ∷ []) (D.state disk.old) (D.state disk.new) }
    ensures synced { IfOk result (λ _. IsTrue D.tells → (D.state disk.new).files path.now ≡ false) }
    ensures names { IfOk result (λ _. IsTrue D.tells → D.names disk.new ≡ D.names disk.old) }
{
    let failure = match disk.sync_file(path) {
        Ok(true) => return Ok(()),
        Ok(false) => disk.gone(),
        Err(failure) => failure,
    };
    Err(disk.report(path, failure))
}

// Syncs these folders, of which each that was there is settled then.
fn sync_folders<D: Disk>(
    disk: &mut D,
    folders: &[Text],
    own: &FolderSet,
    settled: &mut FolderSet,
) -> Result<(), D::Fault>
    ensures kept { IsTrue D.tells → KeepsSynced (D.state disk.old) (D.state disk.new) }
    ensures synced { IfOk result (λ _. IsTrue D.tells → All (NeedsNoSync own.now (D.state disk.new)) folders.now) }
    ensures order { IfOk result (λ _. IsTrue D.tells
        → AsksFolders folders.now (D.state disk.old) (D.state disk.new)) }
    ensures settled { IsTrue D.tells → SettlesOnly folders.now (D.state disk.new) settled.old settled.new }
    ensures names { IfOk result (λ _. IsTrue D.tells → D.names disk.new ≡ D.names disk.old) }
{
    for folder in folders {
        settle_changed(disk, folder.as_str(), own, settled)?;
    }
    Ok(())
}

// Syncs a folder, tells whether it was there, and notes it then. If there is no memory for the note the folder is synced
// once more.
fn settle<D: Disk>(
    disk: &mut D,
    folder: &str,
    settled: &mut FolderSet,
) -> Result<bool, FolderFault<D::Fault>>
    ensures row { IsTrue D.tells → SyncRow (D.state disk.old) (D.state disk.new) folder.now result }
    ensures names { IsTrue D.tells → is_no_failure result ≡ true → D.names disk.new ≡ D.names disk.old }
    ensures settled { IsTrue D.tells → SettlesOnly (folder.now ∷ []) (D.state disk.new) settled.old settled.new }
{
    let is_there = disk.sync_folder(folder)?;
    if is_there {
        let _ = settled.add(folder);
    }
    Ok(is_there)
}

// Syncs a changed folder. One in which this run has changed no name may be gone, or of a file system that syncs no
// folders.
fn settle_changed<D: Disk>(
    disk: &mut D,
    folder: &str,
    own: &FolderSet,
    settled: &mut FolderSet,
) -> Result<(), D::Fault>
    ensures others { IsTrue D.tells → AsksAmong [] (D.state disk.old) (D.state disk.new) }
    ensures asks { IfOk result (λ _. IsTrue D.tells
        → AsksFolders (folder.now ∷ []) (D.state disk.old) (D.state disk.new)) }
    ensures synced { IfOk result (λ _. IsTrue D.tells → NeedsNoSync own.now (D.state disk.new) folder.now) }
    ensures settled { IsTrue D.tells → SettlesOnly (folder.now ∷ []) (D.state disk.new) settled.old settled.new }
    ensures names { IfOk result (λ _. IsTrue D.tells → D.names disk.new ≡ D.names disk.old) }
{
    let failure = match settle(disk, folder, settled) {
        Ok(true) => return Ok(()),
        Ok(false) if !own.has(folder) => return Ok(()),
        Ok(false) => disk.gone(),
        Err(failure) if failure.syncs_none && !own.has(folder) => return Ok(()),
        Err(failure) => failure.fault,
    };
    Err(disk.report(folder, failure))
}

/// Syncs the folders that were only looked at.
///
/// # Errors
///
/// The first sync that fails ends it. A folder may be gone, of a file system that syncs no folders, or one that this run
/// may not open.
pub fn sync_seen<D: Disk>(disk: &mut D, named: &mut Named) -> Result<(), D::Fault>
    ensures kept { IsTrue D.tells → KeepsSynced (D.state disk.old) (D.state disk.new) }
    ensures shown { IfOk result (λ _. IsTrue D.tells → All (ShowsTruth (D.state disk.new))
        (filter (λ folder. not (has_folder named.old.changed folder)) (listed named.old.seen))) }
    ensures noted { named.new ≡ record named.old { settled = named.new.settled } }
    ensures settled { IsTrue D.tells
        → SettlesOnly (listed named.old.seen) (D.state disk.new) named.old.settled named.new.settled }
    ensures names { IfOk result (λ _. IsTrue D.tells → D.names disk.new ≡ D.names disk.old) }
{
    settle_seen(
        disk,
        named.seen.below.as_slice(),
        &named.changed,
        &mut named.settled,
    )?;
    if named.seen.has_root && !named.changed.has_root {
        settle_looked(disk, "", &mut named.settled)?;
    }
    Ok(())
}

// Syncs those of these folders that weren't changed.
fn settle_seen<D: Disk>(
    disk: &mut D,
    folders: &[Text],
    changed: &FolderSet,
    settled: &mut FolderSet,
) -> Result<(), D::Fault>
    ensures kept { IsTrue D.tells → KeepsSynced (D.state disk.old) (D.state disk.new) }
    ensures shown { IfOk result (λ _. IsTrue D.tells → All (ShowsTruth (D.state disk.new))
        (filter (λ folder. not (has_folder changed.now folder)) folders.now)) }
    ensures settled { IsTrue D.tells → SettlesOnly folders.now (D.state disk.new) settled.old settled.new }
    ensures names { IfOk result (λ _. IsTrue D.tells → D.names disk.new ≡ D.names disk.old) }
{
    for folder in folders {
        let folder = folder.as_str();
        if !changed.has(folder) {
            settle_looked(disk, folder, settled)?;
        }
    }
    Ok(())
}

// Syncs a folder that was only looked at.
fn settle_looked<D: Disk>(
    disk: &mut D,
    folder: &str,
    settled: &mut FolderSet,
) -> Result<(), D::Fault>
    ensures kept { IsTrue D.tells → KeepsSynced (D.state disk.old) (D.state disk.new) }
    ensures shown { IfOk result (λ _. IsTrue D.tells → ShowsTruth (D.state disk.new) folder.now) }
    ensures settled { IsTrue D.tells → SettlesOnly (folder.now ∷ []) (D.state disk.new) settled.old settled.new }
    ensures names { IfOk result (λ _. IsTrue D.tells → D.names disk.new ≡ D.names disk.old) }
{
    match settle(disk, folder, settled) {
        Ok(_) => Ok(()),
        Err(failure) if failure.syncs_none || failure.is_refused => Ok(()),
        Err(failure) => Err(disk.report(folder, failure.fault)),
    }
}
