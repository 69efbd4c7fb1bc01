//! What has to be on the disk before a folder of FAT is synced.
//!
//! After a rename the start and the length of a file come to the disk with the file, and not with its folder. So who syncs a
//! folder in which an earlier run or another program has renamed a file, and not that file, leaves a name without bytes. A
//! rename over a file frees its clusters in the table besides, and each sync on that file system writes the table. No call
//! tells which file waits so. So the files of a folder are synced before it, and before those the files in the folders in
//! which this program replaces files: once in a run.
ghost use Rattle.std.specs.Prelude.{◌≡◌, [], All, IfErr, IfOk, IsTrue, false, map, string_bytes, true};
ghost use Rattle.std.specs.List.{list_any};
ghost use Rattle.std.specs.Option.{option_map_or};
ghost use Rattle.name_syncs.specs.Folders.{path_in};
ghost use Rattle.name_syncs.specs.Waiting.{AsksAmong, FolderAt, HasNoneLeft, KeepsSynced};
ghost use Rattle.fat_rules.specs.Twins.{same_letters};
ghost use Rattle.folder_calls.specs.Ready.{HasNoneReplaced, IsNearClear, MaySync, IsRefusal};
ghost use Rattle.folder_calls.specs.Tree.{is_fat_file, is_fat_folder, is_folder};
ghost use Rattle.folder_changes.specs.Clear.{IsClear, needs_no_try};

use crate::changes::Changes;
use boot_base::{ENTRIES, IMAGES, Text, ends_as_temp};
use folder_calls::{Calls, Found, path_in};
use name_syncs::{Disk, FolderSet, Named, parted};
use std::alloc::Global;
use std::{io, mem};

/// The folder of the boot loader's settings.
const LOADER: &str = "loader";

/// The folders below a partition in which this program replaces files.
const REPLACED_BELOW: [&str; 3] = [IMAGES, LOADER, ENTRIES];

/// What is known of folders of FAT in this run.
#[derive(Drop)]
pub(crate) struct Ready {
    /// Those that may be synced: what others have left in them is on the disk, and what comes before it.
    folders: FolderSet,
    /// Those below which this program's files are on the disk, as far as others have left them.
    near: FolderSet,
    /// Those whose files are on the disk, as far as others have left them.
    clear: FolderSet,
    /// The folders of this program's files, which are still to be synced themselves.
    replaced: FolderSet,
}

impl Ready {
    // Nothing is known. It takes no memory.
    pub(crate) fn new(alloc: Global) -> Self
        ensures folders { result.folders ≡ record { has_root = false; below = [] } }
        ensures near { result.near ≡ record { has_root = false; below = [] } }
        ensures clear { result.clear ≡ record { has_root = false; below = [] } }
    {
        Ready {
            folders: FolderSet::new(alloc),
            near: FolderSet::new(alloc),
            clear: FolderSet::new(alloc),
            replaced: FolderSet::new(alloc),
        }
    }
}

// Whether a folder was found.
fn is_folder(found: Option<Found>) -> bool
    ensures { result ≡ option_map_or is_folder found false }
{
    found.is_some_and(|found| found.is_folder())
}

// Whether a folder was found that may be of FAT.
pub(crate) fn is_fat_folder(found: Option<Found>) -> bool
    ensures { result ≡ option_map_or is_fat_folder found false }
{
    found.is_some_and(|found| found.is_fat_folder())
}

// Whether a file was found that may stand on FAT.
fn is_fat_file(found: Option<Found>) -> bool
    ensures { result ≡ option_map_or is_fat_file found false }
{
    found.is_some_and(|found| found.is_fat_file())
}

impl<C: Calls + Drop, E: Print + Drop> Changes<C, E> {
    // Tells whether a folder is there. On FAT what comes before its sync is on the disk then.
    pub(crate) fn make_ready(&mut self, folder: &str) -> io::Result<bool>
        ensures asks { IsTrue C.tells → AsksAmong [] (C.waits self.old) (C.waits self.new) }
        ensures ready { IfOk result (λ is_there. IsTrue C.tells → is_there ≡ true
            → MaySync (C.waits self.new) folder.now) }
        ensures gone { IfOk result (λ is_there. IsTrue C.tells → is_there ≡ false
            → (C.waits self.new).opens (FolderAt folder.now) ≡ false) }
        ensures refused { IfErr result (λ error. IsTrue C.tells → IsRefusal (C.waits self.new) error) }
        ensures names { IsTrue C.tells → needs_no_try result ≡ true → C.tree self.new ≡ C.tree self.old }
    {
        let found = self.calls.find(folder)?;
        if !is_folder(found) {
            return Ok(false);
        }
        if !is_fat_folder(found) {
            return Ok(true);
        }
        self.clear_folder(folder)?;
        Ok(true)
    }

    // Syncs, once in a run, what comes before a folder of FAT: the files that this program may have replaced, and its own.
    // The folder above must list it: after a sync that failed the system finds names that the disk hasn't got.
    fn clear_folder(&mut self, folder: &str) -> io::Result<()>
        ensures asks { IsTrue C.tells → AsksAmong [] (C.waits self.old) (C.waits self.new) }
        ensures ready { IfOk result (λ _. IsTrue C.tells → MaySync (C.waits self.new) folder.now) }
        ensures refused { IfErr result (λ error. IsTrue C.tells → IsRefusal (C.waits self.new) error) }
        ensures names { IsTrue C.tells → needs_no_try result ≡ true → C.tree self.new ≡ C.tree self.old }
    {
        if self.ready.folders.has(folder) {
            return Ok(());
        }
        self.clear_near(folder)?;
        self.clear(folder)?;
        require_folder_listed(&self.calls, self.alloc, folder)?;
        self.ready.folders.add(folder)?;
        Ok(())
    }

    // Syncs the files that this program may have replaced on the file system of a folder, whichever folder on the way is its
    // root.
    fn clear_near(&mut self, folder: &str) -> io::Result<()>
        ensures asks { IsTrue C.tells → AsksAmong [] (C.waits self.old) (C.waits self.new) }
        ensures near { IfOk result (λ _. IsTrue C.tells → IsNearClear (C.waits self.new) folder.now) }
        ensures refused { IfErr result (λ error. IsTrue C.tells → IsRefusal (C.waits self.new) error) }
        ensures names { IsTrue C.tells → needs_no_try result ≡ true → C.tree self.new ≡ C.tree self.old }
    {
        let mut near = FolderSet::new(self.alloc);
        near.add(folder)?;
        near.add_above(folder)?;
        self.clear_each_below(near.below.as_slice())?;
        self.clear_below("")
    }

    fn clear_each_below(&mut self, near: &[Text]) -> io::Result<()>
        ensures asks { IsTrue C.tells → AsksAmong [] (C.waits self.old) (C.waits self.new) }
        ensures near { IfOk result (λ _. IsTrue C.tells → All (HasNoneReplaced (C.waits self.new)) near.now) }
        ensures refused { IfErr result (λ error. IsTrue C.tells → IsRefusal (C.waits self.new) error) }
        ensures names { IsTrue C.tells → needs_no_try result ≡ true → C.tree self.new ≡ C.tree self.old }
    {
        for above in near {
            self.clear_below(above.as_str())?;
        }
        Ok(())
    }

    // Syncs the files that this program may have replaced, if this folder is the root of their file system, once in a run.
    fn clear_below(&mut self, above: &str) -> io::Result<()>
        ensures asks { IsTrue C.tells → AsksAmong [] (C.waits self.old) (C.waits self.new) }
        ensures near { IfOk result (λ _. IsTrue C.tells → HasNoneReplaced (C.waits self.new) above.now) }
        ensures refused { IfErr result (λ error. IsTrue C.tells → IsRefusal (C.waits self.new) error) }
        ensures names { IsTrue C.tells → needs_no_try result ≡ true → C.tree self.new ≡ C.tree self.old }
    {
        if self.ready.near.has(above) {
            return Ok(());
        }
        self.clear_replaced(above, IMAGES)?;
        self.clear_replaced(above, LOADER)?;
        self.clear_replaced(above, ENTRIES)?;
        self.ready.near.add(above)?;
        Ok(())
    }

    // Syncs the files in such a folder. The folder itself is to be synced too.
    fn clear_replaced(&mut self, above: &str, below: &str) -> io::Result<()>
        ensures asks { IsTrue C.tells → AsksAmong [] (C.waits self.old) (C.waits self.new) }
        ensures clear { IfOk result (λ _. IsTrue C.tells
            → HasNoneLeft (C.waits self.new) (path_in above.now below.now)) }
        ensures refused { IfErr result (λ error. IsTrue C.tells → IsRefusal (C.waits self.new) error) }
        ensures names { IsTrue C.tells → needs_no_try result ≡ true → C.tree self.new ≡ C.tree self.old }
    {
        let folder = path_in(self.alloc, above, below)?;
        let folder = folder.as_str();
        if !is_fat_folder(self.calls.find(folder)?) {
            return Ok(());
        }
        self.clear(folder)?;
        self.ready.replaced.add(folder)?;
        Ok(())
    }

    // Syncs the files in a folder of FAT, but for temporary files, which may have any bytes; once in a run.
    fn clear(&mut self, folder: &str) -> io::Result<()>
        ensures asks { IsTrue C.tells → AsksAmong [] (C.waits self.old) (C.waits self.new) }
        ensures clear { IfOk result (λ _. IsTrue C.tells → HasNoneLeft (C.waits self.new) folder.now) }
        ensures refused { IfErr result (λ error. IsTrue C.tells → IsRefusal (C.waits self.new) error) }
        ensures names { IsTrue C.tells → needs_no_try result ≡ true → C.tree self.new ≡ C.tree self.old }
    {
        if self.ready.clear.has(folder) {
            return Ok(());
        }
        let names = self.calls.names(self.alloc, folder)?;
        self.clear_names(folder, names.as_slice())?;
        self.ready.clear.add(folder)?;
        Ok(())
    }

    fn clear_names(&mut self, folder: &str, names: &[String]) -> io::Result<()>
        ensures asks { IsTrue C.tells → AsksAmong [] (C.waits self.old) (C.waits self.new) }
        ensures clear { IfOk result (λ _. IsTrue C.tells
            → All (IsClear (C.waits self.new) folder.now) (map string_bytes names.now)) }
        ensures refused { IfErr result (λ error. IsTrue C.tells → IsRefusal (C.waits self.new) error) }
        ensures names { IsTrue C.tells → needs_no_try result ≡ true → C.tree self.new ≡ C.tree self.old }
    {
        for name in names {
            self.clear_name(folder, name.as_str())?;
        }
        Ok(())
    }

    // Syncs the file of a name in a folder of FAT, unless it is a temporary one.
    fn clear_name(&mut self, folder: &str, name: &str) -> io::Result<()>
        ensures asks { IsTrue C.tells → AsksAmong [] (C.waits self.old) (C.waits self.new) }
        ensures clear { IfOk result (λ _. IsTrue C.tells → IsClear (C.waits self.new) folder.now name.now) }
        ensures refused { IfErr result (λ error. IsTrue C.tells → IsRefusal (C.waits self.new) error) }
        ensures names { IsTrue C.tells → needs_no_try result ≡ true → C.tree self.new ≡ C.tree self.old }
    {
        if ends_as_temp(name) {
            return Ok(());
        }
        let path = path_in(self.alloc, folder, name)?;
        let path = path.as_str();
        if !is_fat_file(self.calls.find_itself(path)?) {
            return Ok(());
        }
        self.sync_found(path)?;
        Ok(())
    }

    // Syncs the folders of the files that this program may have replaced, but for those that were synced for what this run
    // has changed or seen in them.
    pub(crate) fn sync_replaced(&mut self, named: &Named) -> io::Result<()>
        ensures kept { IsTrue C.tells → KeepsSynced (C.waits self.old) (C.waits self.new) }
        ensures names { IfOk result (λ _. IsTrue C.tells → C.tree self.new ≡ C.tree self.old) }
    {
        let replaced = mem::replace(&mut self.ready.replaced, FolderSet::new(self.alloc));
        for folder in replaced.below.as_slice() {
            let folder = folder.as_str();
            if !named.changed.has(folder) && !named.seen.has(folder) {
                self.sync_beside(folder)?;
            }
        }
        Ok(())
    }

    fn sync_beside(&mut self, folder: &str) -> io::Result<()>
        ensures kept { IsTrue C.tells → KeepsSynced (C.waits self.old) (C.waits self.new) }
        ensures names { IfOk result (λ _. IsTrue C.tells → C.tree self.new ≡ C.tree self.old) }
    {
        match self.sync_folder(folder) {
            Ok(_) => Ok(()),
            Err(failure) if failure.syncs_none || failure.is_refused => Ok(()),
            Err(failure) => Err(self.report(folder, failure.fault)),
        }
    }
}

// A folder of FAT in another one is listed there, in letters of either case.
fn require_folder_listed<C: Calls>(calls: &C, alloc: Global, folder: &str) -> io::Result<()>
    ensures refused { IfErr result (λ error. IsTrue C.tells → IsRefusal (C.waits calls.now) error) }
{
    let (above, name) = parted(folder);
    if name.is_empty() || !is_in_fat(calls, folder, above)? {
        return Ok(());
    }
    let names = calls.names(alloc, above)?;
    if has_in_any_case(names.as_slice(), name) {
        return Ok(());
    }
    Err(io::Error::other(
        "isn't listed by the folder above it: unmount the file system, run fsck.vfat -a, then this command again",
    ))
}

// Whether a folder of FAT stands in another one, and not at the root of its file system.
fn is_in_fat<C: Calls>(calls: &C, folder: &str, above: &str) -> io::Result<bool>
    ensures refused { IfErr result (λ error. IsTrue C.tells → IsRefusal (C.waits calls.now) error) }
{
    let found = calls.find_itself(folder)?;
    let root = calls.find(above)?;
    Ok(match (found, root) {
        (Some(found), Some(root)) => {
            found.is_fat_folder() && root.is_fat_folder() && found.device == root.device
        }
        _ => false,
    })
}

fn has_in_any_case(names: &[String], name: &str) -> bool
    ensures { result ≡ list_any (λ other. same_letters other name.now) (map string_bytes names.now) }
{
    names
        .iter()
        .any(|other| other.as_str().eq_ignore_ascii_case(name))
}
