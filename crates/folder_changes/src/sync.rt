//! The syncs of what has changed, and their faults as they are told.
ghost use Rattle.std.specs.Prelude.{◌≡◌, [], ◌∷◌, IfErr, IfOk, IfSome, IsTrue, Some, bytes_eq, false, string_bytes, true};
ghost use Rattle.std.specs.IoError.{error_kind};
ghost use Rattle.name_syncs.specs.Folders.{parent_folder};
ghost use Rattle.name_syncs.specs.Waiting.{Asks, FileAt, SyncRow, is_no_failure};
ghost use Rattle.folder_calls.specs.Answers.{says_closed};
ghost use Rattle.folder_calls.specs.Calls.{IsLockedAt, IsOpenAt};
ghost use Rattle.folder_calls.specs.Ready.{IsRefusal, IsTried};
ghost use Rattle.folder_calls.specs.Rows.{inode_at};
ghost use Rattle.folder_calls.specs.Tree.{Tree};
ghost use Rattle.folder_changes.specs.Clear.{needs_no_try};

use crate::changes::Changes;
use crate::ready::is_fat_folder;
use folder_calls::{Calls, Locked, changed_fault, is_closed};
use name_syncs::{Disk, FolderFault, folder_of};
use std::io;

/// A file that is held open, and the path that it has.
#[derive(Drop)]
pub struct KeptFile<C: Calls> {
    pub path: String,
    pub file: Locked<C>,
    /// whether this run has made it
    pub is_made: bool,
    /// whether its name goes again if a sync fails: it may stand on FAT, and nothing stood there before
    pub goes_again: bool,
}

impl<C: Calls> KeptFile<C> {
    /// Whether it has that path.
    pub fn is_at(&self, path: &str) -> bool
        ensures { result ≡ bytes_eq (string_bytes self.now.path) path.now }
    {
        self.path.as_str() == path
    }
}

impl<C: Calls + Drop, E: Print + Drop> Disk for Changes<C, E> {
    type Fault = io::Error;

    ghost tells = { C.tells };

    ghost state = { λ changes. C.waits changes };

    ghost Names = { Tree };

    ghost names = { λ changes. C.tree changes };

    fn sync_file(&mut self, path: &str) -> Result<bool, io::Error>
        ensures asks { IsTrue C.tells → Asks (FileAt path.now ∷ []) (C.waits self.old) (C.waits self.new) }
        ensures synced { IfOk result (λ is_there. IsTrue C.tells → is_there ≡ true
            → (C.waits self.new).files path.now ≡ false) }
        ensures names { IfOk result (λ _. IsTrue C.tells → C.tree self.new ≡ C.tree self.old) }
        ensures tried { IfErr result (λ error. IsTrue C.tells → says_closed (error_kind error) ≡ false
            → IsTried (C.waits self.new) (C.doubts self.new) (parent_folder path.now)) }
    {
        let answer = self.sync_at(path);
        self.try_behind(folder_of(path), answer)
    }

    fn sync_folder(&mut self, folder: &str) -> Result<bool, FolderFault<io::Error>>
        ensures row { IsTrue C.tells → SyncRow (C.waits self.old) (C.waits self.new) folder.now result }
        ensures names { IsTrue C.tells → is_no_failure result ≡ true → C.tree self.new ≡ C.tree self.old }
        ensures tried { IfErr result (λ failure. IsTrue C.tells
            → failure.syncs_none ≡ false → failure.is_refused ≡ false
            → IsTried (C.waits self.new) (C.doubts self.new) folder.now) }
    {
        let answer = self.sync_ready(folder);
        if let Err(failure) = &answer
            && !failure.syncs_none
            && !failure.is_refused
        {
            self.fail_sync(folder);
        }
        answer
    }

    fn gone(&self) -> io::Error {
        io::Error::other(
            "isn't there any more, though this run has changed its name or one in it: mount its file system",
        )
    }

    fn report(&mut self, path: &str, fault: io::Error) -> io::Error {
        let shown = if path.is_empty() { "." } else { path };
        self.reports.tell("sync", shown, &fault);
        fault
    }
}

impl<C: Calls + Drop, E: Print + Drop> Changes<C, E> {
    // Syncs the file at a path, by the open one if that stands there, and tells whether one is there.
    fn sync_at(&mut self, path: &str) -> io::Result<bool>
        ensures asks { IsTrue C.tells → Asks (FileAt path.now ∷ []) (C.waits self.old) (C.waits self.new) }
        ensures synced { IfOk result (λ is_there. IsTrue C.tells → is_there ≡ true
            → (C.waits self.new).files path.now ≡ false) }
        ensures names { IsTrue C.tells → C.tree self.new ≡ C.tree self.old }
    {
        match opened_at(&self.calls, path, &self.moved) {
            Some(file) => {
                self.calls.sync_open(path, file)?;
                Ok(true)
            }
            None => self.calls.sync_file(path),
        }
    }

    // Syncs the file that is found at a path, and tells whether one is there. If that fails its folder is tried.
    pub(crate) fn sync_found(&mut self, path: &str) -> io::Result<bool>
        ensures asks { IsTrue C.tells → Asks (FileAt path.now ∷ []) (C.waits self.old) (C.waits self.new) }
        ensures synced { IfOk result (λ is_there. IsTrue C.tells → is_there ≡ true
            → (C.waits self.new).files path.now ≡ false) }
        ensures left { IfOk result (λ _. IsTrue C.tells → (C.waits self.new).left (FileAt path.now) ≡ false) }
        ensures refused { IfErr result (λ error. IsTrue C.tells → IsRefusal (C.waits self.new) error) }
        ensures tried { IfErr result (λ error. IsTrue C.tells → says_closed (error_kind error) ≡ false
            → IsTried (C.waits self.new) (C.doubts self.new) (parent_folder path.now)) }
        ensures names { IsTrue C.tells → needs_no_try result ≡ true → C.tree self.new ≡ C.tree self.old }
    {
        let answer = self.calls.sync_file(path);
        self.try_behind(folder_of(path), answer)
    }

    // Syncs a folder behind what comes before it, and tells whether it was there.
    fn sync_ready(&mut self, folder: &str) -> Result<bool, FolderFault<io::Error>>
        ensures row { IsTrue C.tells → SyncRow (C.waits self.old) (C.waits self.new) folder.now result }
        ensures names { IsTrue C.tells → is_no_failure result ≡ true → C.tree self.new ≡ C.tree self.old }
    {
        match self.make_ready(folder) {
            Ok(true) => self.calls.sync_folder(folder),
            Ok(false) => Ok(false),
            Err(fault) => Err(FolderFault {
                syncs_none: false,
                is_refused: is_closed(&fault),
                fault,
            }),
        }
    }

    // Passes the answer of a file's sync on, and makes good for it as far as can be if it has failed.
    fn try_behind(&mut self, folder: &str, answer: io::Result<bool>) -> io::Result<bool>
        ensures same { result ≡ answer }
        ensures quiet { IsTrue C.tells → C.waits self.new ≡ C.waits self.old }
        ensures tried { IfErr answer (λ error. IsTrue C.tells → says_closed (error_kind error) ≡ false
            → IsTried (C.waits self.new) (C.doubts self.new) folder.now) }
        ensures names { IsTrue C.tells → needs_no_try answer ≡ true → C.tree self.new ≡ C.tree self.old }
    {
        if let Err(error) = &answer
            && !is_closed(error)
        {
            self.fail_sync(folder);
        }
        answer
    }

    // Behind a sync that has failed, the file that this run has renamed last goes again, and the folder is tried.
    pub(crate) fn fail_sync(&mut self, folder: &str)
        ensures quiet { IsTrue C.tells → C.waits self.new ≡ C.waits self.old }
        ensures tried { IsTrue C.tells → IsTried (C.waits self.new) (C.doubts self.new) folder.now }
    {
        self.take_back();
        self.try_folder(folder);
    }

    // The file that this run has renamed last goes again, if it may: no later run tells of it then.
    fn take_back(&mut self)
        ensures { IsTrue C.tells → C.waits self.new ≡ C.waits self.old }
    {
        let Some(moved) = self.moved.take() else {
            return;
        };
        let path = moved.path.as_str();
        if moved.goes_again
            && let Ok(Some(lock)) = self.require_leave(path, "", Some(&moved.file))
        {
            let _ = self.calls.take_back(path, lock);
        }
    }

    // Behind a sync that has failed, tries a folder if it may be of FAT.
    pub(crate) fn try_folder(&mut self, folder: &str)
        ensures quiet { IsTrue C.tells → C.waits self.new ≡ C.waits self.old }
        ensures tried { IsTrue C.tells → IsTried (C.waits self.new) (C.doubts self.new) folder.now }
    {
        match self.calls.find(folder) {
            Ok(found) if !is_fat_folder(found) => {}
            _ => self.calls.try_folder(folder),
        }
    }
}

// The open file, if it is the one that stands at a path.
fn opened_at<'a, C: Calls>(
    calls: &C,
    path: &str,
    moved: &'a Option<KeptFile<C>>,
) -> Option<&'a C::File>
    ensures { IfSome result (λ file. IsTrue C.tells → IsOpenAt (C.tree calls.now) path.now (C.inode file.now)) }
{
    let moved = moved.as_ref()?;
    let file = moved.file.file();
    (moved.is_at(path) && is_open_at(calls, path, file)).then_some(file)
}

// Whether the open file stands at a path.
pub(crate) fn is_open_at<C: Calls>(calls: &C, path: &str, file: &C::File) -> bool
    ensures { IsTrue C.tells → IsTrue result
        → IsOpenAt (C.tree calls.now) path.now (C.inode file.now) }
{
    match (calls.find_itself(path), calls.find_open(file)) {
        (Ok(Some(found)), Ok(opened)) => opened.is_same(&found),
        _ => false,
    }
}

// A file that this run holds alone must stand at a path. It gives the lock.
pub(crate) fn require_held_at<'a, C: Calls>(
    calls: &C,
    path: &str,
    held: &'a Locked<C>,
) -> io::Result<&'a C::Lock>
    ensures lock { IfOk result (λ lock. IsTrue C.tells → IsLockedAt (C.tree calls.now) path.now (C.locks lock.now)) }
    ensures held { IfOk result (λ _. IsTrue C.tells → inode_at (C.tree calls.now) path.now ≡ Some (C.inode held.now)) }
{
    if let Some(lock) = held.alone()
        && is_open_at(calls, path, held.file())
    {
        return Ok(lock);
    }
    Err(changed_fault())
}
