//! The locks of a run that changes something. It takes them before the change, without waiting: who meets another run's
//! lock fails. A run that only reads takes none.
//!
//! To its end a run holds, alone, the folders that it has listed, since it relies on all names in them; and, with others,
//! the folders in which it changes single files or has looked at payloads. To its reply it holds, alone, the file that
//! it replaces, moves or removes; and, with others, the files that it has read for that.
ghost use Rattle.std.specs.Prelude.{◌≡◌, ◌<◌, [], IfOk, IfSome, IsSome, IsTrue, OnErr, OnOk, false, option_copied, option_map, option_and_then, position, vec_len};
ghost use Rattle.name_syncs.specs.Folders.{parent_folder};
ghost use Rattle.folder_locks.specs.Holding.{HoldsMore, TellsNewFolders, has_payloads, held_as, held_by, is_held_as, with_payloads_of};
ghost use Rattle.folder_locks.specs.Holding.{IsOpenAs};
ghost use Rattle.folder_locks.specs.Meeting.{AnswersWith, IsLockError, changed_fault};

use crate::answers::{changed_fault, met_fault};
use crate::looks::identity_of;
use crate::opened::{open_file, open_folder, open_known};
use boot_base::{INTENT, PAYLOADS, TEMP_SUFFIX, ends_as_temp};
use folder_calls::{Calls, Found, Hold, LockFault, Locked};
use name_syncs::{FolderSet, folder_of, parted};
use run_looks::Look;
use std::alloc::{AllocError, Global};
use std::{io, mem};

/// Whether a path is that of a payload, or of its temporary file.
pub fn is_payload(path: &str) -> bool
    ensures { result ≡ has_payloads (parent_folder path.now) }
{
    is_payload_folder(folder_of(path))
}

/// Whether payloads stand in a folder.
pub fn is_payload_folder(folder: &str) -> bool
    ensures { result ≡ has_payloads folder.now }
{
    parted(folder).1 == PAYLOADS
}

/// A file or folder with its lock.
#[derive(Drop)]
pub struct Held<C: Calls> {
    pub path: String,
    pub file: Locked<C>,
    /// what it was found to be as it was opened
    pub found: Found,
}

/// What this run holds.
#[derive(Drop)]
pub struct Locks<C: Calls> {
    pub alloc: Global,
    pub folders: Vec<Held<C>>,
    /// until the next reply
    pub files: Vec<Held<C>>,
    /// the files that this run has replaced or removed, until the names are synced
    pub gone: Vec<Held<C>>,
    /// the folders of payloads in which a file was looked at
    pub payloads: FolderSet,
    /// whether a folder is held since this was last asked
    pub has_new_folder: bool,
}

impl<C: Calls> Locks<C> {
    pub fn new(alloc: Global) -> Self
        ensures folders { result.folders.items ≡ [] }
        ensures files { result.files.items ≡ [] }
        ensures gone { result.gone.items ≡ [] }
        ensures payloads { result.payloads ≡ record { has_root = false; below = [] } }
        ensures new { result.has_new_folder ≡ false }
    {
        Locks {
            alloc,
            folders: Vec::new(alloc),
            files: Vec::new(alloc),
            gone: Vec::new(alloc),
            payloads: FolderSet::new(alloc),
            has_new_folder: false,
        }
    }

    /// A file was looked at. If it may be a payload, its folder is to be held before something is changed.
    pub fn look_at(&mut self, path: &str) -> Result<(), AllocError>
        ensures ok { OnOk result (self.new
            ≡ record self.old { payloads = with_payloads_of self.old.payloads path.now }) }
        ensures err { OnErr result (self.new ≡ self.old) }
    {
        if is_payload(path) {
            self.payloads.add(folder_of(path))?;
        }
        Ok(())
    }

    /// The folders of the payloads that were looked at: they are to be held before something is changed.
    pub fn take_payloads(&mut self) -> FolderSet
        ensures { self.new ≡ record self.old { payloads = record { has_root = false; below = [] } } }
    {
        mem::replace(&mut self.payloads, FolderSet::new(self.alloc))
    }

    /// Whether a folder is held so, by a lock that its file system keeps.
    pub fn has_folder(&self, folder: &str, hold: Hold) -> bool {
        held_at(&self.folders, folder).is_some_and(|held| held.file.is_sure(hold))
    }

    /// Whether a file is held alone, by a lock that its file system keeps.
    pub fn has_file(&self, path: &str) -> bool {
        held_at(&self.files, path).is_some_and(|held| held.file.is_sure(Hold::Alone))
    }

    /// Whether a file may stand on FAT, as far as this run holds it.
    pub fn may_be_fat(&self, path: &str) -> bool {
        held_at(&self.files, path).is_none_or(|held| held.found.is_fat_file())
    }

    /// The lock on a file that is held by that path.
    pub fn lock_at(&self, path: &str) -> Option<&Locked<C>> {
        Some(&held_at(&self.files, path)?.file)
    }

    /// Folders and files are held no more. What was looked at in them is to be looked at again.
    pub fn give_up(&mut self) {
        self.files.clear();
        self.folders.clear();
        self.has_new_folder = true;
    }

    /// Holds a folder to the end of this run. One that isn't there can't be held.
    pub fn hold_folder(&mut self, calls: &C, folder: &str, hold: Hold) -> io::Result<()>
        ensures folders { HoldsMore C.tells C.inode self.old.folders.items self.new.folders.items }
        ensures new { TellsNewFolders self.old self.new }
        ensures same { self.new
            ≡ record self.old { folders = self.new.folders; has_new_folder = self.new.has_new_folder } }
    {
        if is_held(&self.folders, folder, hold) {
            return Ok(());
        }
        let Some(opened) = open_folder(calls, folder)? else {
            return Ok(());
        };
        let is_new = add_held(self.alloc, &mut self.folders, calls, folder, opened, hold)?;
        self.has_new_folder = self.has_new_folder || is_new;
        Ok(())
    }

    /// Whether a file that was read needs no lock more: it is held, or its folder is held alone.
    pub fn covers(&self, path: &str) -> bool {
        is_held(&self.folders, folder_of(path), Hold::Alone)
            || is_held(&self.files, path, Hold::Shared)
    }

    /// Holds a file that was read, unless its folder is held alone.
    pub fn hold_read(&mut self, calls: &C, path: &str) -> io::Result<()>
        ensures files { HoldsMore C.tells C.inode self.old.files.items self.new.files.items }
        ensures same { self.new ≡ record self.old { files = self.new.files } }
    {
        if self.covers(path) {
            return Ok(());
        }
        self.hold_known(calls, path, Hold::Shared)
    }

    // Holds what was a regular file at the last look, if it is one still.
    fn hold_known(&mut self, calls: &C, path: &str, hold: Hold) -> io::Result<()>
        ensures files { HoldsMore C.tells C.inode self.old.files.items self.new.files.items }
        ensures same { self.new ≡ record self.old { files = self.new.files } }
    {
        match open_known(calls, path)? {
            Some(opened) => self.hold_opened(calls, path, opened, hold),
            None => Ok(()),
        }
    }

    /// Holds a file that goes, if one is there, and its folder. A temporary file and the intent have locks of their own.
    /// The file that is held must be the one that stands there.
    pub fn hold_changed(&mut self, calls: &C, path: &str, look: Option<Look>) -> io::Result<()>
        ensures folders { HoldsMore C.tells C.inode self.old.folders.items self.new.folders.items }
        ensures files { HoldsMore C.tells C.inode self.old.files.items self.new.files.items }
        ensures new { TellsNewFolders self.old self.new }
        ensures payloads { self.new.payloads ≡ self.old.payloads }
    {
        if path.strip_suffix(TEMP_SUFFIX).unwrap_or(path) == INTENT {
            return Ok(());
        }
        self.hold_folder(calls, folder_of(path), Hold::Shared)?;
        if ends_as_temp(path) || is_held(&self.files, path, Hold::Alone) {
            return Ok(());
        }
        match look {
            Some(look) => self.hold_looked(calls, path, look),
            None => {
                self.hold_file(calls, path)?;
                self.require_named(calls, path)
            }
        }
    }

    // Holds alone a file that was looked at, and is to be looked at once more. The file that is held must be the one
    // that was found.
    fn hold_looked(&mut self, calls: &C, path: &str, look: Look) -> io::Result<()>
        ensures files { HoldsMore C.tells C.inode self.old.files.items self.new.files.items }
        ensures same { self.new ≡ record self.old { files = self.new.files } }
    {
        if look.found.is_none() {
            return Ok(());
        }
        self.hold_known(calls, path, Hold::Alone)?;
        self.require_looked(path, look)
    }

    // The file that is held at a path must be the one that was found.
    fn require_looked(&self, path: &str, look: Look) -> io::Result<()> {
        match held_at(&self.files, path) {
            Some(held) if identity_of(Some(held.found)) == look.found => Ok(()),
            _ => Err(changed_fault(self.alloc, path)),
        }
    }

    // Holds the file at a path alone, if one is there.
    fn hold_file(&mut self, calls: &C, path: &str) -> io::Result<()>
        ensures files { HoldsMore C.tells C.inode self.old.files.items self.new.files.items }
        ensures same { self.new ≡ record self.old { files = self.new.files } }
    {
        if is_held(&self.files, path, Hold::Alone) {
            return Ok(());
        }
        let Some(opened) = open_file(calls, path)? else {
            return Ok(());
        };
        self.hold_opened(calls, path, opened, Hold::Alone)
    }

    // Holds a file that was opened.
    fn hold_opened(
        &mut self,
        calls: &C,
        path: &str,
        opened: (C::File, Found),
        hold: Hold,
    ) -> io::Result<()>
        ensures files { (IsTrue C.tells → IsOpenAs C.inode opened)
            → HoldsMore C.tells C.inode self.old.files.items self.new.files.items }
        ensures same { self.new ≡ record self.old { files = self.new.files } }
    {
        add_held(self.alloc, &mut self.files, calls, path, opened, hold)?;
        Ok(())
    }

    // A file that is held must be the one that stands at its path.
    fn require_named(&self, calls: &C, path: &str) -> io::Result<()> {
        match held_at(&self.files, path) {
            Some(held) => require_found(self.alloc, path, &held.found, calls.find(path)?),
            None => Ok(()),
        }
    }

    /// A file that is held, to read from it.
    pub fn file_at(&self, path: &str) -> Option<&C::File>
        ensures { option_copied result ≡ option_map (λ held. held.file) (held_by self.now.files.items path.now) }
    {
        let held = held_at(&self.files, path)?;
        Some(held.file.file())
    }

    /// The lock on the file that was found, maybe by another path.
    pub fn lock_of(&self, found: Option<Found>) -> Option<&Locked<C>>
        ensures { option_copied result
            ≡ option_and_then (λ found. option_map (λ held. held.file) (held_as self.now.files.items found)) found }
    {
        let found = found?;
        let held = held_as(&self.files, &found)?;
        Some(&held.file)
    }

    /// A file that has gone is held no longer: the file system frees its bytes only when it is closed.
    pub fn close_file(&mut self, path: &str)
        ensures { self.new ≡ record self.old { files = self.new.files } }
    {
        self.files.retain(|held| held.path.as_str() != path);
    }

    /// A file that was replaced or removed stays open until the names are synced. Without memory it is closed at once.
    pub fn keep_gone(&mut self, path: &str)
        ensures { self.new ≡ record self.old { files = self.new.files; gone = self.new.gone } }
    {
        let files = &mut self.files;
        if let Some(place) = files.iter().position(|held| held.path.as_str() == path) {
            let _ = self.gone.push(files.remove(place));
        }
    }

    /// Closes the files that were replaced or removed.
    pub fn close_gone(&mut self)
        ensures gone { self.new.gone.items ≡ [] }
        ensures same { self.new ≡ record self.old { gone = self.new.gone } }
    {
        self.gone.clear();
    }

    /// Whether a folder was newly held since this was last asked.
    pub fn take_new_folder(&mut self) -> bool
        ensures told { result ≡ self.old.has_new_folder }
        ensures same { self.new ≡ record self.old { has_new_folder = false } }
    {
        mem::replace(&mut self.has_new_folder, false)
    }

    /// A reply is given.
    pub fn end_reply(&mut self)
        ensures files { self.new.files.items ≡ [] }
        ensures same { self.new ≡ record self.old { files = self.new.files } }
    {
        self.files.clear();
    }
}

// What is found at a path must be what is held there.
fn require_found(alloc: Global, path: &str, held: &Found, found: Option<Found>) -> io::Result<()>
    ensures { AnswersWith (changed_fault held.now found) result }
{
    match found {
        Some(found) if held.is_same(&found) => Ok(()),
        _ => Err(changed_fault(alloc, path)),
    }
}

// What this run holds by that path.
fn held_at<'a, C: Calls>(all: &'a Vec<Held<C>>, path: &str) -> Option<&'a Held<C>>
    ensures { option_copied result ≡ held_by all.now.items path.now }
{
    all.iter().find(|held| held.path.as_str() == path)
}

fn is_held<C: Calls>(all: &Vec<Held<C>>, path: &str, hold: Hold) -> bool
    ensures { IsTrue result → IsSome (held_by all.now.items path.now) }
{
    held_at(all, path).is_some_and(|held| held.file.is_enough(hold))
}

// What this run holds of these already, maybe by another path.
fn held_as<'a, C: Calls>(all: &'a Vec<Held<C>>, found: &Found) -> Option<&'a Held<C>>
    ensures { option_copied result ≡ held_as all.now.items found.now }
{
    all.iter().find(|held| held.found.is_same(found))
}

// Where that stands among these.
fn place_of<C: Calls>(all: &Vec<Held<C>>, found: &Found) -> Option<usize>
    ensures place { result ≡ position (is_held_as found.now) all.now.items }
    ensures within { IfSome result (λ place. place < vec_len all.now) }
{
    all.iter().position(|held| held.found.is_same(found))
}

// Locks what was opened at a path, and tells whether it wasn't held so before. What this run holds already is locked
// there: else it would stop itself.
#[tactic(auto, using(crate::proofs::MoreHeld::holds_same))]
fn add_held<C: Calls>(
    alloc: Global,
    all: &mut Vec<Held<C>>,
    calls: &C,
    path: &str,
    opened: (C::File, Found),
    hold: Hold,
) -> io::Result<bool>
    ensures more { (IsTrue C.tells → IsOpenAs C.inode opened)
        → HoldsMore C.tells C.inode all.old.items all.new.items }
    ensures new { IfOk result (λ is_new. is_new ≡ false → all.new.items ≡ all.old.items) }
    ensures err { OnErr result (all.new.items ≡ all.old.items) }
{
    let (file, found) = opened;
    if let Some(place) = place_of(all, &found) {
        return strengthen_at(alloc, calls, all, place, hold);
    }
    let file = lock(alloc, calls, path, file, hold)?;
    let path = String::from_str(alloc, path)?;
    all.push(Held { path, file, found })?;
    Ok(true)
}

// Holds one of these that is held already, and tells whether it wasn't held so before.
fn strengthen_at<C: Calls>(
    alloc: Global,
    calls: &C,
    all: &mut Vec<Held<C>>,
    place: usize,
    hold: Hold,
) -> io::Result<bool>
    requires { place < vec_len all.old }
    ensures { all.new.items ≡ all.old.items }
{
    strengthen(alloc, calls, &mut all[place], hold)
}

// Holds what is held already, and tells whether it wasn't held so before.
fn strengthen<C: Calls>(
    alloc: Global,
    calls: &C,
    held: &mut Held<C>,
    hold: Hold,
) -> io::Result<bool>
    ensures { held.new ≡ held.old }
{
    if held.file.is_enough(hold) {
        return Ok(false);
    }
    match held.file.strengthen(calls, hold) {
        Ok(()) => Ok(true),
        Err(fault) => Err(lock_fault(alloc, held.path.as_str(), fault)),
    }
}

// A file system that keeps no locks holds nobody up.
fn lock<C: Calls>(
    alloc: Global,
    calls: &C,
    path: &str,
    file: C::File,
    hold: Hold,
) -> io::Result<Locked<C>>
    ensures { IfOk result (λ locked. locked ≡ file) }
{
    match Locked::take_if_kept(calls, file, hold) {
        Ok(locked) => Ok(locked),
        Err(fault) => Err(lock_fault(alloc, path, fault)),
    }
}

fn lock_fault<L: Drop>(alloc: Global, path: &str, fault: LockFault<L>) -> io::Error
    ensures { IsLockError fault result }
{
    match fault {
        LockFault::Taken => met_fault(alloc, "another run holds", path),
        LockFault::KeepsNone(error, _) | LockFault::Disk(error) => error,
    }
}
