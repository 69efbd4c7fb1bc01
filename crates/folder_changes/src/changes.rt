//! The calls that change a folder, with what they leave to be synced.
ghost use Rattle.std.specs.Prelude.{◌≡◌, [], ◌∷◌, IfErr, IfOk, IsTrue, None, Ok, OnErr, OnOk, Some, false, true};
ghost use Rattle.std.specs.Option.{option_map};
ghost use Rattle.boot_base.specs.Paths.{file_name_of};
ghost use Rattle.name_syncs.specs.Folders.{parent_folder};
ghost use Rattle.name_syncs.specs.Named.{Covers, NameWaits, NothingWaits, RenameWaits};
ghost use Rattle.name_syncs.specs.Waiting.{AsksAmong, FileAt, FolderAt, IsOnDisk, KeepsSynced};
ghost use Rattle.folder_calls.specs.Calls.{MayGo, MayGoBut, alone, inode_of};
ghost use Rattle.folder_calls.specs.Ready.{IsTried};
ghost use Rattle.folder_calls.specs.Rows.{GoneRow, HasName, KeepsBytesBut, KeepsNames, KeepsNamesBut, KeepsNamesButTwo, MadeRow, MovedRow, WrittenRow, inode_at};
ghost use Rattle.folder_calls.specs.Tree.{is_fat_file};

use crate::ready::Ready;
use crate::sync::{KeptFile, is_open_at, require_held_at};
use crate::twins::{Twins, leave_of, shared_fault, twins_of};
use folder_calls::{Calls, Found, Locked, Reports, changed_fault, copy_path};
use name_syncs::{Disk, Named, folder_of, parted, sync_names};
use std::alloc::{AllocError, Global};
use std::marker::Model;
use std::{io, mem};

/// The calls, and what they leave to be synced. A clause sees the calls alone.
#[derive(Drop)]
pub struct Changes<C: Calls + Drop, E: Print + Drop> {
    pub(crate) alloc: Global,
    pub(crate) calls: C,
    pub(crate) reports: Reports<E>,
    named: Named,
    /// the folders of which is known that they may be synced
    pub(crate) ready: Ready,
    /// a renamed file that is still open
    pub(crate) moved: Option<KeptFile<C>>,
    /// the file that was removed last, until the names are synced
    removed: Option<String>,
    /// two names that may be of one file, for which a call has failed
    twins: Option<Twins>,
    /// What waits for the disk isn't known any more: a sync has failed, and the system tells of lost bytes once; or there
    /// was no memory for a note.
    is_unsure: bool,
}

impl<C: Calls + Drop, E: Print + Drop> Model for Changes<C, E> {
    ghost use Rattle.std.specs.Prelude.{IsTrue};
    ghost use Rattle.folder_changes.specs.Noted.{IsKnown};

    ghost Value = { C };

    ghost view = { λ changes. changes.calls };

    ghost invariant = { λ changes. IsTrue C.tells
        → IsKnown changes.is_unsure changes.named changes.ready (C.waits changes.calls) };
}

// There may have been no memory for a note: then it isn't known what waits.
fn keep_note(is_unsure: &mut bool, noted: Result<(), AllocError>) -> io::Result<()>
    ensures ok { OnOk result ((noted ≡ Ok tt) × (is_unsure.new ≡ is_unsure.old)) }
    ensures err { OnErr result (is_unsure.new ≡ true) }
{
    if noted.is_err() {
        *is_unsure = true;
    }
    Ok(noted?)
}

impl<C: Calls + Drop, E: Print + Drop> Changes<C, E> {
    /// Nothing has changed yet, and nothing waits.
    pub fn new(alloc: Global, calls: C, err: E) -> Self
        requires { IsTrue C.tells → NothingWaits (C.waits calls) }
        ensures { result ≡ calls }
    {
        Changes {
            alloc,
            calls,
            reports: Reports::new(err),
            named: Named::new(alloc),
            ready: Ready::new(alloc),
            moved: None,
            removed: None,
            twins: None,
            is_unsure: false,
        }
    }

    /// The calls, as far as they only look.
    pub fn calls(&self) -> &C
        ensures { result.now ≡ self.now }
    {
        &self.calls
    }

    /// A file was looked at: a name above it that another process changed is synced too.
    pub fn look_at(&mut self, path: &str) -> Result<(), AllocError>
        ensures { self.new ≡ self.old }
    {
        self.named.look_at(path)
    }

    /// A file was looked at again, and is as it was before the last sync of names.
    pub fn look_again(&mut self, path: &str) -> Result<(), AllocError>
        ensures { self.new ≡ self.old }
    {
        self.named.look_again(path)
    }

    /// The names of a folder were looked at.
    pub fn look_into(&mut self, folder: &str) -> Result<(), AllocError>
        ensures { self.new ≡ self.old }
    {
        self.named.look_into(folder)
    }

    /// The names of a folder that no other run changes were looked at again: they are as they were at the last sync of names.
    pub fn look_into_again(&mut self, folder: &str) -> Result<(), AllocError>
        ensures { self.new ≡ self.old }
    {
        self.named.look_into_again(folder)
    }

    /// A name is about to change in a folder that may not be there: it is synced, and so are those above it that weren't
    /// since the last reply.
    pub fn change_near(&mut self, path: &str) -> io::Result<()>
        ensures { self.new ≡ self.old }
    {
        keep_note(&mut self.is_unsure, self.named.change(path))?;
        Ok(())
    }

    /// Makes an empty file of that mode, where nothing stands.
    #[tactic(auto, using(crate::proofs::Noting::name_waits_same))]
    pub fn create(&mut self, path: &str, mode: u32) -> io::Result<C::File>
        ensures row { IfOk result (λ file. IsTrue C.tells
            → MadeRow (C.tree self.old) (C.tree self.new) path.now (C.inode file)) }
        ensures waits { IsTrue C.tells → NameWaits (C.waits self.old) (C.waits self.new) path.now }
        ensures kept { IsTrue C.tells → KeepsNamesBut path.now (C.tree self.old) (C.tree self.new) }
    {
        keep_note(&mut self.is_unsure, self.named.change(path))?;
        self.calls.create(path, mode)
    }

    /// Makes a folder, unless something stands there.
    #[tactic(auto, using(crate::proofs::Noting::name_waits_same))]
    pub fn make_folder(&mut self, folder: &str) -> io::Result<()>
        ensures row { OnOk result (IsTrue C.tells → HasName (C.tree self.new) folder.now) }
        ensures waits { IsTrue C.tells → NameWaits (C.waits self.old) (C.waits self.new) folder.now }
        ensures kept { IsTrue C.tells → KeepsNamesBut folder.now (C.tree self.old) (C.tree self.new) }
    {
        keep_note(&mut self.is_unsure, self.named.make(folder))?;
        self.calls.make_folder(folder)
    }

    /// Writes all of the bytes behind what an open file has.
    pub fn append(&mut self, file: &mut Locked<C>, bytes: &[u8]) -> io::Result<()>
        ensures row { OnOk result (IsTrue C.tells
            → WrittenRow (C.tree self.old) (C.tree self.new) (C.inode file.old) bytes.now) }
        ensures quiet { IsTrue C.tells → C.waits self.new ≡ C.waits self.old }
        ensures same { IsTrue C.tells → C.inode file.new ≡ C.inode file.old }
        ensures kept { IsTrue C.tells → KeepsNames (C.tree self.old) (C.tree self.new) }
        ensures others { IsTrue C.tells → KeepsBytesBut (C.inode file.old) (C.tree self.old) (C.tree self.new) }
    {
        file.append(&mut self.calls, bytes)
    }

    /// Gives an open file a mode, and tells whether its file system has modes. FAT has none.
    pub fn set_mode(&mut self, file: &C::File, found: &Found, mode: u32) -> io::Result<bool>
        requires modes { is_fat_file found.now ≡ false }
        requires open { IsTrue C.tells → C.inode file.now ≡ inode_of found.now }
        ensures quiet { IsTrue C.tells → C.waits self.new ≡ C.waits self.old }
        ensures kept { IsTrue C.tells → KeepsNames (C.tree self.old) (C.tree self.new) }
    {
        self.calls.set_mode(file, found, mode)
    }

    /// Puts a file that this run has made in its place. What stands there goes: a file must be held alone, and have no twin.
    /// The two may look alike.
    #[tactic(auto, using(crate::proofs::Noting::rename_waits_same))]
    pub fn put(
        &mut self,
        from: &str,
        to: &str,
        made: &Locked<C>,
        held: Option<&Locked<C>>,
    ) -> io::Result<()>
        ensures row { OnOk result (IsTrue C.tells → MovedRow (C.tree self.old) (C.tree self.new) from.now to.now) }
        ensures made { OnOk result (IsTrue C.tells
            → inode_at (C.tree self.new) to.now ≡ Some (C.inode made.now)) }
        ensures waits { IsTrue C.tells → RenameWaits (C.waits self.old) (C.waits self.new) from.now to.now }
        ensures leave { IfOk result (λ _. IsTrue C.tells
            → MayGoBut (C.tree self.old) to.now (file_name_of from.now)
            (option_map (λ file. alone (C.inode file.now)) held.entry)) }
        ensures kept { IsTrue C.tells → KeepsNamesButTwo from.now to.now (C.tree self.old) (C.tree self.new) }
    {
        let (_, name) = parted(from);
        let lock = self.require_leave(to, name, held)?;
        let made = require_held_at(&self.calls, from, made)?;
        keep_note(&mut self.is_unsure, self.named.rename(from, to))?;
        self.calls.put(from, to, made, lock)
    }

    /// Gives a file another path. What stands there goes: a file must be held alone, and have no twin.
    #[tactic(auto, using(crate::proofs::Noting::rename_waits_same))]
    pub fn rename(&mut self, from: &str, to: &str, held: Option<&Locked<C>>) -> io::Result<()>
        ensures row { OnOk result (IsTrue C.tells → MovedRow (C.tree self.old) (C.tree self.new) from.now to.now) }
        ensures waits { IsTrue C.tells → RenameWaits (C.waits self.old) (C.waits self.new) from.now to.now }
        ensures leave { IfOk result (λ _. IsTrue C.tells
            → MayGo (C.tree self.old) to.now (option_map (λ file. alone (C.inode file.now)) held.entry)) }
        ensures kept { IsTrue C.tells → KeepsNamesButTwo from.now to.now (C.tree self.old) (C.tree self.new) }
    {
        let lock = self.require_leave(to, "", held)?;
        keep_note(&mut self.is_unsure, self.named.rename(from, to))?;
        self.calls.rename(from, to, lock)
    }

    /// Removes a file: it must be held alone, and have no twin.
    #[tactic(auto, using(crate::proofs::Noting::name_waits_same))]
    pub fn unlink(&mut self, path: &str, held: Option<&Locked<C>>) -> io::Result<()>
        ensures row { OnOk result (IsTrue C.tells → GoneRow (C.tree self.new) path.now) }
        ensures waits { IsTrue C.tells → NameWaits (C.waits self.old) (C.waits self.new) path.now }
        ensures leave { IfOk result (λ _. IsTrue C.tells
            → MayGo (C.tree self.old) path.now (option_map (λ file. alone (C.inode file.now)) held.entry)) }
        ensures kept { IsTrue C.tells → KeepsNamesBut path.now (C.tree self.old) (C.tree self.new) }
    {
        let lock = self.require_leave(path, "", held)?;
        let removed = copy_path(self.alloc, path)?;
        keep_note(&mut self.is_unsure, self.named.change(path))?;
        self.calls.unlink(path, lock)?;
        self.removed = Some(removed);
        Ok(())
    }

    // What stands at a path may go, by the lock that is given back if it is a file. One name isn't asked whether it is that
    // of a twin.
    pub(crate) fn require_leave<'a>(
        &mut self,
        path: &str,
        but: &str,
        held: Option<&'a Locked<C>>,
    ) -> io::Result<Option<&'a C::Lock>>
        ensures same { self.new ≡ self.old }
        ensures lock { IfOk result (λ lock. IsTrue C.tells
            → MayGoBut (C.tree self.old) path.now but.now (option_map (λ lock. C.locks lock.now) lock)) }
        ensures leave { IfOk result (λ _. IsTrue C.tells
            → MayGoBut (C.tree self.old) path.now but.now
            (option_map (λ file. alone (C.inode file.now)) held.entry)) }
    {
        let (twins, lock) = leave_of(&self.calls, self.alloc, path, but, held)?;
        self.require_no_twins(twins)?;
        Ok(lock)
    }

    // There are no twins. If there are, they are kept to be told of: those that a call has failed for stay, whatever it then
    // takes back.
    fn require_no_twins(&mut self, twins: Option<Twins>) -> io::Result<()>
        ensures same { self.new ≡ self.old }
        ensures none { IfOk result (λ _. twins ≡ None) }
    {
        let Some(twins) = twins else {
            return Ok(());
        };
        self.twins = Some(twins);
        Err(shared_fault())
    }

    /// What was found at a path is changed only if no other name may be of it too.
    ///
    /// # Errors
    ///
    /// If two names may be of it, they are kept to be told of.
    pub fn require_one_name(&mut self, path: &str, found: Option<Found>) -> io::Result<()>
        ensures { self.new ≡ self.old }
    {
        let Some(found) = found else {
            return Ok(());
        };
        let twins = twins_of(&self.calls, self.alloc, path, "", &found)?;
        self.require_no_twins(twins)
    }

    /// The two names for which the last call has failed, if it has for such.
    pub fn take_twins(&mut self) -> Option<Twins>
        ensures { self.new ≡ self.old }
    {
        self.twins.take()
    }

    /// What waits isn't known any more: no later sync makes good for what has failed.
    pub fn give_up(&mut self)
        ensures { self.new ≡ self.old }
    {
        self.is_unsure = true;
    }

    /// Whether no name came or went since the last sync of names.
    pub fn has_changed_nothing(&self) -> bool {
        self.named.renamed.as_slice().is_empty() && self.removed.is_none()
    }

    /// An earlier sync must not have failed: none makes good for it.
    pub fn require_sure(&self) -> io::Result<()> {
        require_sync_before(self.is_unsure)
    }

    /// Syncs the bytes of the file at a path by an open one, which is the one that stands there. If that fails its folder is
    /// tried.
    pub fn sync_bytes(&mut self, path: &str, file: &Locked<C>) -> io::Result<()>
        ensures written { IfOk result (λ _. IsTrue C.tells → C.written self.new path.now ≡ false) }
        ensures tried { IfErr result (λ _. IsTrue C.tells
            → IsTried (C.waits self.new) (C.doubts self.new) (parent_folder path.now)) }
        ensures names { IfOk result (λ _. IsTrue C.tells → C.tree self.new ≡ C.tree self.old) }
    {
        let answer = self.sync_written(path, file);
        if answer.is_err() {
            self.fail_sync(folder_of(path));
        }
        answer
    }

    fn sync_written(&mut self, path: &str, file: &Locked<C>) -> io::Result<()>
        ensures written { IfOk result (λ _. IsTrue C.tells → C.written self.new path.now ≡ false) }
        ensures names { IsTrue C.tells → C.tree self.new ≡ C.tree self.old }
    {
        require_sync_before(self.is_unsure)?;
        if !is_open_at(&self.calls, path, file.file()) {
            return Err(changed_fault());
        }
        let answer = self.calls.sync_open(path, file.file());
        self.is_unsure = answer.is_err();
        answer
    }

    /// Syncs a file that has got its name, and its folder. Both must be there.
    pub fn sync_name(&mut self, path: &str) -> io::Result<()>
        ensures kept { IsTrue C.tells → KeepsSynced (C.waits self.old) (C.waits self.new) }
        ensures asks { IfOk result (λ _. IsTrue C.tells
            → AsksAmong (FileAt path.now ∷ FolderAt (parent_folder path.now) ∷ []) (C.waits self.old) (C.waits self.new)) }
        ensures file { IfOk result (λ _. IsTrue C.tells → (C.waits self.new).files path.now ≡ false) }
        ensures left { IfOk result (λ _. IsTrue C.tells → (C.waits self.new).left (FileAt path.now) ≡ false) }
        ensures folder { IfOk result (λ _. IsTrue C.tells → IsOnDisk (C.waits self.new) (parent_folder path.now)) }
        ensures names { IfOk result (λ _. IsTrue C.tells → C.tree self.new ≡ C.tree self.old) }
    {
        match self.sync_found(path) {
            Ok(true) => {}
            Ok(false) => return Err(self.give_up_gone()),
            Err(fault) => {
                self.is_unsure = true;
                return Err(fault);
            }
        }
        self.named.settle_file(path);
        self.sync_names_in(folder_of(path))
    }

    /// Syncs the names in a folder, which must be there.
    pub fn sync_names_in(&mut self, folder: &str) -> io::Result<()>
        ensures kept { IsTrue C.tells → KeepsSynced (C.waits self.old) (C.waits self.new) }
        ensures asks { IfOk result (λ _. IsTrue C.tells
            → AsksAmong (FolderAt folder.now ∷ []) (C.waits self.old) (C.waits self.new)) }
        ensures synced { IfOk result (λ _. IsTrue C.tells → IsOnDisk (C.waits self.new) folder.now) }
        ensures names { IfOk result (λ _. IsTrue C.tells → C.tree self.new ≡ C.tree self.old) }
    {
        match self.sync_folder(folder) {
            Ok(true) => Ok(()),
            Ok(false) => Err(self.give_up_gone()),
            Err(failure) => {
                self.is_unsure = true;
                Err(failure.fault)
            }
        }
    }

    /// Syncs a new folder with the one above it. If that fails both are tried.
    pub fn sync_new_folder(&mut self, folder: &str) -> io::Result<()>
        ensures kept { IsTrue C.tells → KeepsSynced (C.waits self.old) (C.waits self.new) }
        ensures tried { IfErr result (λ _. IsTrue C.tells → IsTried (C.waits self.new) (C.doubts self.new) folder.now) }
        ensures names { IfOk result (λ _. IsTrue C.tells → C.tree self.new ≡ C.tree self.old) }
    {
        let answer = self.sync_names_in(folder_of(folder));
        if answer.is_err() {
            self.try_folder(folder);
        }
        answer
    }

    // What this run has changed isn't there to be synced.
    fn give_up_gone(&mut self) -> io::Error
        ensures { self.new ≡ self.old }
    {
        self.is_unsure = true;
        self.gone()
    }

    /// Syncs each renamed file, then each changed folder with those above it, and last, as far as it can be done, the
    /// folders that were looked at. After a failure all of it is still to be synced.
    pub fn sync_names(&mut self) -> io::Result<()>
        ensures kept { IsTrue C.tells → KeepsSynced (C.waits self.old) (C.waits self.new) }
        ensures waits { IfOk result (λ _. IsTrue C.tells → NothingWaits (C.waits self.new)) }
        ensures names { IfOk result (λ _. IsTrue C.tells → C.tree self.new ≡ C.tree self.old) }
    {
        let answer = require_sync_before(self.is_unsure);
        self.reports.report("sync", "", answer)?;
        // What a failed sync leaves is made good for by no later one.
        self.is_unsure = true;
        let mut named = mem::replace(&mut self.named, Named::new(self.alloc));
        let answer = self.sync_noted(&mut named);
        self.is_unsure = answer.is_err();
        self.named = named;
        answer?;
        self.named.clear();
        self.removed = None;
        Ok(())
    }

    fn sync_noted(&mut self, named: &mut Named) -> io::Result<()>
        ensures kept { IsTrue C.tells → KeepsSynced (C.waits self.old) (C.waits self.new) }
        ensures waits { IfOk result (λ _. IsTrue C.tells
            → Covers named.old (C.waits self.old) → NothingWaits (C.waits self.new)) }
        ensures names { IfOk result (λ _. IsTrue C.tells → C.tree self.new ≡ C.tree self.old) }
    {
        sync_names(self, named)?;
        self.sync_replaced(named)?;
        self.require_writable()
    }

    // After a removal the file system must still be one that can be written: FAT's driver makes it read-only if the
    // clusters of the removed file were free already, and answers Ok all the same.
    fn require_writable(&self) -> io::Result<()> {
        let Some(removed) = &self.removed else {
            return Ok(());
        };
        let path = removed.as_str();
        self.reports.report("sync", path, self.calls.try_name(path))
    }

    /// A renamed file that is held is the one at that path, until its name is synced.
    pub fn keep_moved(&mut self, moved: KeptFile<C>)
        ensures { self.new ≡ self.old }
    {
        self.moved = Some(moved);
    }

    /// The renamed file that is held, and is held here no longer.
    pub fn take_moved(&mut self) -> Option<KeptFile<C>>
        ensures { self.new ≡ self.old }
    {
        self.moved.take()
    }

    /// What is told on standard error.
    pub fn reports(&self) -> &Reports<E> {
        &self.reports
    }

    /// Whether failures are told from now on.
    pub fn want_reports(&mut self, are_wanted: bool)
        ensures { self.new ≡ self.old }
    {
        self.reports.want(are_wanted);
    }

    /// A reply is printed, or a part of one: no later command relies on a sync before it.
    pub fn end_reply(&mut self)
        ensures { self.new ≡ self.old }
    {
        self.named.end_reply();
    }
}

// An earlier sync must not have failed: none makes good for it.
fn require_sync_before(is_unsure: bool) -> io::Result<()>
    ensures { IfOk result (λ _. is_unsure ≡ false) }
{
    if is_unsure {
        return Err(io::Error::other("an earlier sync failed"));
    }
    Ok(())
}
