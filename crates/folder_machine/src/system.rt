//! Files and names of a folder, over the calls of a system.
//!
//! What is no regular file, after links, isn't there, and is never opened. "Not a directory", "is a
//! directory" and a loop of links mean that no such file is there.
ghost use Rattle.std.specs.Prelude.{◌++◌, ◌≡◌, ◌≤◌, IfOk, IsTrue, None, OnOk, false, is_some, length, string_bytes};
ghost use Rattle.std.specs.Option.{ForSome};
ghost use Rattle.boot_base.specs.Paths.{intent, temp_end};
ghost use Rattle.name_syncs.specs.Named.{NameWaits, NothingWaits};
ghost use Rattle.name_syncs.specs.Waiting.{KeepsSynced};
ghost use Rattle.folder_machine.specs.Opening.{IsThere};
ghost use Rattle.folder_calls.specs.Rows.{KeepsNamesBut};
ghost use Rattle.folder_calls.specs.Calls.{inode_of};
ghost use Rattle.folder_calls.specs.Tree.{is_fat_file};
ghost use Rattle.folder_locks.specs.Looking.{LooksStand};
ghost use Rattle.folder_machine.specs.Refusing.{other_move_fault};

use crate::intent::{HeldIntent, require_no_other_move};
use boot_base::{INTENT, TEMP_SUFFIX};
use folder_calls::{Calls, Found, Hold, Reports, copy_path};
use folder_changes::{Changes, KeptFile, Twins};
use folder_locks::{
    Locks, LookedFile, hold_files, hold_folders, is_payload, require_all_same, require_same,
};
use name_syncs::{FolderSet, folder_of};
use run_looks::RunLooks;
use std::alloc::Global;
use std::{io, mem};

mod moving;
mod reading;
mod recovery;
mod removing;
mod writing;

/// The temporary file that is written, with its lock.
#[derive(Drop)]
struct Written<C: Calls + Drop> {
    kept: KeptFile<C>,
    /// what was found of it as it was made, with the mode that it gets in its place if it replaces no file; None if this run
    /// hasn't made it, or its file system has no modes
    made: Option<Found>,
    /// whether it may stand on FAT
    is_fat: bool,
    /// what this run has written to it, if it is an intent's
    said: Vec<u8>,
    ghost modes: { ForSome made (λ found. is_fat_file found ≡ false) },
    ghost open: { ForSome made (λ found. IsTrue C.tells → C.inode kept.file ≡ inode_of found) },
}

/// The files below the folder that the program starts in.
#[derive(Drop)]
pub(crate) struct System<C: Calls + Drop, E: Print + Drop> {
    alloc: Global,
    changes: Changes<C, E>,
    looks: RunLooks,
    /// whether something wasn't found, or a folder was listed, since another run's move was last asked for
    has_missed: bool,
    locks: Locks<C>,
    /// the intent of this run's move, or the one that a stop has left, with its lock
    intent: Option<HeldIntent<C>>,
    written: Option<Written<C>>,
    /// the file that was read last
    looked: Option<LookedFile<C::File>>,
}

impl<C: Calls + Drop, E: Print + Drop> System<C, E> {
    pub(crate) fn new(alloc: Global, calls: C, err: E) -> Self
        requires { IsTrue C.tells → NothingWaits (C.waits calls) }
    {
        System {
            alloc,
            changes: Changes::new(alloc, calls, err),
            looks: RunLooks::new(alloc),
            has_missed: false,
            locks: Locks::new(alloc),
            intent: None,
            written: None,
            looked: None,
        }
    }

    // What is told on standard error.
    pub(crate) fn reports(&self) -> &Reports<E> {
        self.changes.reports()
    }

    // Whether failures are told from now on.
    pub(crate) fn want_reports(&mut self, are_wanted: bool)
        ensures still { self.new.changes ≡ self.old.changes }
    {
        self.changes.want_reports(are_wanted);
    }

    // The two names for which the last call has failed, if it has for such.
    pub(crate) fn take_twins(&mut self) -> Option<Twins>
        ensures { self.new.changes ≡ self.old.changes }
    {
        self.changes.take_twins()
    }

    // After the recovery of this run an intent that it doesn't hold is that of another run.
    fn require_no_other_move(&self) -> io::Result<()>
        ensures { IfOk result (λ _. IsTrue C.tells
            → other_move_fault ((C.tree self.now.changes).leads intent) (is_some self.now.intent) ≡ None) }
    {
        require_no_other_move(self.changes.calls(), self.intent.is_some())
    }

    // While another run moves a file it may have no name to be found by.
    fn require_no_missed(&mut self) -> io::Result<()>
        ensures still { self.new.changes ≡ self.old.changes }
        ensures looks { self.new.looks ≡ self.old.looks }
    {
        if mem::replace(&mut self.has_missed, false) {
            return self.require_no_other_move();
        }
        Ok(())
    }

    // Before a change at a path this run takes its locks, and what it has looked at must still be the same.
    fn begin_change(&mut self, path: &str) -> io::Result<()>
        ensures still { self.new.changes ≡ self.old.changes }
        ensures stand { IfOk result (λ _. IsTrue C.tells → LooksStand (C.tree self.old.changes) self.old.looks) }
    {
        self.begin(path, Hold::Shared, &[path])
    }

    // Before a change this run holds the folder of that path so, and the files that go. What it has looked at must
    // still be the same.
    fn begin(&mut self, path: &str, hold: Hold, goes: &[&str]) -> io::Result<()>
        ensures still { self.new.changes ≡ self.old.changes }
        ensures stand { IfOk result (λ _. IsTrue C.tells → LooksStand (C.tree self.old.changes) self.old.looks) }
    {
        self.hold_folders(path, hold)?;
        self.hold_files(goes)?;
        self.require_looks()
    }

    // Holds the folder of a path so, with those that were listed and those of payloads. An intent has a lock of its own.
    fn hold_folders(&mut self, path: &str, hold: Hold) -> io::Result<()>
        ensures still { self.new.changes ≡ self.old.changes }
        ensures looks { self.new.looks ≡ self.old.looks }
    {
        let own = if output_of(path) == INTENT {
            None
        } else {
            Some(folder_of(path))
        };
        hold_folders(
            self.changes.calls(),
            self.alloc,
            &self.looks,
            &mut self.locks,
            own,
            hold,
        )
    }

    // Holds the files that go, and those that were read for it.
    fn hold_files(&mut self, goes: &[&str]) -> io::Result<()>
        ensures still { self.new.changes ≡ self.old.changes }
        ensures looks { self.new.looks ≡ self.old.looks }
    {
        hold_files(
            self.changes.calls(),
            self.alloc,
            &self.looks,
            &mut self.locks,
            goes,
        )
    }

    // What was looked at since the last reply must still be the same, and all that ever was once a folder is newly held.
    fn require_looks(&mut self) -> io::Result<()>
        ensures still { self.new.changes ≡ self.old.changes }
        ensures stand { IfOk result (λ _. IsTrue C.tells → LooksStand (C.tree self.old.changes) self.old.looks) }
    {
        self.require_no_missed()?;
        let calls = self.changes.calls();
        if self.locks.take_new_folder() {
            require_all_same(calls, self.alloc, &self.looks)
        } else {
            require_same(calls, self.alloc, &mut self.looks)
        }
    }

    // A file is changed only if no other name may be of it too.
    fn require_one_name(&mut self, path: &str) -> io::Result<()>
        ensures still { self.new.changes ≡ self.old.changes }
        ensures looks { self.new.looks ≡ self.old.looks }
    {
        let found = self.changes.calls().find_itself(path)?;
        self.changes.require_one_name(path, found)
    }

    // Makes the folders above a file that aren't there.
    fn make_folders(&mut self, path: &str) -> io::Result<()> {
        let folder = folder_of(path);
        if folder.is_empty()
            || self.locks.has_folder(folder, Hold::Shared)
            || self.changes.calls().find(folder)?.is_some()
        {
            return Ok(());
        }
        let mut above = FolderSet::new(self.alloc);
        above.add_above(path)?;
        for folder in above.below.as_slice().iter().rev() {
            self.make_folder(folder.as_str())?;
        }
        Ok(())
    }

    // Makes a folder, unless something stands there. On FAT the folder above is synced at once: a new folder's first bytes
    // are written with that one.
    #[tactic(auto, using(crate::proofs::NameSteps::name_waits_none, crate::proofs::NameSteps::name_waits_synced))]
    fn make_folder(&mut self, folder: &str) -> io::Result<()>
        ensures waits { IsTrue C.tells → NameWaits (C.waits self.old.changes) (C.waits self.new.changes) folder.now }
        ensures row { OnOk result (IsTrue C.tells → IsThere (C.tree self.new.changes) folder.now) }
        ensures kept { OnOk result (IsTrue C.tells
            → KeepsNamesBut folder.now (C.tree self.old.changes) (C.tree self.new.changes)) }
    {
        if self.changes.calls().find(folder)?.is_some() {
            return Ok(());
        }
        self.looks.forget_name(folder);
        self.changes.make_folder(folder)?;
        let made = self.changes.calls().find(folder)?;
        if made.is_some_and(|made| made.is_fat_folder()) {
            self.changes.sync_new_folder(folder)?;
        }
        Ok(())
    }

    // Syncs each renamed file, then each changed folder with those above it, and last, as far as it can be
    // done, the folders that were looked at. After a failure all of it is still to be synced. No name comes or goes by it.
    // Only then may the system free the bytes of the files that were replaced or removed, so these are closed behind it.
    #[tactic(auto, using(crate::proofs::NameSteps::syncs_twice, crate::proofs::NameSteps::nothing_waits_still))]
    pub(crate) fn sync_names(&mut self) -> io::Result<()>
        ensures kept { IsTrue C.tells → KeepsSynced (C.waits self.old.changes) (C.waits self.new.changes) }
        ensures waits { IfOk result (λ _. IsTrue C.tells → NothingWaits (C.waits self.new.changes)) }
        ensures names { IfOk result (λ _. IsTrue C.tells → C.tree self.new.changes ≡ C.tree self.old.changes) }
    {
        self.looked = None;
        let answer = self.changes.require_sure();
        self.changes.reports().report("sync", "", answer)?;
        let has_changed_nothing = self.changes.has_changed_nothing();
        self.changes.sync_names()?;
        self.locks.close_gone();
        if has_changed_nothing && self.looks.has_unchecked() {
            let answer = self.require_no_missed();
            self.changes.reports().report("look", "", answer)?;
            let answer = require_same(self.changes.calls(), self.alloc, &mut self.looks);
            self.changes.reports().report("look", "", answer)?;
        }
        self.keep_intent();
        Ok(())
    }

    // A file that was renamed is synced and needs no lock any more, but for the intent.
    fn keep_intent(&mut self)
        ensures { self.new.changes ≡ self.old.changes }
    {
        if let Some(moved) = self.changes.take_moved()
            && moved.is_at(INTENT)
        {
            self.intent = Some(HeldIntent::new(moved.file));
        }
    }

    // A reply is printed, or a part of one: no later command relies on a sync before it.
    pub(crate) fn end_reply(&mut self)
        ensures still { self.new.changes ≡ self.old.changes }
    {
        self.changes.end_reply();
        self.looks.end_reply();
        self.locks.end_reply();
    }

    // Prints all of the bytes.
    pub(crate) fn write_out(&self, bytes: &[u8]) -> io::Result<()> {
        self.changes.calls().print(bytes)
    }

    // Some of the next bytes of standard input, and none at its end.
    pub(crate) fn read_input(&self, into: &mut [u8]) -> io::Result<usize>
        ensures { IfOk result (λ n. n ≤ length into.new) }
    {
        self.changes.calls().input(into)
    }
}

// The path of a file's temporary file.
fn temp_of(alloc: Global, path: &str) -> io::Result<String>
    ensures { IfOk result (λ temp. string_bytes temp ≡ path.now ++ temp_end) }
{
    let mut temp = copy_path(alloc, path)?;
    temp.push_str(TEMP_SUFFIX)?;
    Ok(temp)
}

// The path that a temporary file is for. Another path stays as it is.
fn output_of(path: &str) -> &str {
    path.strip_suffix(TEMP_SUFFIX).unwrap_or(path)
}

// Whether only its owner may ever open a file: an intent, which holds up other runs, or a payload, which may have keys.
fn is_private(path: &str) -> bool {
    output_of(path) == INTENT || is_payload(path)
}
