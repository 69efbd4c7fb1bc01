//! What becomes of a rename that a stop has left half done.
ghost use Rattle.std.specs.Option.{option_map_or};
ghost use Rattle.std.specs.Prelude.{◌≡◌, IfOk, IsTrue, None, OnOk, false, true, option_copied, string_bytes};
ghost use Rattle.name_syncs.specs.Waiting.{KeepsSynced};
ghost use Rattle.boot_base.specs.Paths.{intent};
ghost use Rattle.folder_calls.specs.Rows.{GoneRow, HasName};
ghost use Rattle.folder_machine.specs.Moving.{LeftAreSynced, NameIsSynced, left_names, names_path};

use super::System;
use crate::intent::HeldIntent;
use boot_base::{INTENT, IntentNames};
use folder_calls::{Calls, copy_path};
use folder_changes::{Removal, Rescue, fat_file_at, is_alias_of_listed, removal_of_old, rescue_of};
use std::io;

impl<C: Calls + Drop, E: Print + Drop> System<C, E> {
    // Removes the intent, once the file that it names has its bytes on the disk.
    pub(super) fn remove_intent(&mut self) -> io::Result<()>
        ensures none { OnOk result (self.new.intent ≡ None) }
        ensures gone { OnOk result (IsTrue C.tells → GoneRow (C.tree self.new.changes) intent) }
    {
        let answer = self.rescue_left();
        if answer.is_err() {
            self.changes.give_up();
        }
        answer?;
        self.sync_left()?;
        if self.intent.is_none() {
            self.keep_intent();
        }
        self.looked = None;
        self.looks.forget(INTENT);
        let held = self.intent.as_ref().map(|held| held.file());
        self.changes.unlink(INTENT, held)?;
        self.locks.close_file(INTENT);
        self.intent = None;
        Ok(())
    }

    // Syncs the file of a half done rename by the name that it has, and its folder: the run that has renamed it may not have
    // done so, and the bytes must be on the disk before the intent goes.
    fn sync_left(&mut self) -> io::Result<()>
        ensures { IfOk result (λ _. IsTrue C.tells
            → LeftAreSynced (C.tree self.old.changes) (C.waits self.new.changes) (left_names self.old.intent)) }
    {
        let alloc = self.alloc;
        let Some(names) = self.left_names() else {
            return Ok(());
        };
        let from = copy_path(alloc, names.from.as_str())?;
        let to = copy_path(alloc, names.to.as_str())?;
        let has_old = fat_file_at(self.changes.calls(), from.as_str())?.is_some();
        let has_new = fat_file_at(self.changes.calls(), to.as_str())?.is_some();
        self.sync_name_if(has_old, from.as_str())?;
        self.sync_name_if(has_new, to.as_str())
    }

    // Syncs a file and its folder, if it is there.
    fn sync_name_if(&mut self, is_there: bool, path: &str) -> io::Result<()>
        ensures kept { IsTrue C.tells → KeepsSynced (C.waits self.old.changes) (C.waits self.new.changes) }
        ensures synced { IfOk result (λ _. IsTrue C.tells → is_there ≡ true
            → NameIsSynced (C.waits self.new.changes) path.now) }
    {
        if !is_there {
            return Ok(());
        }
        self.changes.sync_name(path)
    }

    // Gives the file of a half done rename the name that it is to have, if it has another one.
    fn rescue_left(&mut self) -> io::Result<()> {
        self.require_one_name_left()?;
        match self.find_rescue()? {
            Some(rescue) => self.rescue(rescue),
            None => Ok(()),
        }
    }

    fn find_rescue(&self) -> io::Result<Option<Rescue>> {
        match self.left_names() {
            Some(names) => rescue_of(self.changes.calls(), self.alloc, names),
            None => Ok(None),
        }
    }

    // Gives the file that name, and syncs both.
    fn rescue(&mut self, rescue: Rescue) -> io::Result<()>
        ensures synced { IfOk result (λ _. IsTrue C.tells
            → NameIsSynced (C.waits self.new.changes) (string_bytes rescue.name)) }
        ensures there { OnOk result (IsTrue C.tells → HasName (C.tree self.new.changes) (string_bytes rescue.name)) }
    {
        let Rescue { path, by, name } = rescue;
        let Some(by) = by else {
            return self.rename_left(path.as_str(), name.as_str());
        };
        self.rename_left(path.as_str(), by.as_str())?;
        self.rename_left(by.as_str(), name.as_str())
    }

    // No other name than those of the intent may be of its file.
    fn require_one_name_left(&mut self) -> io::Result<()>
        ensures still { self.new.changes ≡ self.old.changes }
    {
        let alloc = self.alloc;
        let Some(names) = self.left_names() else {
            return Ok(());
        };
        let from = copy_path(alloc, names.from.as_str())?;
        let to = copy_path(alloc, names.to.as_str())?;
        self.require_one_name(from.as_str())?;
        if is_alias_of_listed(self.changes.calls(), alloc, to.as_str())? {
            return Ok(());
        }
        self.require_one_name(to.as_str())
    }

    // Gives the file of an intent another name, and syncs both.
    fn rename_left(&mut self, from: &str, to: &str) -> io::Result<()>
        ensures synced { IfOk result (λ _. IsTrue C.tells → NameIsSynced (C.waits self.new.changes) to.now) }
        ensures there { OnOk result (IsTrue C.tells → HasName (C.tree self.new.changes) to.now) }
    {
        self.locks.hold_changed(self.changes.calls(), from, None)?;
        self.locks.hold_changed(self.changes.calls(), to, None)?;
        let is_fat = self.locks.may_be_fat(from);
        self.rename_known(from, to, is_fat)?;
        self.changes.sync_name(to)
    }

    // The names of the rename that a stop has left half done.
    pub(super) fn left_names(&self) -> Option<&IntentNames>
        ensures { option_copied result ≡ left_names self.now.intent }
    {
        self.intent.as_ref().and_then(HeldIntent::left)
    }

    // Whether an intent that a stop has left names this path.
    pub(super) fn is_left(&self, path: &str) -> bool
        ensures { result ≡ option_map_or (names_path path.now) (left_names self.now.intent) false }
    {
        self.left_names().is_some_and(|names| names.from.as_str() == path
            || names.to.as_str() == path)
    }

    // The new name of the rename that a stop has left half done, if this is its old name and the new one has lost its
    // bytes.
    pub(super) fn emptied_name(&self, path: &str) -> io::Result<Option<String>> {
        let Some(names) = self.left_names() else {
            return Ok(None);
        };
        if names.from.as_str() != path {
            return Ok(None);
        }
        match removal_of_old(self.changes.calls(), self.alloc, names)? {
            Removal::RenameOver => Ok(Some(copy_path(self.alloc, names.to.as_str())?)),
            Removal::Unlink => Ok(None),
        }
    }

    // Renames the old name of a half done rename over the new one, which has lost its bytes.
    pub(super) fn rename_emptied(&mut self, from: &str, to: &str) -> io::Result<()>
        ensures there { OnOk result (IsTrue C.tells → HasName (C.tree self.new.changes) to.now) }
    {
        self.locks.hold_changed(self.changes.calls(), to, None)?;
        let is_fat = self.locks.may_be_fat(from);
        self.rename_known(from, to, is_fat)
    }
}
