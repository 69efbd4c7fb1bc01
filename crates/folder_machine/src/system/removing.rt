//! Removals.
ghost use Rattle.std.specs.Prelude.{◌≡◌, ◌⊎◌, IfOk, IsTrue, OnOk};
ghost use Rattle.boot_base.specs.Paths.{intent};
ghost use Rattle.name_syncs.specs.Named.{NameWaits};
ghost use Rattle.folder_calls.specs.Rows.{GoneRow, KeepsNamesBut};
ghost use Rattle.folder_locks.specs.Looking.{LooksStand};

use super::System;
use crate::kept::{GONE, open_locked};
use boot_base::INTENT;
use folder_calls::{Access, Calls, Locked};
use folder_locks::other_run;
use std::io;

impl<C: Calls + Drop, E: Print + Drop> System<C, E> {
    // Removes a temporary file that no other run holds, under its lock. A link isn't one.
    pub(crate) fn remove_temp(&mut self, path: &str) -> io::Result<()>
        ensures stand { IfOk result (λ _. IsTrue C.tells → LooksStand (C.tree self.old.changes) self.old.looks) }
        ensures row { OnOk result (IsTrue C.tells → GoneRow (C.tree self.new.changes) path.now) }
        ensures kept { IsTrue C.tells → KeepsNamesBut path.now (C.tree self.old.changes) (C.tree self.new.changes) }
    {
        self.begin_change(path)?;
        match self.changes.calls().find_itself(path)? {
            Some(found) if found.is_file() => {
                let held = self.take_removed(path)?;
                self.unlink(path, &held)
            }
            Some(_) => self.unlink_held(path),
            None => Err(other_run(GONE)),
        }
    }

    fn take_removed(&mut self, path: &str) -> io::Result<Locked<C>>
        ensures still { self.new.changes ≡ self.old.changes }
        ensures looks { self.new.looks ≡ self.old.looks }
    {
        match self.written.take() {
            Some(written) if written.kept.is_at(path) => Ok(written.kept.file),
            _ => Ok(open_locked(self.changes.calls(), path, Access::Read)?.0),
        }
    }

    // Removes a boot file. The old name of a rename that a stop has left half done goes as its bytes allow.
    pub(crate) fn remove_file(&mut self, path: &str) -> io::Result<()>
        ensures stand { IfOk result (λ _. IsTrue C.tells
            → path.now ≡ intent ⊎ LooksStand (C.tree self.old.changes) self.old.looks) }
        ensures gone { OnOk result (IsTrue C.tells → path.now ≡ intent → GoneRow (C.tree self.new.changes) intent) }
    {
        if self.left_names().is_some() {
            self.require_one_name(path)?;
        }
        if path == INTENT {
            return self.remove_intent();
        }
        self.begin_change(path)?;
        match self.emptied_name(path)? {
            Some(to) => self.rename_emptied(path, to.as_str()),
            None => self.unlink_held(path),
        }
    }

    // Removes a file by the lock that is held for its change, or what is no file.
    #[tactic(auto, using(crate::proofs::NameSteps::name_waits_none))]
    pub(super) fn unlink_held(&mut self, path: &str) -> io::Result<()>
        ensures row { OnOk result (IsTrue C.tells → GoneRow (C.tree self.new.changes) path.now) }
        ensures waits { IsTrue C.tells → NameWaits (C.waits self.old.changes) (C.waits self.new.changes) path.now }
        ensures kept { IsTrue C.tells → KeepsNamesBut path.now (C.tree self.old.changes) (C.tree self.new.changes) }
    {
        self.looked = None;
        self.looks.forget(path);
        let answer = if let Some(held) = self.locks.lock_at(path) {
            self.changes.unlink(path, Some(held))
        } else {
            let found = self.changes.calls().find_itself(path)?;
            self.changes.unlink(path, self.locks.lock_of(found))
        };
        if answer.is_ok() {
            self.locks.keep_gone(path);
        } else {
            self.locks.close_file(path);
        }
        answer
    }

    // Removes a file by a lock of its own.
    fn unlink(&mut self, path: &str, held: &Locked<C>) -> io::Result<()>
        ensures row { OnOk result (IsTrue C.tells → GoneRow (C.tree self.new.changes) path.now) }
        ensures waits { IsTrue C.tells → NameWaits (C.waits self.old.changes) (C.waits self.new.changes) path.now }
        ensures kept { IsTrue C.tells → KeepsNamesBut path.now (C.tree self.old.changes) (C.tree self.new.changes) }
    {
        self.looked = None;
        self.looks.forget(path);
        let answer = self.changes.unlink(path, Some(held));
        self.locks.close_file(path);
        answer
    }
}
