//! Renames: of temporary files into their place, and of boot files.
ghost use Rattle.std.specs.Prelude.{◌≡◌, ◌⊎◌, ◌++◌, IfOk, IfSome, IsTrue, None, OnOk, Some, string_bytes, true};
ghost use Rattle.boot_base.specs.Paths.{temp_end};
ghost use Rattle.name_syncs.specs.Named.{NameWaits};
ghost use Rattle.folder_calls.specs.Rows.{HasName, KeepsNames, inode_at};
ghost use Rattle.folder_locks.specs.Looking.{LooksStand};
ghost use Rattle.folder_machine.specs.Refusing.{replace_fault};
ghost use Rattle.folder_machine.specs.Moving.{mode_in_place};

use super::{System, Written, is_private, temp_of};
use crate::intent::require_intent;
use crate::kept::{PRIVATE, require_not_written, require_replaceable};
use boot_base::{INTENT, INTENT_LIMIT};
use folder_calls::{Calls, Found, Hold, copy_path};
use folder_changes::{KeptFile, free_alias, is_alias_of_listed, path_in_the_way, require_spelled};
use name_syncs::folder_of;
use std::io;

impl<C: Calls + Drop, E: Print + Drop> System<C, E> {
    // Renames a temporary file that no other run holds, under its lock.
    pub(crate) fn move_temp(&mut self, from: &str, to: &str) -> io::Result<()>
        ensures row { OnOk result (IfSome self.old.written (λ written. string_bytes written.kept.path ≡ from.now
            → IsTrue C.tells → written.kept.is_made ≡ true
            → inode_at (C.tree self.new.changes) to.now ≡ Some (C.inode written.kept.file))) }
        ensures stand { IfOk result (λ _. IsTrue C.tells → LooksStand (C.tree self.old.changes) self.old.looks) }
        ensures there { OnOk result (IsTrue C.tells → HasName (C.tree self.new.changes) to.now) }
    {
        let kept = copy_path(self.alloc, to)?;
        let written = self.take_written(from)?;
        let replaced = match self.begin_temp(from, to, &written) {
            Ok(replaced) => replaced,
            Err(error) => {
                self.written = Some(written);
                return Err(error);
            }
        };
        self.give_mode(&written, to, replaced)?;
        self.put(from, to, &written, replaced)?;
        self.changes.keep_moved(KeptFile {
            path: kept,
            goes_again: written.is_fat && replaced.is_none(),
            ..written.kept
        });
        Ok(())
    }

    // Before a temporary file is renamed. It gives what the file will replace: an intent replaces none.
    fn begin_temp(
        &mut self,
        from: &str,
        to: &str,
        written: &Written<C>,
    ) -> io::Result<Option<Found>>
        ensures stand { IfOk result (λ _. IsTrue C.tells → LooksStand (C.tree self.old.changes) self.old.looks) }
    {
        if to == INTENT {
            self.begin_intended(from, written)?;
            return Ok(None);
        }
        if !written.kept.is_made {
            self.require_no_other_move()?;
        }
        self.begin_change(to)?;
        self.changes.calls().find_itself(to)
    }

    // Before an intent is put in place, what it says must be a move that may begin. Else its temporary file goes.
    fn begin_intended(&mut self, temp: &str, written: &Written<C>) -> io::Result<()>
        ensures stand { IfOk result (λ _. IsTrue C.tells → LooksStand (C.tree self.old.changes) self.old.looks) }
    {
        let said = if written.kept.is_made && written.said.len() <= INTENT_LIMIT as usize {
            Some(written.said.as_slice())
        } else {
            None
        };
        let answer = self.begin_move_of(temp, said);
        if answer.is_err() {
            let _ = self.changes.unlink(temp, Some(&written.kept.file));
        }
        answer
    }

    fn begin_move_of(&mut self, temp: &str, said: Option<&[u8]>) -> io::Result<()>
        ensures still { self.new.changes ≡ self.old.changes }
        ensures stand { IfOk result (λ _. IsTrue C.tells → LooksStand (C.tree self.old.changes) self.old.looks) }
    {
        let names = require_intent(self.changes.calls(), self.alloc, temp, said)?;
        self.begin_move(names.from.as_str(), names.to.as_str())
    }

    // What is put in place was for its owner alone. It has the mode of the file that it replaces.
    fn give_mode(
        &mut self,
        written: &Written<C>,
        to: &str,
        replaced: Option<Found>,
    ) -> io::Result<()>
        ensures quiet { IsTrue C.tells → C.waits self.new.changes ≡ C.waits self.old.changes }
        ensures kept { IsTrue C.tells → KeepsNames (C.tree self.old.changes) (C.tree self.new.changes) }
    {
        let Some(made) = &written.made else {
            return Ok(());
        };
        let mode = mode_in_place(made.mode, replaced);
        if !is_private(to) && mode != PRIVATE {
            self.changes.set_mode(written.kept.file.file(), made, mode)?;
        }
        Ok(())
    }

    // Renames a boot file, unless another run is about to put a file in place at the new path.
    pub(crate) fn move_file(&mut self, from: &str, to: &str) -> io::Result<()>
        ensures stand { IfOk result (λ _. IsTrue C.tells → LooksStand (C.tree self.old.changes) self.old.looks) }
        ensures there { OnOk result (IsTrue C.tells → HasName (C.tree self.new.changes) to.now) }
    {
        self.begin_move(from, to)?;
        let is_fat = self.locks.may_be_fat(from);
        if is_fat {
            self.make_room(to)?;
        }
        self.rename_known(from, to, is_fat)
    }

    // Takes the locks of a move, before the boot file is moved and before the intent that says so. No other run may be
    // about to put a file in place at the new path.
    fn begin_move(&mut self, from: &str, to: &str) -> io::Result<()>
        ensures still { self.new.changes ≡ self.old.changes }
        ensures stand { IfOk result (λ _. IsTrue C.tells → LooksStand (C.tree self.old.changes) self.old.looks) }
    {
        if self.intent.is_some()
            && self.locks.has_file(from)
            && self.locks.has_folder(folder_of(to), Hold::Alone)
        {
            return self.require_looks();
        }
        self.require_one_name(from)?;
        // No other run may put a file at the new path: while there is none it has no lock.
        self.begin(to, Hold::Alone, &[from, to])?;
        let temp = temp_of(self.alloc, to)?;
        if !self.locks.has_folder(folder_of(to), Hold::Alone) {
            require_not_written(self.changes.calls(), temp.as_str())?;
        }
        Ok(())
    }

    // A folder of FAT grows for a new name before that comes, if it has to: an empty file with a longer name comes and
    // goes. A leftover stays as it is.
    #[tactic(auto, using(crate::proofs::NameRows::comes_and_goes))]
    fn make_room(&mut self, to: &str) -> io::Result<()>
        ensures waits { IsTrue C.tells
            → NameWaits (C.waits self.old.changes) (C.waits self.new.changes) (to.now ++ temp_end) }
        ensures kept { OnOk result (IsTrue C.tells → KeepsNames (C.tree self.old.changes) (C.tree self.new.changes)) }
    {
        let temp = temp_of(self.alloc, to)?;
        let temp = temp.as_str();
        if self.changes.calls().find_itself(temp)?.is_some() {
            return Ok(());
        }
        let created = self.make_temp(temp, PRIVATE)?;
        self.changes.unlink(temp, Some(&created.file))
    }

    // Puts a temporary file in its place. One that this run has made may look like what it replaces.
    #[tactic(auto, using(crate::proofs::NameRows::moved_stands))]
    fn put(
        &mut self,
        from: &str,
        to: &str,
        written: &Written<C>,
        replaced: Option<Found>,
    ) -> io::Result<()>
        ensures row { OnOk result (IsTrue C.tells → written.now.kept.is_made ≡ true
            → inode_at (C.tree self.new.changes) to.now ≡ Some (C.inode written.now.kept.file)) }
        ensures there { OnOk result (IsTrue C.tells → HasName (C.tree self.new.changes) to.now) }
    {
        let replaced = self.make_way(from, to, written.is_fat, replaced)?;
        let held = self.locks.lock_of(replaced);
        let answer = if written.kept.is_made {
            self.changes.put(from, to, &written.kept.file, held)
        } else {
            self.changes.rename(from, to, held)
        };
        self.end_rename(from, to, written.is_fat, answer)
    }

    // Before a file gets a name its folders are made if they are missing, and what a folder of FAT lists there in capitals
    // goes. It gives what the file will replace.
    pub(super) fn make_way(
        &mut self,
        from: &str,
        to: &str,
        is_fat: bool,
        replaced: Option<Found>,
    ) -> io::Result<Option<Found>>
        ensures may { OnOk result (replace_fault replaced ≡ None) }
        ensures left { IfOk result (λ left. left ≡ replaced
            ⊎ (IsTrue C.tells → left ≡ (C.tree self.new.changes).stands to.now)) }
    {
        self.looked = None;
        drop(self.changes.take_moved());
        require_replaceable(replaced)?;
        self.make_folders(to)?;
        self.looks.forget(from);
        self.looks.forget(to);
        if !is_fat {
            return Ok(replaced);
        }
        let Some(way) = path_in_the_way(self.changes.calls(), self.alloc, from, to, replaced)?
        else {
            return Ok(replaced);
        };
        self.clear_way(way.as_str())?;
        self.changes.calls().find_itself(to)
    }

    // Removes what is in the way of a new name, by a lock on it. The new name may not lead to it.
    fn clear_way(&mut self, way: &str) -> io::Result<()>
        ensures { IsTrue C.tells → NameWaits (C.waits self.old.changes) (C.waits self.new.changes) way.now }
    {
        self.locks.hold_changed(self.changes.calls(), way, None)?;
        self.unlink_held(way)
    }

    // What was renamed is held by its old path no longer, whatever the system has answered. On FAT it must be shown by its
    // new one.
    pub(super) fn end_rename(
        &mut self,
        from: &str,
        to: &str,
        is_fat: bool,
        answer: io::Result<()>,
    ) -> io::Result<()>
        ensures still { self.new.changes ≡ self.old.changes }
        ensures looks { self.new.looks ≡ self.old.looks }
        ensures ok { IfOk result (λ _. answer ≡ Ok tt) }
    {
        self.locks.close_file(from);
        self.locks.keep_gone(to);
        answer?;
        if !is_fat {
            return Ok(());
        }
        require_spelled(self.changes.calls(), self.alloc, to)
    }

    // Renames a file that was there before the names were last synced. If the new name is the file's own short alias, the
    // system would do nothing: so it goes by another alias, which a recovery finds.
    pub(super) fn rename_known(&mut self, from: &str, to: &str, is_fat: bool) -> io::Result<()>
        ensures there { OnOk result (IsTrue C.tells → HasName (C.tree self.new.changes) to.now) }
    {
        let calls = self.changes.calls();
        if !is_fat || !is_alias_of_listed(calls, self.alloc, to)? {
            return self.rename_once(from, to, is_fat);
        }
        let alias = free_alias(calls, self.alloc, to)?;
        let alias = alias.as_str();
        self.rename_once(from, alias, is_fat)?;
        self.changes.sync_name(alias)?;
        self.rename_once(alias, to, is_fat)
    }

    #[tactic(auto, using(crate::proofs::NameRows::moved_stands))]
    fn rename_once(&mut self, from: &str, to: &str, is_fat: bool) -> io::Result<()>
        ensures there { OnOk result (IsTrue C.tells → HasName (C.tree self.new.changes) to.now) }
    {
        self.changes.change_near(to)?;
        let replaced = self.changes.calls().find_itself(to)?;
        let replaced = self.make_way(from, to, is_fat, replaced)?;
        let held = self.locks.lock_of(replaced);
        let answer = self.changes.rename(from, to, held);
        self.end_rename(from, to, is_fat, answer)
    }
}

// The mode of a file in its place: that of the file which it replaces, if there is one.
fn mode_in_place(new_mode: u32, replaced: Option<Found>) -> u32
    ensures { result ≡ mode_in_place new_mode replaced }
{
    match replaced {
        Some(found) if found.is_file() => found.mode,
        _ => new_mode,
    }
}
