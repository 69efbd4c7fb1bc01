//! Looks at files and folders, and reads.
ghost use Rattle.std.specs.Prelude.{◌≡◌, ◌≤◌, length, IfOk};

use super::System;
use crate::intent::HeldIntent;
use crate::listing::files_among;
use boot_base::{FileName, INTENT};
use folder_calls::{Calls, Found, Hold, copy_path};
use folder_changes::{is_alias_of_listed, is_spelled};
use folder_locks::{LookedFile, identity_of, is_payload, look_answer, open_file, open_known};
use name_syncs::folder_of;
use run_looks::Look;
use std::alloc::Global;
use std::io;

impl<C: Calls + Drop, E: Print + Drop> System<C, E> {
    // The length of a file, and None if none is there. While another run moves a file it may have no name to be found
    // by, so that is a fault then.
    pub(crate) fn size_of(&mut self, path: &str) -> io::Result<Option<u64>>
        ensures still { self.new.changes ≡ self.old.changes }
    {
        if path == INTENT {
            self.changes.look_at(path)?;
            return self.size_of_intent();
        }
        if let Some(look) = self.known_look(path) {
            return Ok(length_of(&look));
        }
        let found = self.changes.calls().find(path)?;
        self.has_missed = self.has_missed || found.is_none();
        self.note_look(path, found)?;
        match found {
            Some(found) if found.is_file() && self.is_own(path, &found)? => Ok(Some(
                found.facts.length,
            )),
            _ => Ok(None),
        }
    }

    // What was found at a path since the last reply: it is looked at once more before anything relies on it. A payload is
    // asked for twins each time, and so is what FAT may show in capitals.
    fn known_look(&self, path: &str) -> Option<Look> {
        let look = self.looks.recent_look(path)?;
        match look.found {
            Some(found) if found.nanoseconds == 0 => {
                if self.looks.has_listed(path) && !is_payload(path) {
                    return Some(look);
                }
                None
            }
            _ => Some(look),
        }
    }

    // Whether a file that is found at a path is the one of that name. What FAT shows in capitals alone isn't there, but for
    // a recovery. A payload that is there isn't written again, so its bytes must be its own.
    fn is_own(&mut self, path: &str, found: &Found) -> io::Result<bool>
        ensures still { self.new.changes ≡ self.old.changes }
    {
        if is_payload(path) && found.is_fat_file() {
            self.require_one_name(path)?;
        }
        if !found.is_fat_file() || self.looks.has_listed(path) {
            return Ok(true);
        }
        let calls = self.changes.calls();
        if self.is_left(path) {
            return Ok(!is_alias_of_listed(calls, self.alloc, path)?);
        }
        is_spelled(calls, self.alloc, path)
    }

    // This stands at a path, or nothing. Its folder is to be synced, unless it was after a look that found the same.
    // An intent has a lock of its own.
    fn note_look(&mut self, path: &str, found: Option<Found>) -> io::Result<()>
        ensures still { self.new.changes ≡ self.old.changes }
    {
        if path == INTENT {
            return Ok(());
        }
        let answer = self.looks.add(path, identity_of(found));
        let was_known = look_answer(self.alloc, path, answer)?;
        // No other run changes a folder that is held alone since it was synced.
        if was_known || self.locks.has_folder(folder_of(path), Hold::Alone) {
            self.changes.look_again(path)?;
        } else {
            self.changes.look_at(path)?;
        }
        self.locks.look_at(path)?;
        Ok(())
    }

    // The length of the intent, which this run holds from then on.
    fn size_of_intent(&mut self) -> io::Result<Option<u64>>
        ensures still { self.new.changes ≡ self.old.changes }
    {
        if self.intent.is_none() {
            self.intent = HeldIntent::take(self.changes.calls(), self.alloc)?;
        }
        match &self.intent {
            Some(held) => Ok(Some(held.length(self.changes.calls())?)),
            None => Ok(None),
        }
    }

    // Some of the file's bytes from that place on, and none where no file is there.
    pub(crate) fn read_some(&mut self, path: &str, at: u64, into: &mut [u8]) -> io::Result<usize>
        ensures within { IfOk result (λ n. n ≤ length into.new) }
        ensures still { self.new.changes ≡ self.old.changes }
    {
        if let Some(file) = self.locks.file_at(path) {
            return self.changes.calls().read(file, at, into);
        }
        let Some(mut looked) = self.take_looked(path)? else {
            return Ok(0);
        };
        let answer = looked.read(self.changes.calls(), at, into);
        self.looked = Some(looked);
        answer
    }

    // The file to read from: the one of the last read, where the path is the same.
    fn take_looked(&mut self, path: &str) -> io::Result<Option<LookedFile<C::File>>>
        ensures still { self.new.changes ≡ self.old.changes }
    {
        match self.looked.take() {
            Some(looked) if looked.path.as_str() == path => Ok(Some(looked)),
            _ => self.open_looked(path),
        }
    }

    fn open_looked(&mut self, path: &str) -> io::Result<Option<LookedFile<C::File>>>
        ensures still { self.new.changes ≡ self.old.changes }
    {
        let kept = copy_path(self.alloc, path)?;
        let opened = if self.looks.is_known_file(path) {
            open_known(self.changes.calls(), path)?
        } else {
            open_file(self.changes.calls(), path)?
        };
        let Some((file, found)) = opened else {
            self.has_missed = true;
            self.note_look(path, None)?;
            return Ok(None);
        };
        self.note_look(path, Some(found))?;
        if !self.is_own(path, &found)? {
            return Ok(None);
        }
        let size = found.facts.length;
        Ok(Some(LookedFile::new(self.alloc, kept, file, size)))
    }

    // The names of the files directly in a folder. Names that are not UTF-8 are passed over. While another run moves a
    // file its names may come and go, so that is a fault.
    pub(crate) fn names_in(&mut self, alloc: Global, folder: &str) -> io::Result<Vec<FileName>>
        ensures still { self.new.changes ≡ self.old.changes }
    {
        if self.locks.has_folder(folder, Hold::Alone) {
            self.changes.look_into_again(folder)?;
        } else {
            self.changes.look_into(folder)?;
        }
        let names = self.changes.calls().names(self.alloc, folder)?;
        let files = files_among(self.changes.calls(), alloc, folder, names.as_slice())?;
        self.has_missed = true;
        let answer = self.looks.add_names(folder, names);
        look_answer(self.alloc, folder, answer)?;
        Ok(files)
    }
}

// The length of a file that was found by a look.
fn length_of(look: &Look) -> Option<u64> {
    Some(look.found?.length)
}
