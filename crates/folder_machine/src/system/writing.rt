//! Temporary files, until they are put in place.
ghost use Rattle.std.specs.Prelude.{◌≡◌, false, true, IfOk, IfSome, IsSomeAnd, IsTrue, OnOk, string_bytes};
ghost use Rattle.name_syncs.specs.Folders.{parent_folder};
ghost use Rattle.name_syncs.specs.Named.{NameWaits};
ghost use Rattle.folder_calls.specs.Calls.{IsOpenAt, inode_of};
ghost use Rattle.folder_calls.specs.Rows.{HasName, KeepsNames, KeepsNamesBut, WrittenRow};
ghost use Rattle.folder_calls.specs.Tree.{is_fat_file};
ghost use Rattle.folder_machine.specs.Opening.{IsFileAt};

use super::{System, Written, is_private, output_of};
use crate::kept::{Created, PRIVATE, PUBLIC, create_locked, open_locked, require_replaceable};
use boot_base::{INTENT, TEMP_SUFFIX};
use folder_calls::{Access, Calls, Hold, copy_path};
use folder_changes::KeptFile;
use name_syncs::folder_of;
use std::alloc::AllocError;
use std::io;

impl<C: Calls + Drop, E: Print + Drop> System<C, E> {
    // An empty temporary file, in folders that are made if they are missing. Nothing is changed if the path that it is
    // for is a folder, if another run holds it or moves a file, or if it may be that path's own file.
    #[tactic(auto, using(crate::proofs::NameRows::open_stands))]
    pub(crate) fn create_file(&mut self, path: &str) -> io::Result<()>
        ensures own { IfOk result (λ _. IsSomeAnd self.new.written
            (λ written. (string_bytes written.kept.path ≡ path.now) × (written.kept.is_made ≡ true))) }
        ensures at { IfOk result (λ _. IfSome self.new.written (λ written. IsTrue C.tells
            → IsOpenAt (C.tree self.new.changes) path.now (C.inode written.kept.file))) }
        ensures there { IfOk result (λ _. IsTrue C.tells → HasName (C.tree self.new.changes) path.now) }
    {
        self.looked = None;
        self.written = None;
        let kept = copy_path(self.alloc, path)?;
        let output = output_of(path);
        self.require_no_other_move()?;
        if output == INTENT {
            // the move takes its locks before its intent is put in place
            self.locks.give_up();
        } else {
            self.require_output(output)?;
            self.begin_output(output)?;
            // who reads the old file may go on while the new one is written, unless this run has read it too
            if !self.looks.is_to_hold(output) {
                self.locks.close_file(output);
            }
        }
        self.looks.forget(path);
        let mode = if is_private(path) { PRIVATE } else { PUBLIC };
        let created = self.make_temp(path, mode)?;
        self.written = Some(Written {
            kept: KeptFile {
                path: kept,
                file: created.file,
                is_made: true,
                goes_again: false,
            },
            made: created.given,
            is_fat: created.found.is_fat_file(),
            said: Vec::new(self.alloc),
        });
        Ok(())
    }

    // The locks for an output. A folder that isn't there is made first.
    fn begin_output(&mut self, output: &str) -> io::Result<()> {
        self.begin_change(output)?;
        if self.locks.has_folder(folder_of(output), Hold::Shared) {
            return Ok(());
        }
        self.changes.change_near(output)?;
        self.make_folders(output)?;
        self.begin_change(output)
    }

    // What stands at the path of an output may be replaced.
    fn require_output(&mut self, output: &str) -> io::Result<()>
        ensures still { self.new.changes ≡ self.old.changes }
        ensures looks { self.new.looks ≡ self.old.looks }
    {
        let replaced = self.changes.calls().find_itself(output)?;
        require_replaceable(replaced)?;
        self.changes.require_one_name(output, replaced)
    }

    // Makes a temporary file with its lock, and syncs its folder on FAT. If that has grown for it, it shows old bytes of
    // the disk until then, so nothing else is to be written before.
    pub(super) fn make_temp(&mut self, path: &str, mode: u32) -> io::Result<Created<C>>
        ensures same { IfOk result (λ made. IsTrue C.tells → C.inode made.file ≡ inode_of made.found) }
        ensures modes { IfOk result (λ made. IfSome made.given (λ found. is_fat_file found ≡ false)) }
        ensures open { IfOk result (λ made. IfSome made.given (λ found. IsTrue C.tells
            → C.inode made.file ≡ inode_of found)) }
        ensures waits { IsTrue C.tells → NameWaits (C.waits self.old.changes) (C.waits self.new.changes) path.now }
        ensures grown { IfOk result (λ made. IsTrue C.tells → is_fat_file made.found ≡ true
            → (C.waits self.new.changes).folders (parent_folder path.now) ≡ false) }
        ensures at { IfOk result (λ made. IsTrue C.tells
            → IsOpenAt (C.tree self.new.changes) path.now (C.inode made.file)) }
        ensures kept { IfOk result (λ _. IsTrue C.tells
            → KeepsNamesBut path.now (C.tree self.old.changes) (C.tree self.new.changes)) }
    {
        let created = create_locked(&mut self.changes, path, mode)?;
        if created.found.is_fat_file() {
            self.changes.sync_names_in(folder_of(path))?;
        }
        Ok(created)
    }

    // Writes behind what the file has.
    pub(crate) fn append_bytes(&mut self, path: &str, bytes: &[u8]) -> io::Result<()>
        ensures row { OnOk result (IfSome self.old.written (λ written. string_bytes written.kept.path ≡ path.now
            → IsTrue C.tells → WrittenRow (C.tree self.old.changes) (C.tree self.new.changes)
            (C.inode written.kept.file) bytes.now)) }
        ensures quiet { IsTrue C.tells → C.waits self.new.changes ≡ C.waits self.old.changes }
        ensures kept { IsTrue C.tells → KeepsNames (C.tree self.old.changes) (C.tree self.new.changes) }
    {
        let mut written = self.take_written(path)?;
        let answer = self.changes.append(&mut written.kept.file, bytes);
        let noted = note_said(&mut written.said, path, bytes);
        self.written = Some(written);
        answer?;
        Ok(noted?)
    }

    // Syncs a file's contents.
    pub(crate) fn sync_contents(&mut self, path: &str) -> io::Result<()>
        ensures written { IfOk result (λ _. IsTrue C.tells → C.written self.new.changes path.now ≡ false) }
        ensures names { IfOk result (λ _. IsTrue C.tells → C.tree self.new.changes ≡ C.tree self.old.changes) }
    {
        self.changes.require_sure()?;
        let written = self.take_written(path)?;
        let answer = self.changes.sync_bytes(path, &written.kept.file);
        self.written = Some(written);
        answer
    }

    // The temporary file that is written, with its lock.
    pub(super) fn take_written(&mut self, path: &str) -> io::Result<Written<C>>
        ensures still { self.new.changes ≡ self.old.changes }
        ensures looks { self.new.looks ≡ self.old.looks }
        ensures at { IfOk result (λ written. string_bytes written.kept.path ≡ path.now) }
        ensures own { IfOk result (λ taken. IfSome self.old.written (λ written.
            string_bytes written.kept.path ≡ path.now → taken ≡ written)) }
    {
        match self.written.take() {
            Some(written) if written.kept.is_at(path) => Ok(written),
            _ => self.open_written(path),
        }
    }

    fn open_written(&self, path: &str) -> io::Result<Written<C>>
        ensures at { IfOk result (λ written. string_bytes written.kept.path ≡ path.now) }
        ensures file { IfOk result (λ written. IsTrue C.tells
            → IsFileAt (C.tree self.now.changes) path.now (C.inode written.kept.file)) }
    {
        let kept = copy_path(self.alloc, path)?;
        let (file, found) = open_locked(self.changes.calls(), path, Access::Append)?;
        Ok(Written {
            kept: KeptFile {
                path: kept,
                file,
                is_made: false,
                goes_again: false,
            },
            made: None,
            is_fat: found.is_fat_file(),
            said: Vec::new(self.alloc),
        })
    }
}

// What is written to an intent's temporary file is kept.
fn note_said(said: &mut Vec<u8>, path: &str, bytes: &[u8]) -> Result<(), AllocError> {
    if path.strip_suffix(TEMP_SUFFIX) == Some(INTENT) {
        said.extend_from_slice(bytes)?;
    }
    Ok(())
}
