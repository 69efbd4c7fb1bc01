//! What waits for the disk.
ghost use Rattle.std.specs.Prelude.{◌≡◌, ◌∷◌, [], false};
ghost use Rattle.name_syncs.specs.Named.{NameWaits, NothingWaits, RenameWaits};
ghost use Rattle.name_syncs.specs.Paths.{has_path};
ghost use Rattle.name_syncs.specs.Waiting.{Asks, FileAt, FolderAt};
ghost use Rattle.memory_folder.specs.Notes.{noted_waits};

use crate::path_set::PathSet;
use crate::sync_log::{SyncLog, Synced};
use name_syncs::folder_of;
use std::alloc::{AllocError, Global};

// What waits for the disk. After want of memory for a note more may be noted than waits.
#[derive(Drop)]
pub(crate) struct Notes {
    /// The files that have got their names since they were synced last.
    files: PathSet,
    /// The folders in which names have come or gone.
    folders: PathSet,
    /// The files with bytes that weren't synced.
    written: PathSet,
    log: SyncLog,
}

impl Notes {
    // Nothing waits. It takes no memory.
    pub(crate) fn new(alloc: Global) -> Self
        ensures { NothingWaits (noted_waits result) }
    {
        Notes {
            files: PathSet::new(alloc),
            folders: PathSet::new(alloc),
            written: PathSet::new(alloc),
            log: SyncLog::new(alloc),
        }
    }

    // Whether names have come or gone in a folder.
    pub(crate) fn has_name_in(&self, folder: &str) -> bool {
        self.folders.has(folder)
    }

    // The name of a path comes or goes.
    pub(crate) fn note_name(&mut self, path: &str) -> Result<(), AllocError>
        ensures { NameWaits (noted_waits self.old) (noted_waits self.new) path.now }
    {
        self.folders.add(folder_of(path))
    }

    // The name of a path goes, and with it what is noted of its file.
    pub(crate) fn note_removal(&mut self, path: &str) -> Result<(), AllocError>
        ensures { NameWaits (noted_waits self.old) (noted_waits self.new) path.now }
    {
        self.folders.add(folder_of(path))?;
        self.files.remove(path);
        self.written.remove(path);
        Ok(())
    }

    // A file gets another path. Its bytes wait there if they have waited.
    pub(crate) fn note_rename(&mut self, from: &str, to: &str) -> Result<(), AllocError>
        ensures { RenameWaits (noted_waits self.old) (noted_waits self.new) from.now to.now }
    {
        self.files.add(to)?;
        self.folders.add(folder_of(to))?;
        self.folders.add(folder_of(from))?;
        self.move_written(from, to)?;
        self.files.remove(from);
        Ok(())
    }

    // What waits of the bytes at a path waits at another one.
    fn move_written(&mut self, from: &str, to: &str) -> Result<(), AllocError>
        ensures files { self.new.files ≡ self.old.files }
        ensures folders { self.new.folders ≡ self.old.folders }
    {
        if self.written.has(from) {
            self.written.add(to)?;
        } else {
            self.written.remove(to);
        }
        self.written.remove(from);
        Ok(())
    }

    // Bytes of the file at a path wait.
    pub(crate) fn note_bytes(&mut self, path: &str) -> Result<(), AllocError>
        ensures { noted_waits self.new ≡ noted_waits self.old }
    {
        self.written.add(path)
    }

    // A sync of the file at a path is asked for, and what waits of it is another one.
    pub(crate) fn ask_file(&mut self, path: &str)
        ensures { Asks (FileAt path.now ∷ []) (noted_waits self.old) (noted_waits self.new) }
    {
        self.log.add(Synced::File, path);
    }

    // The file at a path is synced.
    pub(crate) fn sync_file(&mut self, path: &str)
        ensures asks { Asks (FileAt path.now ∷ []) (noted_waits self.old) (noted_waits self.new) }
        ensures name { has_path self.new.files path.now ≡ false }
        ensures bytes { has_path self.new.written path.now ≡ false }
    {
        self.log.add(Synced::File, path);
        self.files.remove(path);
        self.written.remove(path);
    }

    // A folder is synced.
    pub(crate) fn sync_folder(&mut self, folder: &str)
        ensures asks { Asks (FolderAt folder.now ∷ []) (noted_waits self.old) (noted_waits self.new) }
        ensures synced { has_path self.new.folders folder.now ≡ false }
    {
        self.log.add(Synced::Folder, folder);
        self.folders.remove(folder);
    }
}
