//! What the next sync of names has to sync: the files that got a new name, the folders that were changed, and the
//! folders that were only looked at.
use crate::folders::{FolderSet, folder_of};
use crate::paths::Paths;
use std::alloc::{AllocError, Global};

/// What was named since the last sync of names that answered Ok.
#[derive(Drop)]
pub struct Named {
    /// The files that got a new name, by it.
    pub renamed: Paths,
    /// The folders in which a name has changed, and those above them.
    pub changed: FolderSet,
    /// Those of them in which this run has changed a name itself.
    pub own: FolderSet,
    /// The folders that were looked at.
    pub seen: FolderSet,
    /// The folders that were there and were synced since the last reply.
    pub settled: FolderSet,
}

impl Named {
    ghost use Rattle.std.specs.Prelude.{◌≡◌, [], false, OnOk};
    ghost use Rattle.name_syncs.specs.Named.{changed_at, looked_again, looked_at, looked_into, looked_into_again, made_at, renamed_to, renamed_with, settled_at};
    ghost use Rattle.name_syncs.specs.Folders.{listed};

    /// Nothing. It takes no memory.
    pub fn new(alloc: Global) -> Self
        ensures renamed { result.renamed ≡ [] }
        ensures changed { listed result.changed ≡ [] }
        ensures own { listed result.own ≡ [] }
        ensures seen { listed result.seen ≡ [] }
        ensures settled { listed result.settled ≡ [] }
    {
        Named {
            renamed: Paths::new(alloc),
            changed: FolderSet::new(alloc),
            own: FolderSet::new(alloc),
            seen: FolderSet::new(alloc),
            settled: FolderSet::new(alloc),
        }
    }

    /// A file was looked at: a name above it that another process changed is synced too. Each folder that was seen came
    /// with those above it.
    pub fn look_at(&mut self, path: &str) -> Result<(), AllocError>
        ensures noted { OnOk result (self.new ≡ looked_at self.old path.now) }
        ensures rest { self.new ≡ record self.old { seen = self.new.seen } }
    {
        if self.seen.has(folder_of(path)) {
            return Ok(());
        }
        self.seen.add_above(path)
    }

    /// A file was looked at again, and is as it was before the last sync of names.
    pub fn look_again(&mut self, path: &str) -> Result<(), AllocError>
        ensures noted { OnOk result (self.new ≡ looked_again self.old path.now) }
        ensures rest { self.new ≡ record self.old { seen = self.new.seen } }
    {
        if self.settled.has(folder_of(path)) {
            return Ok(());
        }
        self.look_at(path)
    }

    /// The names of a folder were looked at.
    pub fn look_into(&mut self, folder: &str) -> Result<(), AllocError>
        ensures noted { OnOk result (self.new ≡ looked_into self.old folder.now) }
        ensures rest { self.new ≡ record self.old { seen = self.new.seen } }
    {
        self.seen.add(folder)?;
        self.seen.add_above(folder)
    }

    /// The names of a folder were looked at again, and are as they were before the last sync of names.
    pub fn look_into_again(&mut self, folder: &str) -> Result<(), AllocError>
        ensures noted { OnOk result (self.new ≡ looked_into_again self.old folder.now) }
        ensures rest { self.new ≡ record self.old { seen = self.new.seen } }
    {
        if self.settled.has(folder) {
            return Ok(());
        }
        self.look_into(folder)
    }

    /// A folder is made.
    pub fn make(&mut self, folder: &str) -> Result<(), AllocError>
        ensures { OnOk result (self.new ≡ made_at self.old folder.now) }
    {
        self.own.add(folder_of(folder))?;
        self.changed.add(folder_of(folder))
    }

    /// A file gets a new name. The folder in which that name comes is synced before the one in which the old one goes. The
    /// folders above these two that were synced since the last reply need no second sync.
    pub fn rename(&mut self, from: &str, to: &str) -> Result<(), AllocError>
        ensures { OnOk result (self.new ≡ renamed_to self.old from.now to.now) }
    {
        self.own_rename(from, to)?;
        self.changed.add_unsettled(to, &self.settled)?;
        self.changed.add_unsettled(from, &self.settled)
    }

    // The file at its new name, and the two folders in which a name changes.
    fn own_rename(&mut self, from: &str, to: &str) -> Result<(), AllocError>
        ensures { OnOk result (self.new ≡ renamed_with self.old from.now to.now []) }
    {
        self.renamed.add(to)?;
        self.own.add(folder_of(to))?;
        self.own.add(folder_of(from))
    }

    /// A file comes or goes. The folders above its own that were synced since the last reply need no second sync.
    pub fn change(&mut self, path: &str) -> Result<(), AllocError>
        ensures { OnOk result (self.new ≡ changed_at self.old path.now) }
    {
        self.own.add(folder_of(path))?;
        self.changed.add_unsettled(path, &self.settled)
    }

    /// A file that got a new name was synced by it, and needs no second sync.
    pub fn settle_file(&mut self, path: &str)
        ensures { self.new ≡ settled_at self.old path.now }
    {
        self.renamed.remove(path);
    }

    /// All of it is synced.
    pub fn clear(&mut self)
        ensures renamed { self.new.renamed ≡ [] }
        ensures changed { listed self.new.changed ≡ [] }
        ensures own { listed self.new.own ≡ [] }
        ensures seen { listed self.new.seen ≡ [] }
        ensures settled { self.new.settled ≡ self.old.settled }
    {
        self.renamed.clear();
        self.changed.clear();
        self.own.clear();
        self.seen.clear();
    }

    /// Something was printed: a reply ends here, and the next command relies on no sync before it.
    pub fn end_reply(&mut self)
        ensures settled { listed self.new.settled ≡ [] }
        ensures rest { self.new ≡ record self.old { settled = self.new.settled } }
    {
        self.settled.clear();
    }
}
