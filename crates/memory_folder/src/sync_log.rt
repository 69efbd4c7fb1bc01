//! The syncs that were asked for.
ghost use Rattle.std.specs.Prelude.{◌≡◌, ◌++◌, ◌∷◌, [], OnOk};
ghost use Rattle.memory_folder.specs.Notes.{LogsIn, sync_with, syncs_of};

use boot_base::Text;
use std::alloc::{AllocError, Global};

// What is synced.
#[derive(Clone, Copy)]
pub(crate) enum Synced {
    File,
    Folder,
}

// A sync that was asked for.
#[derive(Drop)]
pub(crate) struct Asked {
    synced: Synced,
    path: Text,
}

// The syncs that were asked for, in their order, as far as there was memory to keep them.
#[derive(Drop)]
pub(crate) struct SyncLog {
    asked: Vec<Asked>,
    /// There was memory to keep each of them.
    is_whole: bool,
}

fn keep(asked: &mut Vec<Asked>, synced: Synced, path: &str) -> Result<(), AllocError>
    ensures { OnOk result
        (syncs_of asked.new.items ≡ syncs_of asked.old.items ++ sync_with synced path.now ∷ []) }
{
    let path = Text::of(*asked.allocator(), path)?;
    asked.push(Asked { synced, path })?;
    Ok(())
}

impl SyncLog {
    // No sync was asked for. It takes no memory.
    pub(crate) fn new(alloc: Global) -> Self {
        SyncLog {
            asked: Vec::new(alloc),
            is_whole: true,
        }
    }

    // Keeps a sync behind the others, if there is memory for it.
    pub(crate) fn add(&mut self, synced: Synced, path: &str)
        ensures { LogsIn (sync_with synced path.now) self.old self.new }
    {
        if keep(&mut self.asked, synced, path).is_err() {
            self.is_whole = false;
        }
    }
}
