//! The two syncs that the system makes, and what waits for the disk.
ghost use Rattle.std.specs.Prelude.{◌≡◌, [], ◌∷◌, Bool, IfOk, IsTrue, false, true};
ghost use Rattle.name_syncs.specs.Waiting.{Asks, FileAt, SyncRow, Waiting, is_no_failure};

/// Why a folder isn't synced.
#[derive(Drop)]
pub struct FolderFault<F: Drop> {
    /// Whether its file system syncs no folders, as a read-only one.
    pub syncs_none: bool,
    /// Whether this run may not open it, or a file that comes before it.
    pub is_refused: bool,
    pub fault: F,
}

/// Files and folders that can be synced, each at a path below the folder that the program starts in. The folder of no
/// name is that one itself.
pub trait Disk {
    type Fault: Drop;

    /// Disks of this type tell what waits. Of the others no clause says so.
    ghost tells: { Bool };

    /// What waits for the disk, and which syncs were asked for.
    ghost state: { Self → Waiting };

    /// What stands there by its names.
    ghost Names: { Type 0 };

    /// It stays, unless a sync fails: behind that the file may go that has just got its name.
    ghost names: { Self → Names };

    /// Syncs the file at a path, and tells whether one is there.
    fn sync_file(&mut self, path: &str) -> Result<bool, Self::Fault>
        ensures asks { IsTrue tells → Asks (FileAt path.now ∷ []) (state self.old) (state self.new) }
        ensures synced { IfOk result (λ is_there. IsTrue tells → is_there ≡ true
            → (state self.new).files path.now ≡ false) }
        ensures names { IfOk result (λ _. IsTrue tells → names self.new ≡ names self.old) };

    /// Syncs a folder, and tells whether it was there. On FAT it syncs before it what somebody else may have left in it.
    fn sync_folder(&mut self, folder: &str) -> Result<bool, FolderFault<Self::Fault>>
        ensures row { IsTrue tells → SyncRow (state self.old) (state self.new) folder.now result }
        ensures names { IsTrue tells → is_no_failure result ≡ true → names self.new ≡ names self.old };

    /// What is said of a file that this run has renamed, or a folder in which it has changed a name, if it isn't there any
    /// more.
    fn gone(&self) -> Self::Fault;

    /// Tells of a sync that failed, and gives its fault back.
    fn report(&mut self, path: &str, fault: Self::Fault) -> Self::Fault
        ensures asks { IsTrue tells → Asks [] (state self.old) (state self.new) }
        ensures names { IsTrue tells → names self.new ≡ names self.old };
}
