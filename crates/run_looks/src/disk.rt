//! What stands in the folders.
ghost use Rattle.std.specs.Prelude.{◌≡◌, Bool, IfOk, IsTrue};
ghost use Rattle.run_looks.specs.Names.{names_of_list};
ghost use Rattle.run_looks.specs.Standing.{Standing};

use crate::identity::Identity;

/// Why a check isn't Ok.
#[derive(Drop)]
pub enum CheckFault<F: Drop> {
    /// Something isn't what this run has found first. The disk's words for it.
    Changed(F),
    /// The disk has failed.
    Disk(F),
    Memory,
}

/// Files and folders that can be looked at, each at a path below the folder that the program starts in.
pub trait LiveDisk {
    type Fault: Drop;

    /// Disks of this type tell what stands. Of the others no clause says so.
    ghost tells: { Bool };

    /// What stands at each path.
    ghost stands: { Self → Standing };

    /// The regular file at a path, if one is there.
    fn look(&self, path: &str) -> Result<Option<Identity>, Self::Fault>
        ensures { IfOk result (λ found. IsTrue tells → found ≡ (stands self.now).files path.now) };

    /// The names in a folder.
    fn names(&self, folder: &str) -> Result<Vec<String>, Self::Fault>
        ensures { IfOk result (λ names. IsTrue tells
            → names_of_list names.items ≡ (stands self.now).names folder.now) };

    /// Tells that what stands at a path has changed.
    fn changed(&self, path: &str) -> Self::Fault;
}
