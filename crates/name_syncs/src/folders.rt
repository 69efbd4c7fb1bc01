//! The folders above a path, and sets of folders.
ghost use Rattle.std.specs.Prelude.{◌≡◌, false, [], ◌∷◌, OnOk, OnErr, MatchOption};
ghost use Rattle.std.specs.List.{list_any};
ghost use Rattle.boot_base.specs.Paths.{file_name_of, is_slash};
ghost use Rattle.name_syncs.specs.Folders.{IsCut, folders_above, has_folder, parent_folder, unsettled, unsettled_above, with_folder, with_folders};

use crate::paths::Paths;
use std::alloc::{AllocError, Global};

/// Some folders. The one that the program starts in has no name, and takes no memory.
#[derive(Drop)]
pub struct FolderSet {
    /// Whether the one that the program starts in is among them.
    pub has_root: bool,
    /// The others.
    pub below: Paths,
}

// What a path has before its last slash, and behind it.
fn cut(path: &str) -> Option<(&str, &str)>
    ensures { MatchOption result (list_any is_slash path.now ≡ false)
        (λ parts. IsCut path.now parts.0.now parts.1.now) }
{
    path.rsplit_once('/')
}

/// The folder that a path is in, and the name in it. It takes no memory.
pub fn parted(path: &str) -> (&str, &str)
    ensures folder { result.0.now ≡ parent_folder path.now }
    ensures name { result.1.now ≡ file_name_of path.now }
{
    match path.rsplit_once('/') {
        Some(parts) => parts,
        None => ("", path),
    }
}

/// The folder that a path is in. It takes no memory.
pub fn folder_of(path: &str) -> &str
    ensures { result.now ≡ parent_folder path.now }
{
    let (folder, _) = parted(path);
    folder
}

impl FolderSet {
    /// None. It takes no memory.
    pub fn new(alloc: Global) -> Self
        ensures root { result.has_root ≡ false }
        ensures below { result.below ≡ [] }
    {
        FolderSet {
            has_root: false,
            below: Paths::new(alloc),
        }
    }

    /// Whether a folder is among them.
    pub fn has(&self, folder: &str) -> bool
        ensures { result ≡ has_folder self.now folder.now }
    {
        if folder.is_empty() {
            return self.has_root;
        }
        self.below.has(folder)
    }

    /// Adds a folder.
    pub fn add(&mut self, folder: &str) -> Result<(), AllocError>
        ensures ok { OnOk result (self.new ≡ with_folder self.old folder.now) }
        ensures err { OnErr result (self.new ≡ self.old) }
    {
        if folder.is_empty() {
            self.has_root = true;
            return Ok(());
        }
        self.below.add(folder)
    }

    /// Adds each folder above a path, the nearest first.
    pub fn add_above(&mut self, path: &str) -> Result<(), AllocError>
        ensures { OnOk result (self.new ≡ with_folders self.old (folders_above path.now)) }
    {
        let mut below = path;
        while let Some((folder, _)) = cut(below) {
            self.add(folder)?;
            below = folder;
        }
        self.has_root = true;
        Ok(())
    }

    // Adds the folder of a path, and each above it that isn't settled like the one below it.
    pub(crate) fn add_unsettled(
        &mut self,
        path: &str,
        settled: &FolderSet,
    ) -> Result<(), AllocError>
        ensures { OnOk result (self.new ≡ with_folders self.old (unsettled settled.now (folders_above path.now))) }
    {
        match cut(path) {
            Some((folder, _)) => {
                self.add(folder)?;
                self.add_unsettled_above(folder, settled)
            }
            None => {
                self.has_root = true;
                Ok(())
            }
        }
    }

    // Adds each folder above one, unless both it and the folder below it are settled.
    fn add_unsettled_above(&mut self, folder: &str, settled: &FolderSet) -> Result<(), AllocError>
        ensures { OnOk result (self.new ≡ with_folders self.old
            (unsettled_above settled.now folder.now (folders_above folder.now))) }
    {
        let mut below = folder;
        while let Some((above, _)) = cut(below) {
            self.add_unless_settled(below, above, settled)?;
            below = above;
        }
        self.add_unless_settled(below, "", settled)
    }

    // Adds a folder above another one, unless both are settled.
    fn add_unless_settled(
        &mut self,
        below: &str,
        folder: &str,
        settled: &FolderSet,
    ) -> Result<(), AllocError>
        ensures { OnOk result (self.new ≡ with_folders self.old
            (unsettled_above settled.now below.now (folder.now ∷ []))) }
    {
        if settled.has(below) && settled.has(folder) {
            return Ok(());
        }
        self.add(folder)
    }

    /// Leaves none of them.
    pub fn clear(&mut self)
        ensures root { self.new.has_root ≡ false }
        ensures below { self.new.below ≡ [] }
    {
        self.has_root = false;
        self.below.clear();
    }
}
