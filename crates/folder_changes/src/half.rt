//! What a power cut leaves of a rename on FAT, by the names of its intent, and how its bytes are saved.
//!
//! A check of the file system empties one of two names that stand over the same clusters. So bytes are never freed
//! while two names may have them, and afterwards they are kept under the name that has them.
ghost use Rattle.std.specs.Prelude.{◌≡◌, IfOk, IsTrue, None, OnOk, Some, false, is_some, string_bytes, true};
ghost use Rattle.std.specs.IoError.{error_kind};
ghost use Rattle.std.specs.declared.io.ErrorKind.TheVariants.{Other};
ghost use Rattle.std.specs.Option.{option_map, option_map_or};
ghost use Rattle.name_syncs.specs.Folders.{parent_folder};
ghost use Rattle.fat_rules.specs.Recovery.{removal_of};
ghost use Rattle.folder_calls.specs.Calls.{has_same_bytes, share_clusters};
ghost use Rattle.folder_calls.specs.Tree.{is_fat_file, is_fat_folder, is_file, is_folder};
ghost use Rattle.folder_changes.specs.Files.{facts_there, found_as};
ghost use Rattle.folder_changes.specs.Rescues.{HasFolderOffFat, HaveBytes, IsRescueBy, IsSaved, NeedsNoRescue, parts_of_rescue};
ghost use Rattle.folder_changes.specs.Shown.{StandsListed, is_shown};

use crate::capitals::{fat_file_at, file_at};
use crate::twins::{is_shown, shared_fault, spelling_at};
use boot_base::IntentNames;
pub use fat_rules::Removal;
use fat_rules::{Facts, Step, can_be_alias_of, may_share, removal_of, step_of_none, step_of_one};
use folder_calls::{Calls, Found, copy_path, has_same_bytes, path_in};
use name_syncs::{folder_of, parted};
use std::alloc::Global;
use std::io;
use std::io::ErrorKind;

/// How the old name goes. On FAT the new one must be listed: after a failed sync the system finds it by its path, though the
/// disk hasn't got it. And the two have no clusters in common.
pub fn removal_of_old<C: Calls>(
    calls: &C,
    alloc: Global,
    names: &IntentNames,
) -> io::Result<Removal>
    ensures removal { IfOk result (λ removal. IsTrue C.tells → removal ≡ removal_of
        (facts_there (C.tree calls.now) names.now.from) (facts_there (C.tree calls.now) names.now.to)) }
    ensures listed { OnOk result (IsTrue C.tells
        → is_some (found_as is_fat_file ((C.tree calls.now).stands names.now.from)) ≡ true
        → StandsListed (C.tree calls.now) names.now.to) }
    ensures apart { OnOk result (IsTrue C.tells → share_clusters (C.tree calls.now)
        (found_as is_file ((C.tree calls.now).stands names.now.from))
        (found_as is_file ((C.tree calls.now).stands names.now.to)) ≡ false) }
{
    let (from, to) = (names.from.as_str(), names.to.as_str());
    if fat_file_at(calls, from)?.is_some() {
        require_listed(calls, alloc, to)?;
    }
    let (old, new) = (file_at(calls, from)?, file_at(calls, to)?);
    require_apart(calls, from, old, to, new)?;
    Ok(removal_of(facts_of(old), facts_of(new)))
}

fn facts_of(found: Option<Found>) -> Option<Facts>
    ensures { result ≡ option_map (λ found. found.facts) found }
{
    found.map(|found| found.facts)
}

// A file is there, and its folder lists it.
fn require_listed<C: Calls>(calls: &C, alloc: Global, path: &str) -> io::Result<()>
    ensures { OnOk result (IsTrue C.tells → StandsListed (C.tree calls.now) path.now) }
{
    if file_at(calls, path)?.is_none() {
        return Err(io::Error::from(ErrorKind::NotFound));
    }
    spelling_at(calls, alloc, path)?;
    Ok(())
}

// Two files don't stand over the same clusters.
fn require_apart<C: Calls>(
    calls: &C,
    path: &str,
    found: Option<Found>,
    other_path: &str,
    other: Option<Found>,
) -> io::Result<()>
    ensures { OnOk result (IsTrue C.tells → share_clusters (C.tree calls.now) found other ≡ false) }
{
    match (found, other) {
        (Some(found), Some(other)) if may_share(&found.facts, &other.facts) => {
            require_other_bytes(calls, path, &found, other_path, &other)
        }
        _ => Ok(()),
    }
}

fn require_other_bytes<C: Calls>(
    calls: &C,
    path: &str,
    found: &Found,
    other_path: &str,
    other: &Found,
) -> io::Result<()>
    ensures { OnOk result (IsTrue C.tells → has_same_bytes (C.tree calls.now) found.now other.now ≡ false) }
{
    if has_same_bytes(calls, path, found, other_path, other)? {
        return Err(shared_fault());
    }
    Ok(())
}

/// A file that is found by another name than its own, or shown by its alias alone.
#[derive(Drop)]
pub struct Rescue {
    /// where it is found
    pub path: String,
    /// where it goes first, if it is found by its own name but shown by another
    pub by: Option<String>,
    /// its own name
    pub name: String,
}

impl Rescue {
    fn of(alloc: Global, path: &str, by: Option<&str>, name: &str) -> io::Result<Option<Rescue>>
        ensures { IfOk result (λ rescue. option_map parts_of_rescue rescue
            ≡ Some (path.now, option_map (λ text. text.now) by.entry, name.now)) }
    {
        let by = copy_given(alloc, by)?;
        let (path, name) = (copy_path(alloc, path)?, copy_path(alloc, name)?);
        Ok(Some(Rescue { path, by, name }))
    }
}

fn copy_given(alloc: Global, path: Option<&str>) -> io::Result<Option<String>>
    ensures { IfOk result (λ copy. option_map string_bytes copy ≡ option_map (λ text. text.now) path.entry) }
{
    match path {
        Some(path) => Ok(Some(copy_path(alloc, path)?)),
        None => Ok(None),
    }
}

/// Sees, before the intent goes, that the bytes of the file stand under the one name of it that is left, and are shown by
/// it. If it is not so, it gives the renames that make it so.
pub fn rescue_of<C: Calls>(
    calls: &C,
    alloc: Global,
    names: &IntentNames,
) -> io::Result<Option<Rescue>>
    ensures { IfOk result (λ rescue. rescue ≡ None → IsTrue C.tells
        → IsSaved (C.tree calls.now) names.now.from names.now.to
        (found_as is_file ((C.tree calls.now).stands names.now.from))
        (found_as is_file ((C.tree calls.now).stands names.now.to))) }
{
    let (from, to) = (names.from.as_str(), names.to.as_str());
    match (file_at(calls, from)?, file_at(calls, to)?) {
        (Some(found), Some(other)) if found.is_same(&other) => {
            rescue_at(calls, alloc, from, to, &found)
        }
        (Some(_), Some(_)) => Err(io::Error::other("names two files that are both there")),
        (Some(found), None) => rescue_at(calls, alloc, from, to, &found),
        (None, Some(found)) => rescue_at(calls, alloc, to, from, &found),
        (None, None) => rescue_alias(calls, alloc, from, to),
    }
}

// Gives the renames that save a file of which one name is left. None if its folder shows its bytes by that name, or if
// it isn't on FAT.
fn rescue_at<C: Calls>(
    calls: &C,
    alloc: Global,
    name: &str,
    other: &str,
    found: &Found,
) -> io::Result<Option<Rescue>>
    ensures { IfOk result (λ rescue. rescue ≡ None → IsTrue C.tells
        → NeedsNoRescue (C.tree calls.now) name.now found.now) }
{
    if !found.is_fat_file() {
        return Ok(None);
    }
    let aliases = aliases_of(calls, alloc, name, other)?;
    match step_of_one(&found.facts, aliases.facts.as_slice()) {
        Step::Forget => rescue_hidden(calls, alloc, name, other),
        step => aliases.rescue_by(alloc, step, name),
    }
}

// Gives the renames, to the other name and back, after which a folder shows a file as its path spells it. None if it
// does so already.
fn rescue_hidden<C: Calls>(
    calls: &C,
    alloc: Global,
    name: &str,
    other: &str,
) -> io::Result<Option<Rescue>>
    ensures { IfOk result (λ rescue. rescue ≡ None → IsTrue C.tells → is_shown (C.tree calls.now) name.now ≡ true) }
{
    if is_shown(calls, alloc, name)? {
        return Ok(None);
    }
    Rescue::of(alloc, name, Some(other), name)
}

// Gives the rename of a file's only short alias with bytes to its second name, if neither of its names is there. None
// only if its folder isn't on FAT.
fn rescue_alias<C: Calls>(
    calls: &C,
    alloc: Global,
    from: &str,
    to: &str,
) -> io::Result<Option<Rescue>>
    ensures { IfOk result (λ rescue. rescue ≡ None → IsTrue C.tells
        → HasFolderOffFat (C.tree calls.now) (parent_folder to.now)) }
{
    let folder = calls.find(folder_of(to))?;
    let aliases = aliases_of(calls, alloc, to, from)?;
    let step = step_of_none(
        has_folder(folder),
        has_fat_folder(folder),
        aliases.paths.len(),
    );
    aliases.rescue_by(alloc, step, to)
}

fn has_folder(found: Option<Found>) -> bool
    ensures { result ≡ option_map_or is_folder found false }
{
    found.is_some_and(|found| found.is_folder())
}

fn has_fat_folder(found: Option<Found>) -> bool
    ensures { result ≡ option_map_or is_fat_folder found false }
{
    found.is_some_and(|found| found.is_fat_folder())
}

/// Short aliases that have bytes.
#[derive(Drop)]
struct Aliases {
    paths: Vec<String>,
    facts: Vec<Facts>,
}

impl Aliases {
    // Adds a path, if a file with bytes stands there that may be on FAT.
    fn add<C: Calls>(&mut self, calls: &C, path: String) -> io::Result<()>
        ensures { OnOk result (IsTrue C.tells
            → HaveBytes (C.tree calls.now) self.old → HaveBytes (C.tree calls.now) self.new) }
    {
        let Some(found) = fat_file_at(calls, path.as_str())? else {
            return Ok(());
        };
        if found.facts.length == 0 {
            return Ok(());
        }
        self.facts.push(found.facts)?;
        self.paths.push(path)?;
        Ok(())
    }

    // The rename that a step asks for, to that name.
    fn rescue_by(&self, alloc: Global, step: Step, name: &str) -> io::Result<Option<Rescue>>
        ensures { IfOk result (λ rescue. IsRescueBy step self.now.paths.items name.now rescue) }
    {
        match step {
            Step::Forget => Ok(None),
            Step::TakeAlias { place } => match self.paths.as_slice().get(place) {
                Some(path) => Rescue::of(alloc, path.as_str(), None, name),
                None => Err(lost_fault()),
            },
            Step::AskForBytes => Err(lost_fault()),
            Step::AskForCheck => Err(io::Error::other(
                "names a file of which no name is left: unmount its file system, run fsck.vfat -a, look for an FSCK file with its bytes, and remove it by hand",
            )),
            Step::AskForFolder => Err(io::Error::other(
                "names a file in a folder that isn't there: mount its file system",
            )),
            Step::AskForName => Err(io::Error::other(
                "only short aliases of its file are left: rename one to its second path",
            )),
        }
    }
}

fn lost_fault() -> io::Error
    ensures { error_kind result ≡ Other }
{
    io::Error::other("names a file that has lost its bytes: look for them, and remove it by hand")
}

// The short aliases with bytes that one of two names in one folder can have.
fn aliases_of<C: Calls>(calls: &C, alloc: Global, path: &str, other: &str) -> io::Result<Aliases>
    ensures { IfOk result (λ aliases. IsTrue C.tells → HaveBytes (C.tree calls.now) aliases) }
{
    let (folder, name) = parted(path);
    let (_, other_name) = parted(other);
    let mut aliases = Aliases {
        paths: Vec::new(alloc),
        facts: Vec::new(alloc),
    };
    for alias in calls.names(alloc, folder)? {
        let alias = alias.as_str();
        if can_be_alias_of(alloc, alias, name)? || can_be_alias_of(alloc, alias, other_name)? {
            aliases.add(calls, path_in(alloc, folder, alias)?)?;
        }
    }
    Ok(aliases)
}
