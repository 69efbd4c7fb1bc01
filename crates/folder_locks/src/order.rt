//! The order in which a run takes its locks before a change: folders by their paths, and then files by theirs. All runs
//! take them in the same one.
ghost use Rattle.std.specs.Prelude.{◌≡◌, [], false, OnOk};
ghost use Rattle.folder_locks.specs.Holding.{HoldsMore, TellsNewFolders};

use crate::locks::Locks;
use boot_base::Text;
use folder_calls::{Calls, Hold};
use run_looks::RunLooks;
use std::alloc::{AllocError, Global};
use std::io;

/// Holds the folder of a change in this way, those that were listed alone, and those of payloads that were looked at with
/// others.
pub fn hold_folders<C: Calls>(
    calls: &C,
    alloc: Global,
    looks: &RunLooks,
    locks: &mut Locks<C>,
    own: Option<&str>,
    hold: Hold,
) -> io::Result<()>
    ensures folders { HoldsMore C.tells C.inode locks.old.folders.items locks.new.folders.items }
    ensures files { locks.new.files ≡ locks.old.files }
    ensures new { TellsNewFolders locks.old locks.new }
    ensures payloads { locks.new.payloads ≡ record { has_root = false; below = [] } }
{
    let wanted = folders_to_hold(alloc, looks, locks, own)?;
    for folder in wanted.as_slice() {
        let folder = folder.as_str();
        locks.hold_folder(calls, folder, hold_of(looks, folder, own, hold))?;
    }
    Ok(())
}

// The folders that are to be held, by their paths. One may come twice.
fn folders_to_hold<C: Calls>(
    alloc: Global,
    looks: &RunLooks,
    locks: &mut Locks<C>,
    own: Option<&str>,
) -> Result<Vec<Text>, AllocError>
    ensures { locks.new ≡ record locks.old { payloads = record { has_root = false; below = [] } } }
{
    let mut wanted = Vec::new(alloc);
    let payloads = locks.take_payloads();
    if let Some(own) = own {
        wanted.push(Text::of(alloc, own)?)?;
    }
    for folder in payloads.below.as_slice() {
        wanted.push(Text::of(alloc, folder.as_str())?)?;
    }
    for (folder, _) in looks.listings.iter() {
        wanted.push(Text::of(alloc, folder.as_str())?)?;
    }
    sort(&mut wanted)?;
    Ok(wanted)
}

// How a folder is to be held.
fn hold_of(looks: &RunLooks, folder: &str, own: Option<&str>, hold: Hold) -> Hold {
    if looks.has_names_of(folder) {
        Hold::Alone
    } else if own == Some(folder) {
        hold
    } else {
        Hold::Shared
    }
}

/// Holds the files that go alone, and with others those that were looked at since the last reply.
pub fn hold_files<C: Calls>(
    calls: &C,
    alloc: Global,
    looks: &RunLooks,
    locks: &mut Locks<C>,
    goes: &[&str],
) -> io::Result<()>
    ensures folders { HoldsMore C.tells C.inode locks.old.folders.items locks.new.folders.items }
    ensures files { HoldsMore C.tells C.inode locks.old.files.items locks.new.files.items }
    ensures new { TellsNewFolders locks.old locks.new }
{
    let wanted = files_to_hold(alloc, looks, locks, goes)?;
    for path in wanted.as_slice() {
        hold_wanted(calls, looks, locks, path.as_str(), goes)?;
    }
    Ok(())
}

// The files that are to be held and aren't yet, by their paths. One may come twice.
fn files_to_hold<C: Calls>(
    alloc: Global,
    looks: &RunLooks,
    locks: &Locks<C>,
    goes: &[&str],
) -> Result<Vec<Text>, AllocError> {
    let mut wanted = Vec::new(alloc);
    for path in goes {
        wanted.push(Text::of(alloc, path)?)?;
    }
    for path in looks.recent.as_slice() {
        let path = path.as_str();
        if looks.is_to_hold(path) && !locks.covers(path) {
            wanted.push(Text::of(alloc, path)?)?;
        }
    }
    sort(&mut wanted)?;
    Ok(wanted)
}

// Holds a file alone if it goes, and else with others.
fn hold_wanted<C: Calls>(
    calls: &C,
    looks: &RunLooks,
    locks: &mut Locks<C>,
    path: &str,
    goes: &[&str],
) -> io::Result<()>
    ensures folders { HoldsMore C.tells C.inode locks.old.folders.items locks.new.folders.items }
    ensures files { HoldsMore C.tells C.inode locks.old.files.items locks.new.files.items }
    ensures new { TellsNewFolders locks.old locks.new }
{
    if goes.iter().any(|other| *other == path) {
        return locks.hold_changed(calls, path, looks.recent_look(path));
    }
    locks.hold_read(calls, path)
}

fn sort(paths: &mut Vec<Text>) -> Result<(), AllocError> {
    paths.sort_by(|one, other| one.as_str().cmp(other.as_str()))
}
