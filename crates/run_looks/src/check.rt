//! What was looked at must still be the same.
ghost use Rattle.std.specs.Prelude.{◌≡◌, ◌≤◌, All, IsTrue, List, OnErr, OnOk, false, ℕ};
ghost use Rattle.run_looks.specs.Standing.{AllStand, CheckSays, FileStands, ListingStands, RecentStand};
ghost use Rattle.run_looks.specs.Names.{lasting};

use crate::disk::{CheckFault, LiveDisk};
use crate::identity::{Listing, Look, is_same};
use crate::looks::RunLooks;
use crate::map::PathMap;
use crate::names::LastingNames;
use boot_base::Text;
use std::alloc::Global;

impl RunLooks {
    /// What was looked at since the last reply must still be the same.
    ///
    /// # Errors
    ///
    /// The first look that finds something else ends it, and so does one that fails.
    pub fn require_same<D: LiveDisk>(&mut self, disk: &D) -> Result<(), CheckFault<D::Fault>>
        ensures says { IsTrue D.tells → CheckSays (RecentStand (D.stands disk.now) self.old) result }
        ensures ok { OnOk result (self.new ≡ record self.old { has_unchecked = false }) }
        ensures err { OnErr result (self.new ≡ self.old) }
    {
        self.check_recent(disk)?;
        self.has_unchecked = false;
        Ok(())
    }

    fn check_recent<D: LiveDisk>(&self, disk: &D) -> Result<(), CheckFault<D::Fault>>
        ensures { IsTrue D.tells → CheckSays (RecentStand (D.stands disk.now) self.now) result }
    {
        check_paths(disk, &self.files, self.recent.as_slice())?;
        check_listings(disk, self.alloc, &self.listings, self.reply)
    }

    /// All that was looked at must still be the same.
    ///
    /// # Errors
    ///
    /// The first look that finds something else ends it, and so does one that fails.
    pub fn require_all_same<D: LiveDisk>(&self, disk: &D) -> Result<(), CheckFault<D::Fault>>
        ensures { IsTrue D.tells → CheckSays (AllStand (D.stands disk.now) self.now) result }
    {
        check_files(disk, &self.files)?;
        check_listings(disk, self.alloc, &self.listings, 0)
    }
}

// What these looks have found first at these paths.
fn check_paths<D: LiveDisk>(
    disk: &D,
    files: &PathMap<Look>,
    paths: &[Text],
) -> Result<(), CheckFault<D::Fault>>
    ensures { IsTrue D.tells → CheckSays (All (FileStands (D.stands disk.now) files.now) paths.now) result }
{
    for path in paths {
        check_path(disk, files, path.as_str())?;
    }
    Ok(())
}

fn check_path<D: LiveDisk>(
    disk: &D,
    files: &PathMap<Look>,
    path: &str,
) -> Result<(), CheckFault<D::Fault>>
    ensures { IsTrue D.tells → CheckSays (FileStands (D.stands disk.now) files.now path.now) result }
{
    match files.get(path) {
        Some(first) => check_look(disk, path, first),
        None => Ok(()),
    }
}

// What these looks have found first at each path.
fn check_files<D: LiveDisk>(disk: &D, files: &PathMap<Look>) -> Result<(), CheckFault<D::Fault>>
    ensures { IsTrue D.tells
        → CheckSays ((path : List ℕ) → FileStands (D.stands disk.now) files.now path) result }
{
    for (path, first) in files.iter() {
        check_look(disk, path.as_str(), first)?;
    }
    Ok(())
}

// What a look has found first.
fn check_look<D: LiveDisk>(disk: &D, path: &str, first: &Look) -> Result<(), CheckFault<D::Fault>>
    ensures { IsTrue D.tells → CheckSays ((D.stands disk.now).files path.now ≡ first.now.found) result }
{
    match disk.look(path) {
        Ok(found) if is_same(found, first.found) => Ok(()),
        Ok(_) => Err(CheckFault::Changed(disk.changed(path))),
        Err(fault) => Err(CheckFault::Disk(fault)),
    }
}

// The names that the folders had first that were listed after so many replies.
fn check_listings<D: LiveDisk>(
    disk: &D,
    alloc: Global,
    listings: &PathMap<Listing>,
    reply: u64,
) -> Result<(), CheckFault<D::Fault>>
    ensures { IsTrue D.tells
        → CheckSays ((folder : List ℕ) → ListingStands (D.stands disk.now) listings.now reply folder) result }
{
    for (folder, first) in listings.iter() {
        check_listing(disk, alloc, folder.as_str(), first, reply)?;
    }
    Ok(())
}

// The names that a folder had first, if it was listed after so many replies.
fn check_listing<D: LiveDisk>(
    disk: &D,
    alloc: Global,
    folder: &str,
    first: &Listing,
    reply: u64,
) -> Result<(), CheckFault<D::Fault>>
    ensures { IsTrue D.tells → CheckSays
        (reply ≤ first.now.reply → lasting ((D.stands disk.now).names folder.now) ≡ first.now.names) result }
{
    if first.reply < reply {
        return Ok(());
    }
    check_names(disk, alloc, folder, &first.names)
}

// The names that a folder had first.
fn check_names<D: LiveDisk>(
    disk: &D,
    alloc: Global,
    folder: &str,
    first: &LastingNames,
) -> Result<(), CheckFault<D::Fault>>
    ensures { IsTrue D.tells → CheckSays (lasting ((D.stands disk.now).names folder.now) ≡ first.now) result }
{
    let names = match disk.names(folder) {
        Ok(names) => names,
        Err(fault) => return Err(CheckFault::Disk(fault)),
    };
    let Ok(names) = LastingNames::of(alloc, names) else {
        return Err(CheckFault::Memory);
    };
    if !names.is_same(first) {
        return Err(CheckFault::Changed(disk.changed(folder)));
    }
    Ok(())
}
