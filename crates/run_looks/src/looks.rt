//! What a run has looked at, and hasn't changed since.
ghost use Rattle.std.specs.Prelude.{◌≡◌, ◌≢◌, ◌↔◌, ◌∷◌, ◌++◌, ◌&&◌, [], false, true, not, OnOk, OnErr, IfErr, IfOk, IsTrue};
ghost use Rattle.std.specs.Option.{option_map_or};
ghost use Rattle.std.specs.FinMap as map;
ghost use Rattle.std.specs.FinSet as set;
ghost use Rattle.boot_base.specs.Paths.{file_name_of, is_temp};
ghost use Rattle.name_syncs.specs.Folders.{parent_folder};
ghost use Rattle.run_looks.specs.Names.{lasting, names_of_list};

use crate::identity::{Identity, Listing, Look, is_same};
use crate::map::PathMap;
use crate::names::LastingNames;
use boot_base::{Text, TextList, ends_as_temp};
use name_syncs::{folder_of, parted};
use std::alloc::{AllocError, Global};

/// Why a look isn't taken.
#[derive(Drop)]
pub enum LookFault {
    /// An earlier look of this run has found something else.
    Changed,
    Memory,
}

impl From<AllocError> for LookFault {
    ghost use Rattle.std.specs.Prelude.{◌≡◌};
    ghost use Rattle.run_looks.specs.declared.looks.LookFault.TheVariants.{Memory};

    ghost from_gives = { λ _ fault. fault ≡ Memory };

    fn from(_: AllocError) -> LookFault {
        LookFault::Memory
    }
}

/// What was looked at in this run, and hasn't been changed by it since.
#[derive(Drop)]
pub struct RunLooks {
    pub alloc: Global,
    /// What stood first at each path.
    pub files: PathMap<Look>,
    /// The paths that were looked at since the last reply.
    pub recent: TextList,
    /// Whether one of them, or a listing, came since all were last found the same.
    pub has_unchecked: bool,
    /// Which names each folder had first.
    pub listings: PathMap<Listing>,
    /// How many replies were given so far.
    pub reply: u64,
}

impl RunLooks {
    ghost use Rattle.run_looks.specs.Looks.{HadNames, IsStarved, after_reply, found_first, has_listed, is_known_file, recent_look, touched_at, with_look, with_names, without_names, without_path};
    ghost use Rattle.run_looks.specs.Recent.{RecentIsWhole};
    ghost use Rattle.run_looks.specs.declared.looks.LookFault.TheVariants.{Changed, Memory};

    /// Nothing. It takes no memory.
    pub fn new(alloc: Global) -> Self
        ensures files { result.files ≡ map.empty }
        ensures recent { result.recent ≡ [] }
        ensures has_unchecked { result.has_unchecked ≡ false }
        ensures listings { result.listings ≡ map.empty }
        ensures reply { result.reply ≡ 0 }
        ensures whole { RecentIsWhole result }
    {
        RunLooks {
            alloc,
            files: PathMap::new(alloc),
            recent: TextList::new(alloc),
            has_unchecked: false,
            listings: PathMap::new(alloc),
            reply: 0,
        }
    }

    /// This stands at a path, or no regular file. It tells whether the path was looked at before.
    ///
    /// # Errors
    ///
    /// An earlier look at the path has found something else, or there is no memory.
    pub fn add(&mut self, path: &str, found: Option<Identity>) -> Result<bool, LookFault>
        ensures known { IfOk result (λ was_known. was_known ≡ map.contains_key self.old.files path.now) }
        ensures same { OnOk result (found_first self.old.files path.now found ≡ found) }
        ensures changed { IfErr result (λ fault. fault ≡ Changed → found_first self.old.files path.now found ≢ found) }
        ensures taken { OnOk result (self.new ≡ with_look self.old path.now found) }
        ensures refused { IfErr result (λ fault. fault ≡ Changed → self.new ≡ with_look self.old path.now found) }
        ensures starved { IfErr result (λ fault. fault ≡ Memory → IsStarved path.now self.old self.new
            × (self.new.files ≡ touched_at self.old.files path.now self.old.reply)) }
    {
        let Some(first) = self.files.touch(path, self.reply) else {
            self.add_first(path, found)?;
            return Ok(false);
        };
        if first.reply != self.reply {
            self.add_recent(path)?;
        }
        if !is_same(first.found, found) {
            return Err(LookFault::Changed);
        }
        Ok(true)
    }

    // The first look at a path.
    fn add_first(&mut self, path: &str, found: Option<Identity>) -> Result<(), AllocError>
        requires { map.get self.old.files path.now ≡ None }
        ensures ok { OnOk result (self.new ≡ with_look self.old path.now found) }
        ensures err { OnErr result (IsStarved path.now self.old self.new × (self.new.files ≡ self.old.files)) }
    {
        self.add_recent(path)?;
        let reply = self.reply;
        self.files.insert(path, Look { found, reply })
    }

    // The first look at a path since the last reply.
    fn add_recent(&mut self, path: &str) -> Result<(), AllocError>
        ensures ok { OnOk result (self.new
            ≡ record self.old { recent = self.old.recent ++ path.now ∷ []; has_unchecked = true }) }
        ensures err { OnErr result (self.new ≡ record self.old { has_unchecked = true }) }
    {
        self.has_unchecked = true;
        let path = Text::of(self.alloc, path)?;
        self.recent.push(path)
    }

    /// A folder has these names. Those of temporary files count for nothing.
    ///
    /// # Errors
    ///
    /// The folder had other names first, or there is no memory.
    pub fn add_names(&mut self, folder: &str, names: Vec<String>) -> Result<(), LookFault>
        ensures same { OnOk result (HadNames self.old folder.now (lasting (names_of_list names.items))) }
        ensures changed { IfErr result (λ fault. fault ≡ Changed
            → ¬ HadNames self.old folder.now (lasting (names_of_list names.items))) }
        ensures taken { OnOk result (self.new ≡ with_names self.old folder.now (lasting (names_of_list names.items))) }
        ensures refused { IfErr result (λ fault. fault ≡ Changed → self.new ≡ self.old) }
        ensures starved { IfErr result (λ fault. fault ≡ Memory
            → self.new ≡ record self.old { has_unchecked = self.new.has_unchecked }) }
    {
        let names = LastingNames::of(self.alloc, names)?;
        if !self.had_names(folder, &names) {
            return Err(LookFault::Changed);
        }
        self.has_unchecked = true;
        let reply = self.reply;
        self.listings.insert(folder, Listing { names, reply })?;
        Ok(())
    }

    // Whether these are the names that a folder had first, if it was listed.
    fn had_names(&self, folder: &str, names: &LastingNames) -> bool
        ensures { IsTrue result ↔ HadNames self.now folder.now names.now }
    {
        match self.listings.get(folder) {
            Some(first) => first.names.is_same(names),
            None => true,
        }
    }

    /// Whether this run has listed a folder.
    pub fn has_names_of(&self, folder: &str) -> bool
        ensures { result ≡ map.contains_key self.now.listings folder.now }
    {
        self.listings.has(folder)
    }

    /// Whether this run has found that name in its folder.
    pub fn has_listed(&self, path: &str) -> bool
        ensures { result ≡ has_listed self.now path.now }
    {
        let (folder, name) = parted(path);
        match self.listings.get(folder) {
            Some(listing) => listing.names.has(name),
            None => false,
        }
    }

    /// Whether a regular file was found at that path since the last reply.
    pub fn is_known_file(&self, path: &str) -> bool
        ensures { result ≡ is_known_file self.now path.now }
    {
        match self.files.get(path) {
            Some(look) => look.reply == self.reply && look.found.is_some(),
            None => false,
        }
    }

    /// What was found first at that path, if it was looked at since the last reply.
    pub fn recent_look(&self, path: &str) -> Option<Look>
        ensures { result ≡ recent_look self.now path.now }
    {
        match self.files.get(path) {
            Some(look) if look.reply == self.reply => Some(*look),
            _ => None,
        }
    }

    /// Whether a file is to be held before a change: it was found since the last reply, and isn't a temporary one.
    pub fn is_to_hold(&self, path: &str) -> bool
        ensures { result ≡ (is_known_file self.now path.now && not (is_temp path.now)) }
    {
        self.is_known_file(path) && !ends_as_temp(path)
    }

    /// This run itself changes what stands at a path, and the names of its folder.
    pub fn forget(&mut self, path: &str)
        ensures { self.new ≡ without_path self.old path.now }
    {
        self.files.remove(path);
        if !ends_as_temp(path) {
            self.forget_name(path);
        }
    }

    /// This run itself changes the names of the folder that a path is in.
    pub fn forget_name(&mut self, path: &str)
        ensures { self.new ≡ without_names self.old (parent_folder path.now) }
    {
        self.listings.remove(folder_of(path));
    }

    /// A reply is given.
    pub fn end_reply(&mut self)
        ensures { self.new ≡ after_reply self.old }
    {
        self.reply = self.reply.saturating_add(1);
        self.recent = TextList::new(self.alloc);
    }

    /// Whether something was looked at since all was last found the same.
    pub fn has_unchecked(&self) -> bool
        ensures { result ≡ self.now.has_unchecked }
    {
        self.has_unchecked
    }
}
