//! A list of files, which contracts see as the map from each path to its bytes.
ghost use Rattle.std.specs.Prelude.{◌≡◌, ◌++◌, [], ◌∷◌, true, length, position, bytes_eq, drop, vec_len, vec_capacity, if◌then◌else◌, ◌≤◌, IfOk, OnOk, OnErr, ◌≢◌, List, ℕ, IsTrue, option_map};
ghost use Rattle.std.specs.Prelude.{map as all};
ghost use Rattle.std.specs.FinMap as map;
ghost use Rattle.boot_base.specs.Paths.{under, is_file_name};
ghost use Rattle.boot_machine.specs.Prelude.{contents, has, is_listed, move_in, view, Gave, IsNamesOf, append_to};
ghost use Rattle.memory_machine.specs.Entries.{files_of, pairs_of, pair_of, left_pair, counts_once};
ghost use Rattle.memory_machine.specs.declared.files.Entry.{Entry};
ghost use Rattle.memory_machine.specs.Events.{files_after};
ghost use Rattle.memory_machine.specs.Given.{given_files};
ghost use Rattle.memory_machine.specs.Stops.{IsFilled};

use crate::MemFile;
use crate::event::Event;
use boot_base::{FileName, PathFault, Text, copy_from, ends_as_temp};
use std::alloc::{AllocError, Global};
use std::marker::Model;

#[derive(Drop)]
pub(crate) struct Entry {
    path: Text,
    bytes: Vec<u8>,
}

#[derive(Drop)]
pub(crate) struct FileList {
    entries: Vec<Entry>,
}

impl Model for FileList {
    ghost use Rattle.std.specs.Coded.{coded_ℕ, coded_list};
    ghost use Rattle.std.specs.FinMap as map;
    ghost use Rattle.boot_machine.specs.Prelude.{Files};

    ghost Value = { Files };

    ghost coded = { map.code (coded_list coded_ℕ) (coded_list coded_ℕ) };

    ghost use Rattle.memory_machine.specs.Entries.{pairs_of};

    ghost view = { λ l. map.from_entries (pairs_of l.entries.items) };
}

// The place of the first entry of that path.
fn place(entries: &[Entry], path: &str) -> Option<usize>
    ensures { result ≡ position (λ entry. bytes_eq entry.path path.now) entries.now }
{
    entries.iter().position(|entry| entry.path.as_str() == path)
}

fn is_there(entries: &[Entry], path: &str) -> bool
    ensures { result ≡ has (files_of entries.now) path.now }
{
    place(entries, path).is_some()
}

// Copies bytes from that place on, as a machine gives them.
pub(crate) fn copy_some(bytes: &[u8], at: usize, into: &mut [u8]) -> usize
    ensures { Gave (drop at bytes.now) into.new result }
{
    copy_from(bytes, at, into)
}

// Takes every entry of that path away.
fn drop_all(entries: &mut Vec<Entry>, path: &str)
    ensures gone { files_of entries.new.items ≡ map.remove (files_of entries.old.items) path.now }
    ensures len { vec_len entries.new ≤ vec_len entries.old }
    ensures capacity { vec_capacity entries.new ≡ vec_capacity entries.old }
{
    while let Some(at) = place(entries, path) {
        entries.remove(at);
    }
}

// The name of the file at that path. There is none unless it is directly in the folder.
fn name_in(alloc: Global, folder: &str, path: &str) -> Result<FileName, PathFault>
    ensures name { IfOk result (λ name. (is_file_name name ≡ true) × (path.now ≡ under folder.now name)) }
    ensures none { result ≡ Err PathFault.BadPath
        → (other : List ℕ) → is_file_name other ≡ true → path.now ≢ under folder.now other }
{
    let Some(rest) = path.strip_prefix(folder) else {
        return Err(PathFault::BadPath);
    };
    let Some(name) = rest.strip_prefix('/') else {
        return Err(PathFault::BadPath);
    };
    FileName::read(alloc, name)
}

fn is_among(names: &[FileName], name: &str) -> bool
    ensures { result ≡ is_listed names.now name.now }
{
    names.iter().any(|other| other.as_str() == name)
}

// Adds the name of that entry's file, if it is directly in the folder and isn't among them yet.
fn add_name(
    alloc: Global,
    folder: &str,
    entry: &Entry,
    names: &mut Vec<FileName>,
) -> Result<(), AllocError>
    ensures { OnOk result ((before : List Entry) → IsNamesOf (files_of before) folder.now names.old.items
        → IsNamesOf (files_of (before ++ entry.now ∷ [])) folder.now names.new.items) }
{
    match name_in(alloc, folder, entry.path.as_str()) {
        Ok(name) => {
            if is_among(names, name.as_str()) {
                return Ok(());
            }
            Ok(names.push(name)?)
        }
        Err(PathFault::BadPath) => Ok(()),
        Err(PathFault::Memory) => Err(AllocError),
    }
}

// The names of the entries' files directly in the folder, each once.
fn names_in(alloc: Global, folder: &str, entries: &[Entry]) -> Result<Vec<FileName>, AllocError>
    ensures { IfOk result (λ names. IsNamesOf (files_of entries.now) folder.now names.items) }
{
    let mut names = Vec::new(alloc);
    for entry in entries {
        add_name(alloc, folder, entry, &mut names)?;
    }
    Ok(names)
}

// The entry isn't that of a temporary file, and no later one has its path.
fn counts_once(entry: &Entry, later: &[Entry]) -> bool
    ensures { result ≡ counts_once entry.now later.now }
{
    let path = entry.path.as_str();
    !ends_as_temp(path) && !is_there(later, path)
}

// How many paths of the entries aren't those of temporary files.
fn shown_of(entries: &[Entry]) -> u64
    ensures { result ≡ map.len (view (files_of entries.now)) }
{
    let mut count: u64 = 0;
    for (at, entry) in entries.iter().enumerate() {
        if counts_once(entry, &entries[at + 1..]) {
            count += 1;
        }
    }
    count
}

pub(crate) fn is_listed(paths: &[Text], path: &str) -> bool
    ensures { result ≡ is_listed paths.now path.now }
{
    paths.iter().any(|other| other.as_str() == path)
}

// The entry after a stop: with the fill in place of its bytes, if its path is soft.
fn left_entry(alloc: Global, entry: &Entry, soft: &[Text], fill: &[u8]) -> Result<Entry, AllocError>
    ensures { IfOk result (λ left. pair_of left ≡ left_pair (is_listed soft.now) fill.now entry.now) }
{
    let path = entry.path.as_str();
    if is_listed(soft, path) {
        entry_of(alloc, path, fill)
    } else {
        entry_of(alloc, path, &entry.bytes)
    }
}

fn all_left(
    alloc: Global,
    entries: &[Entry],
    soft: &[Text],
    fill: &[u8],
) -> Result<Vec<Entry>, AllocError>
    ensures { IfOk result (λ left. pairs_of left.items ≡ all (left_pair (is_listed soft.now) fill.now) entries.now) }
{
    let mut left = Vec::new(alloc);
    for entry in entries {
        left.push(left_entry(alloc, entry, soft, fill)?)?;
    }
    Ok(left)
}

// An entry with copies of these.
fn entry_of(alloc: Global, path: &str, bytes: &[u8]) -> Result<Entry, AllocError>
    ensures { IfOk result (λ entry. pair_of entry ≡ (path.now, bytes.now)) }
{
    let path = Text::of(alloc, path)?;
    let bytes = bytes.to_vec(alloc)?;
    Ok(Entry { path, bytes })
}

fn copy_all(alloc: Global, entries: &[Entry]) -> Result<Vec<Entry>, AllocError>
    ensures { IfOk result (λ copies. pairs_of copies.items ≡ pairs_of entries.now) }
{
    let mut copies = Vec::new(alloc);
    for entry in entries {
        copies.push(entry_of(alloc, entry.path.as_str(), &entry.bytes)?)?;
    }
    Ok(copies)
}

impl FileList {
    pub(crate) fn new(alloc: Global) -> FileList
        ensures { result ≡ map.empty }
    {
        FileList {
            entries: Vec::new(alloc),
        }
    }

    pub(crate) fn has(&self, path: &str) -> bool
        ensures { result ≡ has self.now path.now }
    {
        is_there(&self.entries, path)
    }

    pub(crate) fn remove(&mut self, path: &str)
        ensures { self.new ≡ map.remove self.old path.now }
    {
        drop_all(&mut self.entries, path);
    }

    pub(crate) fn read(&self, path: &str, at: usize, into: &mut [u8]) -> usize
        ensures { Gave (drop at (contents self.now path.now)) into.new result }
    {
        let entries = &self.entries;
        match place(entries, path) {
            Some(place) => copy_some(&entries[place].bytes, at, into),
            None => 0,
        }
    }

    pub(crate) fn size(&self, path: &str) -> Option<u64>
        ensures { result ≡ option_map length (map.get self.now path.now) }
    {
        let entries = &self.entries;
        match place(entries, path) {
            Some(at) => Some(entries[at].bytes.len() as u64),
            None => None,
        }
    }

    // The file at `from`, if one is there, stands at `to` after it.
    pub(crate) fn rename(&mut self, from: &str, to: &str) -> Result<(), AllocError>
        ensures ok { OnOk result (self.new ≡
            (if has self.old from.now then move_in from.now to.now self.old else self.old)) }
        ensures err { OnErr result (self.new ≡ self.old) }
    {
        let Some(at) = place(&self.entries, from) else {
            return Ok(());
        };
        let alloc = *self.entries.allocator();
        let path = Text::of(alloc, to)?;
        let bytes = self.entries[at].bytes.to_vec(alloc)?;
        self.entries.reserve(1)?;
        drop_all(&mut self.entries, from);
        drop_all(&mut self.entries, to);
        self.entries.push_reserved(Entry { path, bytes });
        Ok(())
    }

    // The file at `from`, if one is there, stands at `to` too after it.
    pub(crate) fn link(&mut self, from: &str, to: &str) -> Result<(), AllocError>
        ensures { OnOk result
            (self.new ≡ (if has self.old from.now then map.insert self.old to.now (contents self.old from.now)
            else self.old)) }
    {
        let Some(at) = place(&self.entries, from) else {
            return Ok(());
        };
        let alloc = *self.entries.allocator();
        let path = Text::of(alloc, to)?;
        let bytes = self.entries[at].bytes.to_vec(alloc)?;
        self.entries.reserve(1)?;
        drop_all(&mut self.entries, to);
        self.entries.push_reserved(Entry { path, bytes });
        Ok(())
    }

    // An empty file at that path.
    pub(crate) fn create(&mut self, path: &str) -> Result<(), AllocError>
        ensures ok { OnOk result (self.new ≡ map.insert self.old path.now []) }
        ensures err { OnErr result (self.new ≡ self.old) }
    {
        if let Some(at) = place(&self.entries, path) {
            let entry = &mut self.entries[at];
            entry.bytes.clear();
            return Ok(());
        }
        let alloc = *self.entries.allocator();
        let path = Text::of(alloc, path)?;
        let bytes = Vec::new(alloc);
        self.entries.push(Entry { path, bytes })?;
        Ok(())
    }

    // The bytes behind those of the file at that path, if one is there.
    pub(crate) fn append(&mut self, path: &str, bytes: &[u8]) -> Result<(), AllocError>
        ensures ok { OnOk result (self.new ≡ append_to path.now bytes.now self.old) }
        ensures err { OnErr result (self.new ≡ self.old) }
    {
        if let Some(at) = place(&self.entries, path) {
            let entry = &mut self.entries[at];
            entry.bytes.extend_from_slice(bytes)?;
        }
        Ok(())
    }

    // What the event does to the files.
    pub(crate) fn apply(&mut self, event: &Event) -> Result<(), AllocError>
        ensures ok { OnOk result (self.new ≡ files_after event.now self.old) }
        ensures err { OnErr result (self.new ≡ self.old) }
    {
        match event {
            Event::Create(path) => self.create(path.as_str()),
            Event::Append(path, bytes) => self.append(path.as_str(), bytes),
            Event::Rename(from, to) => self.rename(from.as_str(), to.as_str()),
            Event::Unlink(path) => {
                self.remove(path.as_str());
                Ok(())
            }
            Event::Stop(files) => {
                *self = files.copy()?;
                Ok(())
            }
            Event::Look | Event::SyncFile(_) | Event::SyncNames | Event::Print(_) => Ok(()),
        }
    }

    // A copy of the list, with its files.
    pub(crate) fn copy(&self) -> Result<FileList, AllocError>
        ensures { IfOk result (λ copy. copy ≡ self.now) }
    {
        let entries = &self.entries;
        let copies = copy_all(*entries.allocator(), entries)?;
        Ok(FileList { entries: copies })
    }

    // The files after a stop that leaves the soft ones with these bytes.
    pub(crate) fn fill_soft(&self, soft: &[Text], fill: &[u8]) -> Result<FileList, AllocError>
        ensures { IfOk result (λ left. IsFilled (is_listed soft.now) fill.now self.now left) }
    {
        let entries = &self.entries;
        let left = all_left(*entries.allocator(), entries, soft, fill)?;
        Ok(FileList { entries: left })
    }

    // These files.
    pub(crate) fn of(alloc: Global, files: &[MemFile]) -> Result<FileList, AllocError>
        ensures { IfOk result (λ list. list ≡ given_files files.now) }
    {
        let mut entries = Vec::new(alloc);
        for file in files {
            entries.push(entry_of(alloc, file.path.as_str(), &file.bytes)?)?;
        }
        Ok(FileList { entries })
    }

    // The names of the files directly in the folder.
    pub(crate) fn names(&self, alloc: Global, folder: &str) -> Result<Vec<FileName>, AllocError>
        ensures { IfOk result (λ names. IsNamesOf self.now folder.now names.items) }
    {
        names_in(alloc, folder, &self.entries)
    }

    // How many of the paths aren't those of temporary files.
    pub(crate) fn count_shown(&self) -> u64
        ensures { result ≡ map.len (view self.now) }
    {
        shown_of(&self.entries)
    }
}
