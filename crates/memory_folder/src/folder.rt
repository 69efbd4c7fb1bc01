//! The calls on a folder in memory.
ghost use Rattle.std.specs.Prelude.{◌≡◌, ◌≢◌, ◌≤◌, ℕ, List, [], IfOk, None, OnOk, Some, bytes_eq, drop, false, length, option_map, position, true, vec_len};
ghost use Rattle.name_syncs.specs.Named.{NameWaits, NothingWaits, RenameWaits};
ghost use Rattle.folder_calls.specs.Calls.{IsOpenAt, ReadsSome, inode_of};
ghost use Rattle.folder_calls.specs.Rows.{GoneRow, KeepsNamesBut, KeepsNamesButTwo, MadeRow, MovedRow, inode_at};
ghost use Rattle.folder_calls.specs.Tree.{is_file};
ghost use Rattle.memory_folder.specs.Entries.{first_entry_at, found_with};
ghost use Rattle.memory_folder.specs.Folder.{inode_of_file, memory_tree, memory_waits, memory_written};

use crate::entry::{
    Entry, entry_of, found_at, found_of_start, names_in_folder, place_at, place_of,
};
use crate::notes::Notes;
use boot_base::{Text, copy_from};
use folder_calls::{Access, Calls, Found, Hold, Kind, LockFault};
use name_syncs::{FolderFault, folder_of};
use std::alloc::Global;
use std::io;
use std::io::ErrorKind;

/// An open file or folder of a folder in memory. When its name goes, nothing more can be done with it.
#[derive(Drop)]
pub struct MemoryFile {
    inode: u64,
}

/// That an open file or folder was locked. No other run is there to be held up.
#[derive(Drop)]
pub struct MemoryLock {
    inode: u64,
    hold: Hold,
}

/// A folder in memory, with all that is below it. It has no links, and a path leads to what has that very text for its
/// path. After a call that has failed, all is as before, but more may be noted to wait for the disk than does.
#[derive(Drop)]
pub struct MemoryFolder {
    alloc: Global,
    entries: Vec<Entry>,
    /// How many files and folders have come so far.
    count: u64,
    notes: Notes,
}

// Puts bytes from a place on into a buffer, as many as there are and it has room for.
fn copy_some(bytes: &[u8], at: usize, into: &mut [u8]) -> usize
    ensures within { result ≤ length into.new }
    ensures some { ReadsSome (drop at bytes.now) into.new result }
{
    copy_from(bytes, at, into)
}

// Gives an entry another path. What else stood at that one and at its old one goes.
fn move_entry(entries: &mut Vec<Entry>, at: usize, from: &str, to: &str, path: Text)
    requires place { position (λ entry. bytes_eq entry.path from.now) entries.old.items ≡ Some at }
    requires other { from.now ≢ to.now }
    requires path { path ≡ to.now }
    ensures there { option_map (λ entry. entry.inode) (first_entry_at entries.new.items to.now)
        ≡ option_map (λ entry. entry.inode) (first_entry_at entries.old.items from.now) }
    ensures left { first_entry_at entries.new.items from.now ≡ None }
    ensures kept { (other : List ℕ) → other ≢ from.now → other ≢ to.now
        → first_entry_at entries.new.items other ≡ first_entry_at entries.old.items other }
{
    let entry = &mut entries[at];
    let inode = entry.inode;
    entry.path = path;
    entries.retain(|entry| {
        let path = entry.path.as_str();
        path != from && (path != to || entry.inode == inode)
    });
}

impl MemoryFolder {
    /// An empty folder in which nothing waits. It takes no memory.
    pub fn new(alloc: Global) -> Self
        ensures { NothingWaits (memory_waits result) }
    {
        MemoryFolder {
            alloc,
            entries: Vec::new(alloc),
            count: 0,
            notes: Notes::new(alloc),
        }
    }

    /// Puts a file there of which nothing waits.
    pub fn add_file(&mut self, path: &str, bytes: &[u8]) -> io::Result<()>
        ensures waits { memory_waits self.new ≡ memory_waits self.old }
        ensures kept { KeepsNamesBut path.now (memory_tree self.old) (memory_tree self.new) }
        ensures stands { IfOk result (λ _. option_map is_file ((memory_tree self.new).stands path.now) ≡ Some true) }
    {
        let bytes = bytes.to_vec(self.alloc)?;
        self.add(path, Kind::File, bytes)?;
        Ok(())
    }

    /// Puts a folder there of which nothing waits.
    pub fn add_folder(&mut self, path: &str) -> io::Result<()>
        ensures waits { memory_waits self.new ≡ memory_waits self.old }
        ensures kept { KeepsNamesBut path.now (memory_tree self.old) (memory_tree self.new) }
        ensures stands { IfOk result (λ _.
            option_map is_file ((memory_tree self.new).stands path.now) ≡ Some false) }
    {
        let bytes = Vec::new(self.alloc);
        self.add(path, Kind::Folder, bytes)?;
        Ok(())
    }

    // Puts something where nothing stands, and gives its number.
    fn add(&mut self, path: &str, kind: Kind, bytes: Vec<u8>) -> io::Result<u64>
        ensures waits { memory_waits self.new ≡ memory_waits self.old }
        ensures kept { KeepsNamesBut path.now (memory_tree self.old) (memory_tree self.new) }
        ensures row { IfOk result (λ inode. MadeRow (memory_tree self.old) (memory_tree self.new) path.now (1, inode)) }
        ensures stands { IfOk result (λ inode. (memory_tree self.new).stands path.now
            ≡ Some (found_with kind (vec_len bytes) inode)) }
    {
        self.require_new(path)?;
        let Some(inode) = self.count.checked_add(1) else {
            return Err(io::Error::from(ErrorKind::StorageFull));
        };
        let path = Text::of(self.alloc, path)?;
        self.entries.push(Entry {
            path,
            kind,
            bytes,
            inode,
        })?;
        self.count = inode;
        Ok(inode)
    }

    // What stands at a path.
    fn found_at(&self, path: &str) -> Option<Found>
        ensures { result ≡ (memory_tree self.now).stands path.now }
    {
        found_at(&self.entries, path)
    }

    // Whether a folder stands there. At the empty path one does.
    fn has_folder(&self, path: &str) -> bool
        ensures { path.now ≡ [] → result ≡ true }
    {
        match self.found_at(path) {
            Some(found) => found.is_folder(),
            None => false,
        }
    }

    // Whether a file stands there.
    fn has_file(&self, path: &str) -> bool {
        match self.found_at(path) {
            Some(found) => found.is_file(),
            None => false,
        }
    }

    // Nothing stands there, in a folder that is there.
    fn require_new(&self, path: &str) -> io::Result<()>
        ensures { IfOk result (λ _. (memory_tree self.now).stands path.now ≡ None) }
    {
        if self.found_at(path).is_some() {
            return Err(io::Error::from(ErrorKind::AlreadyExists));
        }
        if !self.has_folder(folder_of(path)) {
            return Err(io::Error::from(ErrorKind::NotFound));
        }
        Ok(())
    }

    // Where the entry of a file is that stands at the one path, and can get the other one.
    fn require_move(&self, from: &str, to: &str) -> io::Result<usize>
        ensures named { IfOk result (λ _. (from.now ≢ []) × (to.now ≢ [])) }
        ensures place { IfOk result (λ at. position (λ entry. bytes_eq entry.path from.now) self.now.entries.items ≡ Some at) }
    {
        let Some(at) = place_at(&self.entries, from) else {
            return Err(io::Error::from(ErrorKind::NotFound));
        };
        if self.has_folder(from) || self.has_folder(to) {
            return Err(io::Error::from(ErrorKind::IsADirectory));
        }
        if !self.has_folder(folder_of(to)) {
            return Err(io::Error::from(ErrorKind::NotFound));
        }
        Ok(at)
    }

    // Gives a file another path. What stood there goes.
    fn move_file(&mut self, from: &str, to: &str) -> io::Result<()>
        ensures row { OnOk result (MovedRow (memory_tree self.old) (memory_tree self.new) from.now to.now) }
        ensures kept { KeepsNamesButTwo from.now to.now (memory_tree self.old) (memory_tree self.new) }
        ensures waits { RenameWaits (memory_waits self.old) (memory_waits self.new) from.now to.now }
    {
        let at = self.require_move(from, to)?;
        if from == to {
            return Ok(());
        }
        let path = Text::of(self.alloc, to)?;
        self.notes.note_rename(from, to)?;
        move_entry(&mut self.entries, at, from, to, path);
        Ok(())
    }

    // What isn't a folder goes.
    #[tactic(auto, using(crate::proofs::Gone::gone_there))]
    fn drop_entry(&mut self, path: &str)
        requires { path.now ≢ [] }
        ensures row { GoneRow (memory_tree self.new) path.now }
        ensures kept { KeepsNamesBut path.now (memory_tree self.old) (memory_tree self.new) }
        ensures waits { memory_waits self.new ≡ memory_waits self.old }
    {
        self.entries.retain(|entry| entry.path.as_str() != path);
    }

    // Whether the open file stands at a path.
    fn is_open_at(&self, path: &str, file: &MemoryFile) -> bool
        ensures { IsOpenAt (memory_tree self.now) path.now (inode_of_file file.now) → result ≡ true }
    {
        match self.found_at(path) {
            Some(found) => found.inode == file.inode,
            None => false,
        }
    }
}

impl Calls for MemoryFolder {
    ghost use Rattle.std.specs.Prelude.{false, true};
    ghost use Rattle.memory_folder.specs.Folder.{inode_of_file, memory_tree, memory_waits, memory_written, told_by_lock};

    type File = MemoryFile;

    type Lock = MemoryLock;

    ghost tells = { true };

    ghost tree = { memory_tree };

    ghost waits = { memory_waits };

    ghost written = { memory_written };

    ghost inode = { inode_of_file };

    ghost locks = { told_by_lock };

    ghost doubts = { λ _ _. false };

    fn find(&self, path: &str) -> io::Result<Option<Found>> {
        self.find_itself(path)
    }

    fn find_itself(&self, path: &str) -> io::Result<Option<Found>> {
        Ok(self.found_at(path))
    }

    fn find_open(&self, file: &MemoryFile) -> io::Result<Found> {
        if file.inode == 0 {
            return Ok(found_of_start());
        }
        match entry_of(&self.entries, file.inode) {
            Some(entry) => Ok(entry.found()),
            None => Err(io::Error::from(ErrorKind::NotFound)),
        }
    }

    fn names(&self, alloc: Global, folder: &str) -> io::Result<Vec<String>> {
        Ok(names_in_folder(alloc, &self.entries, folder)?)
    }

    #[tactic(auto, using(crate::proofs::Numbered::on_one_system))]
    fn open(&self, path: &str, access: Access) -> io::Result<MemoryFile> {
        let Some(found) = self.found_at(path) else {
            return Err(io::Error::from(ErrorKind::NotFound));
        };
        if found.is_folder() && access == Access::Append {
            return Err(io::Error::from(ErrorKind::IsADirectory));
        }
        Ok(MemoryFile { inode: found.inode })
    }

    fn open_folder(&self, folder: &str) -> io::Result<Option<MemoryFile>> {
        let Some(found) = self.found_at(folder) else {
            return Ok(None);
        };
        Ok(if found.is_folder() {
            Some(MemoryFile { inode: found.inode })
        } else {
            None
        })
    }

    fn read(&self, file: &MemoryFile, at: u64, into: &mut [u8]) -> io::Result<usize> {
        match entry_of(&self.entries, file.inode) {
            Some(entry) => Ok(copy_some(&entry.bytes, at as usize, into)),
            None => Err(io::Error::from(ErrorKind::NotFound)),
        }
    }

    fn lock(&self, file: &MemoryFile, hold: Hold) -> Result<MemoryLock, LockFault<MemoryLock>> {
        let inode = file.inode;
        Ok(MemoryLock { inode, hold })
    }

    fn create(&mut self, path: &str, _mode: u32) -> io::Result<MemoryFile> {
        self.notes.note_name(path)?;
        let bytes = Vec::new(self.alloc);
        let inode = self.add(path, Kind::File, bytes)?;
        Ok(MemoryFile { inode })
    }

    fn append(&mut self, file: &mut MemoryFile, bytes: &[u8]) -> io::Result<()> {
        let Some(at) = place_of(&self.entries, file.inode) else {
            return Err(io::Error::from(ErrorKind::NotFound));
        };
        let entry = &mut self.entries[at];
        self.notes.note_bytes(entry.path.as_str())?;
        entry.bytes.extend_from_slice(bytes)?;
        Ok(())
    }

    fn set_mode(&mut self, _file: &MemoryFile, _found: &Found, _mode: u32) -> io::Result<bool> {
        Ok(true)
    }

    fn make_folder(&mut self, folder: &str) -> io::Result<()> {
        if self.found_at(folder).is_some() {
            return Ok(());
        }
        self.notes.note_name(folder)?;
        self.add_folder(folder)
    }

    fn rename(&mut self, from: &str, to: &str, _held: Option<&MemoryLock>) -> io::Result<()> {
        self.move_file(from, to)
    }

    fn put(
        &mut self,
        from: &str,
        to: &str,
        _made: &MemoryLock,
        _held: Option<&MemoryLock>,
    ) -> io::Result<()> {
        self.move_file(from, to)
    }

    fn unlink(&mut self, path: &str, _held: Option<&MemoryLock>) -> io::Result<()> {
        let Some(found) = self.found_at(path) else {
            return Err(io::Error::from(ErrorKind::NotFound));
        };
        if path.is_empty() || found.is_folder() {
            return Err(io::Error::from(ErrorKind::IsADirectory));
        }
        self.notes.note_removal(path)?;
        self.drop_entry(path);
        Ok(())
    }

    fn take_back(&mut self, path: &str, _held: &MemoryLock) -> io::Result<()> {
        if path.is_empty() || !self.notes.has_name_in(folder_of(path)) {
            return Err(io::Error::other("no name waits there"));
        }
        self.drop_entry(path);
        Ok(())
    }

    fn sync_file(&mut self, path: &str) -> io::Result<bool> {
        self.notes.sync_file(path);
        Ok(self.has_file(path))
    }

    fn sync_open(&mut self, path: &str, file: &MemoryFile) -> io::Result<()> {
        if self.is_open_at(path, file) {
            self.notes.sync_file(path);
        } else {
            self.notes.ask_file(path);
        }
        Ok(())
    }

    fn sync_folder(&mut self, folder: &str) -> Result<bool, FolderFault<io::Error>> {
        let is_there = self.has_folder(folder);
        self.notes.sync_folder(folder);
        Ok(is_there)
    }

    fn try_folder(&mut self, _folder: &str) {}

    fn try_name(&self, _path: &str) -> io::Result<()> {
        Ok(())
    }

    fn print(&self, _bytes: &[u8]) -> io::Result<()> {
        Ok(())
    }

    fn input(&self, _into: &mut [u8]) -> io::Result<usize> {
        Ok(0)
    }
}
