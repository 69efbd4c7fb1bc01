//! What stands in a folder in memory.
ghost use Rattle.std.specs.Prelude.{◌≡◌, ◌<◌, ◌==◌, IfOk, IfSome, bytes_eq, map, option_map, position, string_bytes, vec_len};
ghost use Rattle.memory_folder.specs.Entries.{first_entry_at, first_entry_of, found_at, found_of_entry};
ghost use Rattle.memory_folder.specs.Entries.{found_of_start, found_with, names_in_folder};

use boot_base::Text;
use fat_rules::Facts;
use folder_calls::{Found, Kind};
use name_syncs::parted;
use std::alloc::{AllocError, Global};

// What stands at a path, with a number of its own.
#[derive(Drop)]
pub(crate) struct Entry {
    pub(crate) path: Text,
    pub(crate) kind: Kind,
    pub(crate) bytes: Vec<u8>,
    pub(crate) inode: u64,
}

// What the system tells of something of that kind, length and number.
fn found_with(kind: Kind, length: u64, inode: u64) -> Found
    ensures { result ≡ found_with kind length inode }
{
    let facts = Facts {
        length,
        time: Some(0),
        links: 1,
    };
    Found {
        kind,
        facts,
        seconds: 0,
        nanoseconds: 0,
        device: 1,
        inode,
        mode: 0o644,
    }
}

impl Entry {
    // What the system tells of it.
    pub(crate) fn found(&self) -> Found
        ensures { result ≡ found_of_entry self.now }
    {
        found_with(self.kind, self.bytes.len() as u64, self.inode)
    }
}

// What it tells of the folder that the program starts in.
pub(crate) fn found_of_start() -> Found
    ensures { result ≡ found_of_start }
{
    found_with(Kind::Folder, 0, 0)
}

// The first entry of that path.
fn entry_at<'a>(entries: &'a [Entry], path: &str) -> Option<&'a Entry>
    ensures { option_map (λ entry. entry.now) result ≡ first_entry_at entries.now path.now }
{
    entries.iter().find(|entry| entry.path.as_str() == path)
}

// The first entry of that number.
pub(crate) fn entry_of(entries: &[Entry], inode: u64) -> Option<&Entry>
    ensures first { option_map (λ entry. entry.now) result ≡ first_entry_of entries.now inode }
    ensures number { IfSome result (λ entry. entry.now.inode ≡ inode) }
{
    entries.iter().find(|entry| entry.inode == inode)
}

// Where the first entry of that path is.
pub(crate) fn place_at(entries: &Vec<Entry>, path: &str) -> Option<usize>
    ensures place { result ≡ position (λ entry. bytes_eq entry.path path.now) entries.now.items }
    ensures within { IfSome result (λ place. place < vec_len entries.now) }
{
    entries.iter().position(|entry| entry.path.as_str() == path)
}

// Where the first entry of that number is.
pub(crate) fn place_of(entries: &Vec<Entry>, inode: u64) -> Option<usize>
    ensures place { result ≡ position (λ entry. entry.inode == inode) entries.now.items }
    ensures within { IfSome result (λ place. place < vec_len entries.now) }
{
    entries.iter().position(|entry| entry.inode == inode)
}

// What stands at a path.
pub(crate) fn found_at(entries: &[Entry], path: &str) -> Option<Found>
    ensures { result ≡ found_at entries.now path.now }
{
    if path.is_empty() {
        return Some(found_of_start());
    }
    match entry_at(entries, path) {
        Some(entry) => Some(entry.found()),
        None => None,
    }
}

// The names of the entries in a folder, in their order.
pub(crate) fn names_in_folder(
    alloc: Global,
    entries: &[Entry],
    folder: &str,
) -> Result<Vec<String>, AllocError>
    ensures { IfOk result (λ names. map string_bytes names.items ≡ names_in_folder folder.now entries.now) }
{
    let mut names = Vec::new(alloc);
    for entry in entries {
        let (parent, name) = parted(entry.path.as_str());
        if parent == folder {
            names.push(String::from_str(alloc, name)?)?;
        }
    }
    Ok(names)
}
