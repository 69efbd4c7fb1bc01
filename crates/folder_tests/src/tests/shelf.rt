//! A folder in memory that several runs share, and the locks on what is open. It is one of FAT: each file has a time that
//! FAT can keep, and no two have the same. As on one that is mounted with `iocharset=utf8`, a file is found by its own spelling
//! alone, and another spelling of it can't be made.
ghost use Rattle.std.specs.Prelude.{◌≤◌, length, IfOk};

use boot_base::copy_from;
use fat_rules::Facts;
use folder_calls::{Access, Found, Hold, Kind, LockFault};
use name_syncs::{folder_of, parted};
use std::alloc::{AllocError, Global};
use std::io;
use std::io::ErrorKind;
use std::rc::{Rc, Weak};

/// A file or a folder. It stays when its path goes.
#[derive(Drop)]
struct Node {
    path: Option<String>,
    kind: Kind,
    bytes: Vec<u8>,
    mode: u32,
    time: u64,
    is_listed: bool,
    /// why it can't be synced, if it can't
    sync_fault: Option<ErrorKind>,
}

impl Node {
    fn is_at(&self, path: &str) -> bool {
        self.path.as_ref().is_some_and(|own| own.as_str() == path)
    }

    fn is_below(&self, folder: &str) -> bool {
        let rest = self
            .path
            .as_ref()
            .and_then(|own| own.as_str().strip_prefix(folder));
        rest.is_some_and(|rest| rest.starts_with('/'))
    }
}

/// An open file or folder, with a number of its own.
#[derive(Drop)]
pub(crate) struct OpenFile {
    node: usize,
    number: Rc<u64>,
}

/// The lock of an open file, which goes with it.
#[derive(Drop)]
struct Lock {
    node: usize,
    hold: Hold,
    number: Weak<u64>,
}

/// A file by its path.
#[derive(Drop)]
pub(crate) struct Kept {
    pub(crate) path: String,
    pub(crate) bytes: Vec<u8>,
    pub(crate) mode: u32,
}

/// What stands in the folder and what is locked. The folder itself has the empty path.
#[derive(Drop)]
pub(crate) struct Shelf {
    alloc: Global,
    nodes: Vec<Node>,
    locks: Vec<Lock>,
    /// How often something has come, was changed or was opened.
    clock: u64,
    /// The calls that change, sync or print something, in their order: what each does, and the path if it is given one.
    log: Vec<String>,
    /// Those of them at which a file is open that has gone from its path.
    log_beside_gone: Vec<String>,
}

fn require(holds: bool, kind: ErrorKind) -> io::Result<()> {
    if holds {
        Ok(())
    } else {
        Err(io::Error::from(kind))
    }
}

fn require_no_fault(fault: Option<ErrorKind>) -> io::Result<()> {
    fault.map_or(Ok(()), |kind| Err(io::Error::from(kind)))
}

// Whether an open file has the lock that isn't the one of that number.
fn is_of_other(lock: &Lock, number: u64) -> bool {
    lock.number.upgrade().is_some_and(|other| *other != number)
}

impl Shelf {
    /// An empty folder.
    pub(crate) fn new(alloc: Global) -> Result<Self, AllocError> {
        let mut shelf = Shelf {
            alloc,
            nodes: Vec::new(alloc),
            locks: Vec::new(alloc),
            clock: 0,
            log: Vec::new(alloc),
            log_beside_gone: Vec::new(alloc),
        };
        shelf.put("", Kind::Folder, Vec::new(alloc), 0o755)?;
        Ok(shelf)
    }

    fn tick(&mut self) -> u64 {
        self.clock = self.clock.saturating_add(1);
        self.clock
    }

    fn put(&mut self, path: &str, kind: Kind, bytes: Vec<u8>, mode: u32) -> Result<(), AllocError> {
        let path = String::from_str(self.alloc, path)?;
        let time = self.tick();
        self.nodes.push(Node {
            path: Some(path),
            kind,
            bytes,
            mode,
            time,
            is_listed: true,
            sync_fault: None,
        })?;
        Ok(())
    }

    /// Puts a file there.
    pub(crate) fn put_file(&mut self, path: &str, bytes: Vec<u8>) -> Result<(), AllocError> {
        self.put(path, Kind::File, bytes, 0o644)
    }

    /// The bytes of a file.
    pub(crate) fn bytes_of(&self, alloc: Global, path: &str) -> io::Result<Vec<u8>> {
        match self.node(path) {
            Some(node) => Ok(node.bytes.as_slice().to_vec(alloc)?),
            None => Err(io::Error::from(ErrorKind::NotFound)),
        }
    }

    /// What stands at a path is found there still, but its folder doesn't list it.
    pub(crate) fn hide(&mut self, path: &str) {
        if let Some(place) = self.node_at(path)
            && let Some(node) = self.nodes.get_mut(place)
        {
            node.is_listed = false;
        }
    }

    /// What stands at a path can't be synced from now on.
    pub(crate) fn spoil(&mut self, path: &str, fault: ErrorKind) {
        if let Some(place) = self.node_at(path)
            && let Some(node) = self.nodes.get_mut(place)
        {
            node.sync_fault = Some(fault);
        }
    }

    /// A folder isn't there any more, and nothing that was in it.
    pub(crate) fn take_away(&mut self, folder: &str) {
        for node in &mut self.nodes {
            if node.is_at(folder) || node.is_below(folder) {
                node.path = None;
            }
        }
    }

    /// A call that changes, syncs or prints something goes into the log.
    pub(crate) fn log_call(&mut self, call: &str, path: &str) -> Result<(), AllocError> {
        let line = format!(in self.alloc; "{call} {path}")?;
        if self.holds_gone() {
            self.log_beside_gone.push(line.clone()?)?;
        }
        self.log.push(line)?;
        Ok(())
    }

    // Whether a file is open and locked that has gone from its path.
    fn holds_gone(&self) -> bool {
        self.locks.iter().any(|lock| {
            let node = self.nodes.get(lock.node);
            node.is_some_and(|node| node.path.is_none()) && lock.number.upgrade().is_some()
        })
    }

    /// The log.
    pub(crate) fn log(&self) -> &[String] {
        self.log.as_slice()
    }

    /// The calls of it at which a file was open that had gone from its path.
    pub(crate) fn log_beside_gone(&self) -> &[String] {
        self.log_beside_gone.as_slice()
    }

    /// Gives a file another time of change.
    pub(crate) fn give_time(&mut self, path: &str, time: u64) {
        if let Some(place) = self.node_at(path)
            && let Some(node) = self.nodes.get_mut(place)
        {
            node.time = time;
        }
    }

    // Whether a name that is found by its own spelling alone has letters of the other case of this one.
    fn has_other_case(&self, path: &str) -> bool {
        self.nodes.iter().any(|node| match &node.path {
            Some(own) => own.as_str() != path && own.as_str().eq_ignore_ascii_case(path),
            None => false,
        })
    }

    fn node_at(&self, path: &str) -> Option<usize> {
        self.nodes.iter().position(|node| node.is_at(path))
    }

    fn node(&self, path: &str) -> Option<&Node> {
        self.nodes.iter().find(|node| node.is_at(path))
    }

    fn found(&self, place: usize) -> Option<Found> {
        let node = self.nodes.get(place)?;
        let facts = Facts {
            length: node.bytes.len() as u64,
            time: Some(node.time),
            links: 1,
        };
        Some(Found {
            kind: node.kind,
            facts,
            seconds: 0,
            nanoseconds: 0,
            device: 1,
            inode: place as u64,
            mode: node.mode,
        })
    }

    pub(crate) fn find(&self, path: &str) -> Option<Found> {
        self.found(self.node_at(path)?)
    }

    pub(crate) fn find_open(&self, file: &OpenFile) -> io::Result<Found> {
        self.found(file.node)
            .ok_or(io::Error::from(ErrorKind::NotFound))
    }

    pub(crate) fn has_folder(&self, path: &str) -> bool {
        self.find(path).is_some_and(|found| found.is_folder())
    }

    pub(crate) fn has_file(&self, path: &str) -> bool {
        self.find(path).is_some_and(|found| found.is_file())
    }

    // What stands at a path gets another one, or none.
    fn give_path(&mut self, path: &str, new: Option<String>) {
        if let Some(place) = self.node_at(path)
            && let Some(node) = self.nodes.get_mut(place)
        {
            node.path = new;
        }
    }

    // A name may come or change there: that of no folder, in a folder.
    fn require_room(&self, path: &str) -> io::Result<()> {
        require(self.has_folder(folder_of(path)), ErrorKind::NotFound)?;
        require(!self.has_folder(path), ErrorKind::IsADirectory)
    }

    /// Syncs what is found at a path.
    pub(crate) fn sync(&self, path: &str) -> io::Result<()> {
        match self.node(path) {
            Some(node) => require_no_fault(node.sync_fault),
            None => Err(io::Error::from(ErrorKind::NotFound)),
        }
    }

    pub(crate) fn names(&self, alloc: Global, folder: &str) -> io::Result<Vec<String>> {
        let mut names = Vec::new(alloc);
        for node in &self.nodes {
            if let Some(path) = &node.path {
                let (above, name) = parted(path.as_str());
                if above == folder && !name.is_empty() && node.is_listed {
                    names.push(String::from_str(alloc, name)?)?;
                }
            }
        }
        Ok(names)
    }

    pub(crate) fn open(&mut self, path: &str, access: Access) -> io::Result<OpenFile> {
        let is_allowed = access == Access::Read || !self.has_folder(path);
        require(is_allowed, ErrorKind::IsADirectory)?;
        let number = self.tick();
        match self.node_at(path) {
            Some(node) => Ok(OpenFile {
                node,
                number: Rc::new(self.alloc, number)?,
            }),
            None => Err(io::Error::from(ErrorKind::NotFound)),
        }
    }

    pub(crate) fn read(&self, file: &OpenFile, at: u64, into: &mut [u8]) -> io::Result<usize>
        ensures { IfOk result (λ n. n ≤ length into.new) }
    {
        match self.nodes.get(file.node) {
            Some(node) => Ok(copy_from(&node.bytes, at as usize, into)),
            None => Err(io::Error::from(ErrorKind::NotFound)),
        }
    }

    /// Locks as `flock` does: a lock that the open file has already goes first.
    pub(crate) fn lock(&mut self, file: &OpenFile, hold: Hold) -> Result<(), LockFault<()>> {
        let number = *file.number;
        self.locks.retain(|lock| is_of_other(lock, number));
        for lock in &self.locks {
            if lock.node == file.node && (lock.hold == Hold::Alone || hold == Hold::Alone) {
                return Err(LockFault::Taken);
            }
        }
        match self.keep_lock(file, hold) {
            Ok(()) => Ok(()),
            Err(error) => Err(LockFault::Disk(io::Error::from(error))),
        }
    }

    fn keep_lock(&mut self, file: &OpenFile, hold: Hold) -> Result<(), AllocError> {
        let number = Rc::downgrade(&file.number)?;
        let node = file.node;
        self.locks.push(Lock { node, hold, number })?;
        Ok(())
    }

    pub(crate) fn create(&mut self, path: &str, mode: u32) -> io::Result<OpenFile> {
        require(self.node_at(path).is_none(), ErrorKind::AlreadyExists)?;
        require(!self.has_other_case(path), ErrorKind::AlreadyExists)?;
        self.require_room(path)?;
        self.put(path, Kind::File, Vec::new(self.alloc), mode)?;
        self.open(path, Access::Append)
    }

    pub(crate) fn append(&mut self, file: &OpenFile, bytes: &[u8]) -> io::Result<()> {
        let time = self.tick();
        let Some(node) = self.nodes.get_mut(file.node) else {
            return Err(io::Error::from(ErrorKind::NotFound));
        };
        node.time = time;
        Ok(node.bytes.extend_from_slice(bytes)?)
    }

    pub(crate) fn set_mode(&mut self, file: &OpenFile, mode: u32) {
        if let Some(node) = self.nodes.get_mut(file.node) {
            node.mode = mode;
        }
    }

    pub(crate) fn make_folder(&mut self, path: &str) -> io::Result<()> {
        if self.node_at(path).is_none() {
            self.require_room(path)?;
            self.put(path, Kind::Folder, Vec::new(self.alloc), 0o755)?;
        }
        Ok(())
    }

    pub(crate) fn rename(&mut self, from: &str, to: &str) -> io::Result<()> {
        self.require_room(from)?;
        self.require_room(to)?;
        require(self.node_at(from).is_some(), ErrorKind::NotFound)?;
        require(!self.has_other_case(to), ErrorKind::AlreadyExists)?;
        let path = String::from_str(self.alloc, to)?;
        if from != to {
            self.give_path(to, None);
        }
        self.give_path(from, Some(path));
        Ok(())
    }

    pub(crate) fn unlink(&mut self, path: &str) -> io::Result<()> {
        self.require_room(path)?;
        require(self.node_at(path).is_some(), ErrorKind::NotFound)?;
        self.give_path(path, None);
        Ok(())
    }

    /// All files.
    pub(crate) fn files(&self) -> Result<Vec<Kept>, AllocError> {
        let mut files = Vec::new(self.alloc);
        for node in &self.nodes {
            if let Some(path) = &node.path
                && node.kind == Kind::File
            {
                files.push(Kept {
                    path: path.clone()?,
                    bytes: node.bytes.clone()?,
                    mode: node.mode,
                })?;
            }
        }
        Ok(files)
    }
}
