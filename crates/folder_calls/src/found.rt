//! What the system tells of a file or a folder.
ghost use Rattle.std.specs.Prelude.{◌≡◌};
ghost use Rattle.folder_calls.specs.Tree.{is_fat_file, is_fat_folder, is_file, is_folder, is_link, same_inode};

use fat_rules::Facts;

/// What stands at a path.
#[derive(Clone, Copy, Debug, PartialEq, Eq)]
pub enum Kind {
    /// A regular file.
    File,
    Folder,
    Link,
    /// A device, a pipe or a socket.
    Other,
}

/// What the system tells of a file or a folder.
#[derive(Clone, Copy, Debug)]
pub struct Found {
    pub kind: Kind,
    /// Its length in bytes, its time as FAT keeps it, and how many hard links it has.
    pub facts: Facts,
    /// When it was changed last, in seconds since the start of 1970.
    pub seconds: i64,
    /// What that leaves out, in billionths of a second.
    pub nanoseconds: i64,
    /// The number of its file system.
    pub device: u64,
    /// Its number there.
    pub inode: u64,
    /// Who may read, write and run it, in the nine bits of a mode.
    pub mode: u32,
}

impl Found {
    /// Whether it is a regular file.
    pub fn is_file(&self) -> bool
        ensures { result ≡ is_file self.now }
    {
        match self.kind {
            Kind::File => true,
            _ => false,
        }
    }

    /// Whether it is a folder.
    pub fn is_folder(&self) -> bool
        ensures { result ≡ is_folder self.now }
    {
        match self.kind {
            Kind::Folder => true,
            _ => false,
        }
    }

    /// Whether it is a link.
    pub fn is_link(&self) -> bool
        ensures { result ≡ is_link self.now }
    {
        match self.kind {
            Kind::Link => true,
            _ => false,
        }
    }

    /// Whether it is a regular file that may stand on FAT: its time is one that FAT can keep.
    pub fn is_fat_file(&self) -> bool
        ensures { result ≡ is_fat_file self.now }
    {
        self.is_file() && self.facts.time.is_some()
    }

    /// Whether it is a folder that may be of FAT: its time is one that FAT can keep.
    pub fn is_fat_folder(&self) -> bool
        ensures { result ≡ is_fat_folder self.now }
    {
        self.is_folder() && self.facts.time.is_some()
    }

    /// Whether both are one file: by its number, and that of its file system.
    pub fn is_same(&self, other: &Found) -> bool
        ensures { result ≡ same_inode self.now other.now }
    {
        self.device == other.device && self.inode == other.inode
    }
}
