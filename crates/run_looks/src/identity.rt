//! What is found at a path and in a folder.
ghost use Rattle.std.specs.Prelude.{◌≡◌, ◌↔◌, IsTrue};

use crate::names::LastingNames;

/// What tells a file from another one, and from itself after a change.
#[derive(Clone, Copy, Debug, PartialEq, Eq)]
pub struct Identity {
    pub device: u64,
    pub inode: u64,
    pub length: u64,
    pub seconds: i64,
    pub nanoseconds: i64,
}

/// The file that stood at a path, and after how many replies it was looked at last. None: no regular file was there.
#[derive(Clone, Copy, Debug)]
pub struct Look {
    pub found: Option<Identity>,
    pub reply: u64,
}

/// The names that a folder had, and after how many replies it was listed last.
#[derive(Drop)]
pub struct Listing {
    pub names: LastingNames,
    pub reply: u64,
}

// Whether two looks have found the same.
pub(crate) fn is_same(one: Option<Identity>, other: Option<Identity>) -> bool
    ensures { IsTrue result ↔ (one ≡ other) }
{
    one == other
}
