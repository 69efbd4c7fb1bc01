//! What tells whether two names may stand over the same clusters.
ghost use Rattle.std.specs.Prelude.{◌≡◌};
ghost use Rattle.fat_rules.specs.Sharing.{fat_time, may_share, same_time};

/// What the system tells of a file.
#[derive(Clone, Copy, Debug, PartialEq, Eq)]
pub struct Facts {
    /// How many bytes it has.
    pub length: u64,
    /// The time of its last change, in units of two seconds; None if that is no time that FAT can keep.
    pub time: Option<u64>,
    /// How many names it has, by the system's count of hard links.
    pub links: u64,
}

/// A time of change in FAT's units of two seconds; None exactly where FAT can't keep it, which takes whole seconds and even
/// ones (Microsoft FAT specification, "Date and Time Formats"). It takes no memory.
pub fn fat_time(seconds: u64, nanoseconds: u64) -> Option<u64>
    ensures { result ≡ fat_time seconds nanoseconds }
{
    if seconds % 2 == 0 && nanoseconds == 0 {
        Some(seconds / 2)
    } else {
        None
    }
}

impl Facts {
    // Whether both have one time, and FAT can keep it.
    pub(crate) fn has_time_of(&self, other: &Facts) -> bool
        ensures { result ≡ same_time self.now.time other.now.time }
    {
        match (self.time, other.time) {
            (Some(time), Some(other_time)) => time == other_time,
            _ => false,
        }
    }
}

/// Whether two names may stand over the same clusters of FAT: both have bytes, one length and one time that FAT can keep.
/// A file with a further hard link isn't on FAT. It takes no memory.
pub fn may_share(one: &Facts, other: &Facts) -> bool
    ensures { result ≡ may_share one.now other.now }
{
    one.length > 0
        && one.length == other.length
        && one.has_time_of(other)
        && one.links == 1
        && other.links == 1
}
