//! What the system tells of a file, as plain values.
ghost use Rattle.std.specs.Prelude.{◌≡◌, bit_and};
ghost use Rattle.std.specs.Fs.{file_type, metadata_len, metadata_mode};
ghost use Rattle.host_machine.specs.Told.{IsKindOf, signed_fat_time};

use fat_rules::{Facts, fat_time};
use folder_calls::{Found, Kind};
use std::fs::Metadata;
use std::os::unix::fs::{MetadataExt, PermissionsExt};

// The bits of a mode that say who may do what.
const RIGHTS: u32 = 0o777;

pub(crate) fn found_of(metadata: &Metadata) -> Found
    ensures kind { IsKindOf (file_type metadata.now) result.kind }
    ensures length { result.facts.length ≡ metadata_len metadata.now }
    ensures time { result.facts.time ≡ signed_fat_time result.seconds result.nanoseconds }
    ensures rights { result.mode ≡ bit_and (metadata_mode metadata.now) 511 }
{
    let (seconds, nanoseconds) = (metadata.mtime(), metadata.mtime_nsec());
    Found {
        kind: kind_of(metadata),
        facts: Facts {
            length: metadata.len(),
            time: time_of(seconds, nanoseconds),
            links: metadata.nlink(),
        },
        seconds,
        nanoseconds,
        device: metadata.dev(),
        inode: metadata.ino(),
        mode: metadata.permissions().mode() & RIGHTS,
    }
}

fn kind_of(metadata: &Metadata) -> Kind
    ensures { IsKindOf (file_type metadata.now) result }
{
    if metadata.is_file() {
        Kind::File
    } else if metadata.is_dir() {
        Kind::Folder
    } else if metadata.is_symlink() {
        Kind::Link
    } else {
        Kind::Other
    }
}

// A time of change, as FAT keeps it.
fn time_of(seconds: i64, nanoseconds: i64) -> Option<u64>
    ensures { result ≡ signed_fat_time seconds nanoseconds }
{
    let seconds = u64::try_from(seconds).ok()?;
    let nanoseconds = u64::try_from(nanoseconds).ok()?;
    fat_time(seconds, nanoseconds)
}
