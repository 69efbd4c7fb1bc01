//! Files that are compared by their bytes.
ghost use Rattle.std.specs.Prelude.{◌≡◌, ◌+◌, ◌<◌, ◌≤◌, ◌^◌, IfOk, IsTrue, bytes_eq, drop, false, length, take};
ghost use Rattle.std.specs.IoError.{error_kind};
ghost use Rattle.folder_calls.specs.Calls.{has_same_bytes, inode_of, same_start};

use crate::calls::{Access, Calls};
use crate::found::Found;
use crate::reads::read_full;
use std::io;
use std::io::ErrorKind;

/// How many bytes of two files are compared at a time.
const PIECE: usize = 4096;

/// Whether two files, which were found at these paths, have the same bytes. They are compared up to the first difference.
pub fn has_same_bytes<C: Calls>(
    calls: &C,
    path: &str,
    found: &Found,
    other_path: &str,
    other: &Found,
) -> io::Result<bool>
    ensures { IfOk result (λ is. IsTrue C.tells → is ≡ has_same_bytes (C.tree calls.now) found.now other.now) }
{
    let file = open_found(calls, path, found)?;
    let other = open_found(calls, other_path, other)?;
    have_same_start(calls, &file, &other, found.facts.length)
}

// A file, open to read it. It is the one that was found.
fn open_found<C: Calls>(calls: &C, path: &str, found: &Found) -> io::Result<C::File>
    ensures { IfOk result (λ file. IsTrue C.tells → C.inode file ≡ inode_of found.now) }
{
    let file = calls.open(path, Access::Read)?;
    if calls.find_open(&file)?.is_same(found) {
        Ok(file)
    } else {
        Err(changed_fault())
    }
}

// Whether two open files have the same bytes up to a length.
fn have_same_start<C: Calls>(
    calls: &C,
    file: &C::File,
    other: &C::File,
    length: u64,
) -> io::Result<bool>
    ensures { IfOk result (λ is. IsTrue C.tells
        → is ≡ same_start (C.tree calls.now) length (C.inode file.now) (C.inode other.now)) }
{
    let mut at = 0;
    while at < length {
        let count = (length - at).min(PIECE as u64);
        if !is_same_piece(calls, file, other, at, count as usize)? {
            return Ok(false);
        }
        at += count;
    }
    Ok(true)
}

// Whether two open files have the same bytes from a place on, so many of them or as many as there are.
fn is_same_piece<C: Calls>(
    calls: &C,
    file: &C::File,
    other: &C::File,
    at: u64,
    count: usize,
) -> io::Result<bool>
    requires piece { count ≤ 4096 }
    requires end { at + count < 2 ^ 64 }
    ensures { IfOk result (λ is. IsTrue C.tells
        → is ≡ bytes_eq (take count (drop at ((C.tree calls.now).bytes (C.inode file.now))))
        (take count (drop at ((C.tree calls.now).bytes (C.inode other.now))))) }
{
    let (mut piece, mut other_piece) = ([0; PIECE], [0; PIECE]);
    let read = read_full(calls, file, at, &mut piece[..count])?;
    let other_read = read_full(calls, other, at, &mut other_piece[..count])?;
    Ok(&piece[..read] == &other_piece[..other_read])
}

/// What stands at a path isn't what this run holds there.
pub fn changed_fault() -> io::Error
    ensures { error_kind result ≡ ErrorKind.WouldBlock }
{
    io::Error::new(
        ErrorKind::WouldBlock,
        "another run has changed what stands there",
    )
}
