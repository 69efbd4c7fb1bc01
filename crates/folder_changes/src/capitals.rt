//! Files that a folder of FAT shows in capitals alone.
ghost use Rattle.std.specs.Prelude.{◌≡◌, IfOk, IsTrue, OnOk, Some, false, is_some, string_bytes, true};
ghost use Rattle.folder_calls.specs.Tree.{is_fat_file, is_file};
ghost use Rattle.folder_changes.specs.Files.{found_as};
ghost use Rattle.folder_changes.specs.Shown.{is_shown};
ghost use Rattle.folder_changes.specs.Ways.{HasNoOtherBytes, IsInTheWay};

use crate::aliases::is_alias_of_listed;
use crate::twins::{has_name, is_shown, name_in_capitals, unlisted_fault};
use folder_calls::{Calls, Found, has_same_bytes, path_in};
use name_syncs::parted;
use std::alloc::Global;
use std::io;
use std::io::ErrorKind;

/// A file, and None for what is no regular file and for nothing.
pub fn file_at<C: Calls>(calls: &C, path: &str) -> io::Result<Option<Found>>
    ensures { IfOk result (λ found. IsTrue C.tells → found ≡ found_as is_file ((C.tree calls.now).stands path.now)) }
{
    Ok(if_file(calls.find_itself(path)?))
}

fn if_file(found: Option<Found>) -> Option<Found>
    ensures { result ≡ found_as is_file found }
{
    found.filter(|found| found.is_file())
}

/// A file at a path, if it may stand on FAT.
pub fn fat_file_at<C: Calls>(calls: &C, path: &str) -> io::Result<Option<Found>>
    ensures { IfOk result (λ found. IsTrue C.tells
        → found ≡ found_as is_fat_file ((C.tree calls.now).stands path.now)) }
{
    Ok(if_fat_file(calls.find_itself(path)?))
}

fn if_fat_file(found: Option<Found>) -> Option<Found>
    ensures { result ≡ found_as is_fat_file found }
{
    found.filter(|found| found.is_fat_file())
}

/// What is to go before a file of FAT gets a new name: what the folder lists in capitals of that, since FAT would hand
/// that spelling on, or refuse the new one. It gives the path by which that is listed.
///
/// # Errors
///
/// It has bytes of its own: then it is somebody's own file. Or what was found at the new path is listed under another name.
pub fn path_in_the_way<C: Calls>(
    calls: &C,
    alloc: Global,
    from: &str,
    to: &str,
    replaced: Option<Found>,
) -> io::Result<Option<String>>
    ensures { IfOk result (λ way. IsTrue C.tells → IsInTheWay (C.tree calls.now) from.now to.now way) }
{
    let (folder, name) = parted(to);
    let names = calls.names(alloc, folder)?;
    if has_name(names.as_slice(), name) {
        return Ok(None);
    }
    match name_in_capitals(alloc, names.as_slice(), name)? {
        Some(shown) => way_at(calls, from, path_in(alloc, folder, shown)?),
        None if if_fat_file(replaced).is_some() => Err(unlisted_fault(calls, alloc, &names, to)?),
        None => Ok(None),
    }
}

// A file that is to go. It has no bytes, or those of the file that gets its name, as a cut leaves it.
fn way_at<C: Calls>(calls: &C, from: &str, way: String) -> io::Result<Option<String>>
    ensures way { IfOk result (λ kept. kept ≡ Some way) }
    ensures bytes { OnOk result (IsTrue C.tells → HasNoOtherBytes (C.tree calls.now) from.now (string_bytes way)) }
{
    if has_no_other_bytes(calls, from, way.as_str())? {
        return Ok(Some(way));
    }
    Err(io::Error::other("is there in capitals: rename that in two steps, by way of another name"))
}

fn has_no_other_bytes<C: Calls>(calls: &C, from: &str, way: &str) -> io::Result<bool>
    ensures { IfOk result (λ has_none. IsTrue C.tells → has_none ≡ true
        → HasNoOtherBytes (C.tree calls.now) from.now way.now) }
{
    match (file_at(calls, way)?, file_at(calls, from)?) {
        (Some(found), _) if found.facts.length == 0 => Ok(true),
        (Some(found), Some(moved)) => has_same_bytes(calls, way, &found, from, &moved),
        _ => Ok(false),
    }
}

/// A file that has just got its name is shown as it is spelled.
pub fn require_spelled<C: Calls>(calls: &C, alloc: Global, path: &str) -> io::Result<()>
    ensures { IfOk result (λ _. IsTrue C.tells
        → is_some (found_as is_fat_file ((C.tree calls.now).stands path.now)) ≡ true
        → is_shown (C.tree calls.now) path.now ≡ true) }
{
    if fat_file_at(calls, path)?.is_some() && !is_shown(calls, alloc, path)? {
        return Err(io::Error::other("has got its name in capitals alone"));
    }
    Ok(())
}

/// Whether a file that was found by a path is shown as the path spells it, and not by another name whose alias that is. In a
/// folder that can't be listed it counts as such.
pub fn is_spelled<C: Calls>(calls: &C, alloc: Global, path: &str) -> io::Result<bool>
    ensures { IfOk result (λ is_spelled. IsTrue C.tells → is_spelled ≡ false
        → is_shown (C.tree calls.now) path.now ≡ false) }
{
    match is_shown(calls, alloc, path) {
        Ok(is_shown) => Ok(is_shown),
        Err(error) if error.kind() == ErrorKind::PermissionDenied => Ok(true),
        Err(_) if is_alias_of_listed(calls, alloc, path)? => Ok(false),
        Err(error) => Err(error),
    }
}
