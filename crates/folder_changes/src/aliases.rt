//! Paths that lead to a file by its short alias, though its folder lists it by its own name.
ghost use Rattle.std.specs.Prelude.{◌≡◌, IfOk, IsTrue, false, true};
ghost use Rattle.folder_changes.specs.Shown.{is_shown};

use crate::twins::has_name;
use fat_rules::can_be_alias_of;
use folder_calls::{Calls, Found, path_in};
use name_syncs::parted;
use std::alloc::Global;
use std::io;

/// The digits that FAT puts behind the tilde of an alias.
const DIGITS: [char; 9] = ['1', '2', '3', '4', '5', '6', '7', '8', '9'];

/// Whether a path leads to a file of FAT by the short alias of another name, by which its folder lists it.
pub fn is_alias_of_listed<C: Calls>(calls: &C, alloc: Global, path: &str) -> io::Result<bool>
    ensures { IfOk result (λ is_alias. IsTrue C.tells → is_alias ≡ true
        → is_shown (C.tree calls.now) path.now ≡ false) }
{
    let Some(found) = calls.find_itself(path)? else {
        return Ok(false);
    };
    let (folder, name) = parted(path);
    let names = calls.names(alloc, folder)?;
    if !found.is_fat_file() || has_name(names.as_slice(), name) {
        return Ok(false);
    }
    has_alias_among(calls, alloc, path, names.as_slice(), &found)
}

// Whether one of the names in the folder of a path is that of the file that the path leads to, and has it as an alias.
fn has_alias_among<C: Calls>(
    calls: &C,
    alloc: Global,
    path: &str,
    names: &[String],
    found: &Found,
) -> io::Result<bool> {
    let (folder, name) = parted(path);
    for listed in names {
        let listed = listed.as_str();
        if can_be_alias_of(alloc, name, listed)?
            && is_found_at(calls, path_in(alloc, folder, listed)?, found)?
        {
            return Ok(true);
        }
    }
    Ok(false)
}

fn is_found_at<C: Calls>(calls: &C, path: String, found: &Found) -> io::Result<bool> {
    match calls.find_itself(path.as_str())? {
        Some(other) => Ok(other.is_same(found)),
        None => Ok(false),
    }
}

/// Another alias of the same form as a path, at which nothing stands: a recovery takes it for one of the same file.
///
/// # Errors
///
/// There is none.
pub fn free_alias<C: Calls>(calls: &C, alloc: Global, path: &str) -> io::Result<String> {
    if let Some((head, tail)) = path.rsplit_once('~') {
        let (_, extension) = tail.rsplit_once('.').unwrap_or((tail, ""));
        for digit in DIGITS {
            let alias = format!(in alloc; "{head}~{digit}.{extension}")?;
            if calls.find_itself(alias.as_str())?.is_none() {
                return Ok(alias);
            }
        }
    }
    Err(io::Error::other("is the short alias of its own file: rename that in two steps"))
}
