//! Files that may have the same clusters on FAT.
//!
//! FAT makes a rename in steps. A power cut between two of them can leave two names over the same clusters: the old one,
//! the new one, or a short alias whose long name isn't on the disk. Who then removes, cuts or replaces the one file frees
//! the clusters of the other. Only a check of the file system parts them. So a file is changed only if its folder shows
//! it as it is spelled, and no other name there may be the same file.
ghost use Rattle.std.specs.Prelude.{◌≡◌, All, IfOk, IfSome, IsTrue, None, Some, false, map, option_map, string_bytes, true};
ghost use Rattle.std.specs.IoError.{error_kind};
ghost use Rattle.boot_base.specs.Paths.{file_name_of};
ghost use Rattle.name_syncs.specs.Folders.{parent_folder};
ghost use Rattle.name_syncs.specs.Paths.{has_path};
ghost use Rattle.fat_rules.specs.Aliases.{IsInCapitals};
ghost use Rattle.folder_changes.specs.Shown.{HasCapitals, HasNoCapitals, IsShownAs, IsShownSo, is_shown};
ghost use Rattle.folder_changes.specs.Sought.{is_twins_name};
ghost use Rattle.folder_calls.specs.Calls.{IsAloneBut, MayGoBut, alone, inode_of, is_twin, looks_alike};

use fat_rules::{is_in_capitals, is_same_in_capitals, may_be_of_one_file, may_share};
use folder_calls::{Calls, Found, Locked, changed_fault, copy_path, has_same_bytes, path_in};
use name_syncs::parted;
use std::alloc::{AllocError, Global};
use std::io;
use std::io::ErrorKind;

/// How a folder shows a file that is there.
#[derive(Clone, Copy, Debug, PartialEq, Eq)]
pub enum Spelling {
    /// As the path spells it.
    AsGiven,
    /// In capitals: FAT has its short alias alone.
    InCapitals,
}

/// Two paths that may be those of one file.
#[derive(Drop)]
pub struct Twins {
    pub path: String,
    pub other: String,
}

/// The file for which a twin is looked for.
#[derive(Drop)]
struct Sought<'a> {
    path: &'a str,
    /// the name that isn't asked
    but: &'a str,
    found: &'a Found,
    is_shown: bool,
}

// If what was found at a path is a file that may stand on FAT, its folder must show it. If another name there may be of
// the same file, that is its twin. One name isn't asked.
pub(crate) fn twins_of<C: Calls>(
    calls: &C,
    alloc: Global,
    path: &str,
    but: &str,
    found: &Found,
) -> io::Result<Option<Twins>>
    ensures { IfOk result (λ twins. twins ≡ None
        → IsTrue C.tells → IsAloneBut (C.tree calls.now) path.now but.now found.now) }
{
    if !found.is_fat_file() {
        return Ok(None);
    }
    match twin_of(calls, alloc, path, but, found)? {
        Some(other) => Ok(Some(Twins {
            path: copy_path(alloc, path)?,
            other,
        })),
        None => Ok(None),
    }
}

// The path of the twin of what was found at a path.
fn twin_of<C: Calls>(
    calls: &C,
    alloc: Global,
    path: &str,
    but: &str,
    found: &Found,
) -> io::Result<Option<String>>
    ensures { IfOk result (λ twin. twin ≡ None
        → IsTrue C.tells → IsAloneBut (C.tree calls.now) path.now but.now found.now) }
{
    let (folder, _) = parted(path);
    let names = calls.names(alloc, folder)?;
    let is_shown = spelling_in(calls, alloc, &names, path)? == Spelling::AsGiven;
    let sought = Sought {
        path,
        but,
        found,
        is_shown,
    };
    twin_among(calls, alloc, &sought, names.as_slice())
}

// The twin among the names of a folder.
fn twin_among<C: Calls>(
    calls: &C,
    alloc: Global,
    sought: &Sought<'_>,
    names: &[String],
) -> io::Result<Option<String>>
    ensures { IfOk result (λ twin. twin ≡ None → IsTrue C.tells
        → All (λ name. is_twins_name (C.tree calls.now) sought.now name ≡ false) (map string_bytes names.now)) }
{
    for other in names {
        if let Some(twin) = twin_by_name(calls, alloc, sought, other.as_str())? {
            return Ok(Some(twin));
        }
    }
    Ok(None)
}

// The twin if it is that name's file. A file that is shown by its alias alone may be any.
fn twin_by_name<C: Calls>(
    calls: &C,
    alloc: Global,
    sought: &Sought<'_>,
    other: &str,
) -> io::Result<Option<String>>
    ensures none { IfOk result (λ twin. twin ≡ None → IsTrue C.tells
        → is_twins_name (C.tree calls.now) sought.now other.now ≡ false) }
    ensures some { IfOk result (λ twin. IfSome twin (λ _. IsTrue C.tells → sought.now.is_shown ≡ true
        → is_twins_name (C.tree calls.now) sought.now other.now ≡ true)) }
{
    let (folder, name) = parted(sought.path);
    if other == sought.but || (sought.is_shown && !may_be_of_one_file(name, other)) {
        return Ok(None);
    }
    let other = path_in(alloc, folder, other)?;
    if is_twin(calls, sought, other.as_str())? {
        Ok(Some(other))
    } else {
        Ok(None)
    }
}

// Whether the file at a path may be the twin. Two files that only look alike differ in their bytes: two names over the
// same clusters always read the same.
fn is_twin<C: Calls>(calls: &C, sought: &Sought<'_>, path: &str) -> io::Result<bool>
    ensures { IfOk result (λ is. IsTrue C.tells
        → is ≡ is_twin (C.tree calls.now) sought.now.found.now ((C.tree calls.now).stands path.now)) }
{
    match calls.find_itself(path)? {
        Some(other) if looks_alike(sought.found, &other) => {
            has_same_bytes(calls, sought.path, sought.found, path, &other)
        }
        _ => Ok(false),
    }
}

// Whether another file looks as if it stood over the same clusters, by what the system tells of it.
fn looks_alike(found: &Found, other: &Found) -> bool
    ensures { result ≡ looks_alike found.now other.now }
{
    other.is_file() && !found.is_same(other) && may_share(&found.facts, &other.facts)
}

// If what stands at a path may go: no twin if it is no regular file, or one that is held alone, and has none. It gives the
// lock on a file. One name isn't asked.
pub(crate) fn leave_of<'a, C: Calls>(
    calls: &C,
    alloc: Global,
    path: &str,
    but: &str,
    held: Option<&'a Locked<C>>,
) -> io::Result<(Option<Twins>, Option<&'a C::Lock>)>
    ensures lock { IfOk result (λ leave. leave.0 ≡ None → IsTrue C.tells
        → MayGoBut (C.tree calls.now) path.now but.now (option_map (λ lock. C.locks lock.now) leave.1)) }
    ensures held { IfOk result (λ leave. leave.0 ≡ None → IsTrue C.tells
        → MayGoBut (C.tree calls.now) path.now but.now
        (option_map (λ file. alone (C.inode file.now)) held.entry)) }
{
    match calls.find_itself(path)? {
        Some(found) if found.is_file() => {
            let lock = require_held(calls, &found, held)?;
            let twins = twins_of(calls, alloc, path, but, &found)?;
            Ok((twins, Some(lock)))
        }
        _ => Ok((None, None)),
    }
}

// A file that goes must be the one that this run holds alone. It gives the lock.
fn require_held<'a, C: Calls>(
    calls: &C,
    found: &Found,
    held: Option<&'a Locked<C>>,
) -> io::Result<&'a C::Lock>
    ensures lock { IfOk result (λ lock. IsTrue C.tells → C.locks lock.now ≡ alone (inode_of found.now)) }
    ensures held { IfOk result (λ _. IsTrue C.tells
        → option_map (λ file. alone (C.inode file.now)) held.entry ≡ Some (alone (inode_of found.now))) }
{
    if let Some(locked) = held
        && let Some(lock) = locked.alone()
        && calls.find_open(locked.file())?.is_same(found)
    {
        return Ok(lock);
    }
    Err(changed_fault())
}

// Two names may be of one file.
pub(crate) fn shared_fault() -> io::Error
    ensures { error_kind result ≡ ErrorKind.Other }
{
    io::Error::other("may be one file under two names: run fsck.vfat -a, then this command again")
}

/// How the folder of a file that is there shows it.
///
/// # Errors
///
/// The folder shows another spelling: it is the name of another file. Or a call has failed.
pub fn spelling_at<C: Calls>(calls: &C, alloc: Global, path: &str) -> io::Result<Spelling>
    ensures { IfOk result (λ spelling. IsTrue C.tells
        → IsShownAs ((C.tree calls.now).names (parent_folder path.now)) (file_name_of path.now) spelling) }
{
    let (folder, _) = parted(path);
    spelling_in(calls, alloc, &calls.names(alloc, folder)?, path)
}

// Whether the folder of a file that is there shows it as the path spells it.
pub(crate) fn is_shown<C: Calls>(calls: &C, alloc: Global, path: &str) -> io::Result<bool>
    ensures { IfOk result (λ shown. IsTrue C.tells → shown ≡ is_shown (C.tree calls.now) path.now) }
{
    match spelling_at(calls, alloc, path)? {
        Spelling::AsGiven => Ok(true),
        Spelling::InCapitals => Ok(false),
    }
}

// How a folder with these names shows the file that was found at a path. It must show it.
fn spelling_in<C: Calls>(
    calls: &C,
    alloc: Global,
    names: &Vec<String>,
    path: &str,
) -> io::Result<Spelling>
    ensures { IfOk result (IsShownAs (map string_bytes names.now.items) (file_name_of path.now)) }
{
    let (_, name) = parted(path);
    match spelling_among(alloc, names.as_slice(), name)? {
        Some(spelling) => Ok(spelling),
        None => Err(unlisted_fault(calls, alloc, names, path)?),
    }
}

// A folder with these names doesn't show the file that was found at a path. It has another spelling; or it has gone
// meanwhile; or after a failed sync the system finds a name that the disk hasn't got.
pub(crate) fn unlisted_fault<C: Calls>(
    calls: &C,
    alloc: Global,
    names: &Vec<String>,
    path: &str,
) -> io::Result<io::Error> {
    let (_, name) = parted(path);
    let words = if is_other_spelling(alloc, names.as_slice(), name)? {
        "is there under another spelling: type that, or rename it in two steps"
    } else if calls.find_itself(path)?.is_some() {
        "isn't listed by its folder: unmount the file system, run fsck.vfat -a, then this command again"
    } else {
        return Ok(changed_fault());
    };
    Ok(io::Error::other(words))
}

// How a folder with these names shows a name, as it is spelled or in capitals. None if it shows it in neither way.
fn spelling_among(
    alloc: Global,
    names: &[String],
    name: &str,
) -> Result<Option<Spelling>, AllocError>
    ensures { IfOk result (IsShownSo (map string_bytes names.now) name.now) }
{
    if has_name(names, name) {
        return Ok(Some(Spelling::AsGiven));
    }
    match name_in_capitals(alloc, names, name)? {
        Some(_) => Ok(Some(Spelling::InCapitals)),
        None => Ok(None),
    }
}

pub(crate) fn has_name(names: &[String], name: &str) -> bool
    ensures { result ≡ has_path (map string_bytes names.now) name.now }
{
    names.iter().any(|other| other.as_str() == name)
}

// The one of the names that is that one in capitals.
pub(crate) fn name_in_capitals<'a>(
    alloc: Global,
    names: &'a [String],
    name: &str,
) -> Result<Option<&'a str>, AllocError>
    ensures none { IfOk result (λ shown. shown ≡ None → HasNoCapitals (map string_bytes names.now) name.now) }
    ensures shown { IfOk result (λ shown. IfSome shown (λ shown. IsInCapitals shown.now name.now)) }
    ensures listed { IfOk result (λ shown. IfSome shown (λ _.
        HasCapitals (map string_bytes names.now) name.now)) }
{
    for other in names {
        let other = other.as_str();
        if is_in_capitals(alloc, other, name)? {
            return Ok(Some(other));
        }
    }
    Ok(None)
}

// Whether a file that is found by a name that isn't listed may have another spelling: in letters of either case, or
// the name is its short alias.
fn is_other_spelling(alloc: Global, names: &[String], name: &str) -> Result<bool, AllocError> {
    for other in names {
        if is_same_in_capitals(alloc, other.as_str(), name)? {
            return Ok(true);
        }
    }
    Ok(name.contains("~"))
}
