//! The intent of a move: the file that names the two paths of a rename while it is made. It is locked from its creation
//! until it is gone, and believed only if this program can have written it.
ghost use Rattle.std.specs.Prelude.{◌≡◌, IfOk, IfSome, IsErrAnd, IsTrue, None, Ok, OnOk, Some, option_copied, option_map, take, true, false};
ghost use Rattle.std.specs.IoError.{error_kind};
ghost use Rattle.boot_base.specs.Intents.{names_of};
ghost use Rattle.boot_base.specs.Paths.{intent, read_intent};
ghost use Rattle.fat_rules.specs.Entries.{is_own_move};
ghost use Rattle.folder_calls.specs.Tree.{same_inode};
ghost use Rattle.folder_machine.specs.Opening.{IsRead, is_plain_file};
ghost use Rattle.folder_locks.specs.Meeting.{AnswersWith};
ghost use Rattle.folder_machine.specs.Refusing.{other_move_fault};

use crate::kept::lock_file;
use boot_base::{INTENT, INTENT_LIMIT, IntentNames};
use fat_rules::is_own_move;
use folder_calls::{Calls, Found, Locked, read_full};
use folder_locks::{open_file, other_run};
use name_syncs::FolderSet;
use std::alloc::Global;
use std::io;
use std::io::ErrorKind;

/// Why the intent of another run is left as it is.
const OTHER_MOVE: &str = "another run is moving a boot file";

/// How many bytes of an intent are read: one more than it may have.
const READ_LIMIT: usize = INTENT_LIMIT as usize + 1;

// The paths that an intent's file names. It is read to its end, unless it is too long for one.
fn read_from<C: Calls>(calls: &C, alloc: Global, file: &C::File) -> io::Result<Option<IntentNames>>
    ensures read { IfOk result (λ left. IfSome left IsRead) }
    ensures whole { IfOk result (λ left. IsTrue C.tells → option_map names_of left
        ≡ read_intent (take 2051 ((C.tree calls.now).bytes (C.inode file.now)))) }
{
    let mut bytes = [0; READ_LIMIT];
    let count = read_full(calls, file, 0, &mut bytes)?;
    Ok(IntentNames::read(alloc, &bytes[..count])?)
}

// The paths that the intent names. It is a fault if it names any and this program can't have written it.
fn read_own<C: Calls>(calls: &C, alloc: Global, file: &C::File) -> io::Result<Option<IntentNames>>
    ensures own { IfOk result (λ left. IfSome left (λ names. is_own_move (names_of names) ≡ true)) }
    ensures plain { IfOk result (λ left. IfSome left
        (λ _. IsTrue C.tells → is_plain_file ((C.tree calls.now).stands INTENT.now) ≡ true)) }
{
    let Some(names) = read_from(calls, alloc, file)? else {
        return Ok(None);
    };
    require_own(calls, alloc, INTENT, &names)?;
    Ok(Some(names))
}

/// An intent that this run holds by its lock.
#[derive(Drop)]
pub(crate) struct HeldIntent<C: Calls> {
    file: Locked<C>,
    /// the paths in an intent that a stop has left; None in that of a move of this run, and in one without paths
    left: Option<IntentNames>,
}

impl<C: Calls> HeldIntent<C> {
    // That of a move of this run.
    pub(crate) fn new(file: Locked<C>) -> Self
        ensures { result ≡ record { file = file; left = None } }
    {
        HeldIntent { file, left: None }
    }

    // The intent that a stop has left, and None if none is there. Another run's is a fault, and so is one with paths
    // that this program can't have written.
    pub(crate) fn take(calls: &C, alloc: Global) -> io::Result<Option<HeldIntent<C>>>
        ensures own { IfOk result (λ taken. IfSome taken (λ held. IfSome held.left
            (λ names. is_own_move (names_of names) ≡ true))) }
        ensures plain { IfOk result (λ taken. IfSome taken (λ held. IfSome held.left
            (λ _. IsTrue C.tells → is_plain_file ((C.tree calls.now).stands INTENT.now) ≡ true))) }
    {
        let Some(file) = open_locked_intent(calls)? else {
            return Ok(None);
        };
        let left = read_own(calls, alloc, file.file())?;
        Ok(Some(HeldIntent { file, left }))
    }

    pub(crate) fn length(&self, calls: &C) -> io::Result<u64> {
        Ok(calls.find_open(self.file.file())?.facts.length)
    }

    pub(crate) fn file(&self) -> &Locked<C>
        ensures { result.now ≡ self.now.file }
    {
        &self.file
    }

    pub(crate) fn left(&self) -> Option<&IntentNames>
        ensures { option_copied result ≡ self.now.left }
    {
        self.left.as_ref()
    }
}

fn open_locked_intent<C: Calls>(calls: &C) -> io::Result<Option<Locked<C>>> {
    let Some((file, opened)) = open_file(calls, INTENT)? else {
        return Ok(None);
    };
    let file = lock_file(calls, file, OTHER_MOVE)?;
    if_still_there(calls.find(INTENT)?, &opened, file)
}

// The intent that was locked, if what is found there now is what was opened. Its run may have ended between opening and
// locking.
fn if_still_there<C: Calls>(
    found: Option<Found>,
    opened: &Found,
    file: Locked<C>,
) -> io::Result<Option<Locked<C>>>
    ensures gone { found ≡ None → result ≡ Ok None }
    ensures same { IfSome found (λ found. same_inode found opened.now ≡ true → result ≡ Ok (Some file)) }
    ensures other { IfSome found (λ found. same_inode found opened.now ≡ false
        → IsErrAnd result (λ error. error_kind error ≡ ErrorKind.WouldBlock)) }
{
    match found {
        Some(found) if found.is_same(opened) => Ok(Some(file)),
        Some(_) => Err(other_run(OTHER_MOVE)),
        None => Ok(None),
    }
}

// After the recovery of this run an intent that it doesn't hold is that of another run.
pub(crate) fn require_no_other_move<C: Calls>(calls: &C, holds_intent: bool) -> io::Result<()>
    ensures { IfOk result (λ _. IsTrue C.tells
        → other_move_fault ((C.tree calls.now).leads intent) holds_intent ≡ None) }
{
    refuse_other_move(calls.find(INTENT)?, holds_intent)
}

// Refuses a file that is found at the path of the intent, unless this run holds the intent.
fn refuse_other_move(found: Option<Found>, holds_intent: bool) -> io::Result<()>
    ensures { AnswersWith (other_move_fault found holds_intent) result }
{
    match found {
        Some(found) if !holds_intent && found.is_file() => Err(other_run(OTHER_MOVE)),
        _ => Ok(()),
    }
}

// This run's own intent is put in its place only if a later run will believe it, and no other one stands there. It gives
// the paths in it.
pub(crate) fn require_intent<C: Calls>(
    calls: &C,
    alloc: Global,
    temp: &str,
    said: Option<&[u8]>,
) -> io::Result<IntentNames>
    ensures own { IfOk result (λ names. is_own_move (names_of names) ≡ true) }
    ensures plain { OnOk result (IsTrue C.tells → is_plain_file ((C.tree calls.now).stands temp.now) ≡ true) }
{
    require_no_other_move(calls, false)?;
    let read = match said {
        Some(bytes) => IntentNames::read(alloc, bytes)?,
        None => read_temp(calls, alloc, temp)?,
    };
    let Some(names) = read else {
        return Err(io::Error::new(ErrorKind::InvalidData, "names no move"));
    };
    require_own(calls, alloc, temp, &names)?;
    Ok(names)
}

// What a temporary file says that this run hasn't written.
fn read_temp<C: Calls>(calls: &C, alloc: Global, temp: &str) -> io::Result<Option<IntentNames>> {
    let Some((file, _)) = open_file(calls, temp)? else {
        return Err(io::Error::from(ErrorKind::NotFound));
    };
    read_from(calls, alloc, &file)
}

// The intent at a path is this program's: a regular file with one link, for two names of one entry, in a folder that no
// link leads to.
fn require_own<C: Calls>(
    calls: &C,
    alloc: Global,
    path: &str,
    names: &IntentNames,
) -> io::Result<()>
    ensures own { OnOk result (is_own_move (names_of names.now) ≡ true) }
    ensures plain { OnOk result (IsTrue C.tells → is_plain_file ((C.tree calls.now).stands path.now) ≡ true) }
{
    if is_plain_file(calls.find_itself(path)?)
        && is_own_move(names)
        && !is_below_a_link(calls, alloc, names.from.as_str())?
    {
        return Ok(());
    }
    Err(io::Error::new(
        ErrorKind::InvalidData,
        "isn't from a move of this program, or leads over a link: remove it by hand",
    ))
}

// Whether a regular file with one hard link was found.
fn is_plain_file(found: Option<Found>) -> bool
    ensures { result ≡ is_plain_file found }
{
    found.is_some_and(|found| found.is_file() && found.facts.links == 1)
}

// Whether a folder on the way to a file is a link.
fn is_below_a_link<C: Calls>(calls: &C, alloc: Global, path: &str) -> io::Result<bool> {
    let mut folders = FolderSet::new(alloc);
    folders.add_above(path)?;
    for folder in folders.below.as_slice() {
        let found = calls.find_itself(folder.as_str())?;
        if found.is_some_and(|found| found.is_link()) {
            return Ok(true);
        }
    }
    Ok(false)
}
