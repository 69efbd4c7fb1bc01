//! Temporary files and their locks, and the modes of files.
ghost use Rattle.std.specs.Prelude.{◌≡◌, IfErr, IfOk, IfSome, IsErrAnd, IsTrue, Ok, Some, false, is_some, true};
ghost use Rattle.std.specs.IoError.{error_kind};
ghost use Rattle.name_syncs.specs.Named.{NameWaits};
ghost use Rattle.folder_calls.specs.Rows.{KeepsNames, KeepsNamesBut};
ghost use Rattle.folder_calls.specs.Calls.{IsOpenAt, inode_of};
ghost use Rattle.folder_calls.specs.Tree.{is_fat_file};
ghost use Rattle.folder_machine.specs.Opening.{IsFileAt, stands_still};
ghost use Rattle.folder_locks.specs.Meeting.{AnswersWith};
ghost use Rattle.folder_machine.specs.Refusing.{kind_fault, replace_fault};

use folder_calls::{Access, Calls, Found, Hold, Kind, LockFault, Locked, if_there};
use folder_changes::Changes;
use folder_locks::{open_file, other_run};
use std::io;
use std::io::ErrorKind;

/// The mode of a file that its owner alone may open.
pub(crate) const PRIVATE: u32 = 0o600;

/// The mode of a new file, of which the system takes what the umask says.
pub(crate) const PUBLIC: u32 = 0o644;

/// Why a temporary file is left as it is.
const HELD: &str = "another run holds it";

/// Why there is none any more.
pub(crate) const GONE: &str = "another run has removed it";

// Locks a file without waiting. If another run holds it, these words say so.
pub(crate) fn lock_file<C: Calls>(calls: &C, file: C::File, words: &str) -> io::Result<Locked<C>>
    ensures { IfOk result (λ locked. locked ≡ file) }
{
    match Locked::take(calls, file, Hold::Alone) {
        Ok(locked) => Ok(locked),
        Err(LockFault::Taken) => Err(other_run(words)),
        Err(LockFault::KeepsNone(error, _) | LockFault::Disk(error)) => Err(error),
    }
}

// Opens a temporary file that no other run holds, and locks it until it is closed. It gives what was opened too. What is no
// regular file is never opened.
pub(crate) fn open_locked<C: Calls>(
    calls: &C,
    path: &str,
    access: Access,
) -> io::Result<(Locked<C>, Found)>
    ensures { IfOk result (λ opened. IsTrue C.tells → IsFileAt (C.tree calls.now) path.now (C.inode opened.0)) }
{
    match open_if_there(calls, path, access)? {
        Some(opened) => Ok(opened),
        None => Err(other_run(GONE)),
    }
}

// Opens a temporary file that no other run holds, and locks it until it is closed. None if it isn't there, or has gone
// meanwhile.
fn open_if_there<C: Calls>(
    calls: &C,
    path: &str,
    access: Access,
) -> io::Result<Option<(Locked<C>, Found)>>
    ensures { IfOk result (λ opened. IfSome opened
        (λ opened. IsTrue C.tells → IsFileAt (C.tree calls.now) path.now (C.inode opened.0))) }
{
    require_file(calls.find_itself(path)?)?;
    let Some(file) = if_there(calls.open(path, access))? else {
        return Ok(None);
    };
    let opened = calls.find_open(&file)?;
    Ok(lock_named(calls, path, file, &opened)?.map(|file| (file, opened)))
}

// What is found is a regular file, or nothing.
fn require_file(found: Option<Found>) -> io::Result<()>
    ensures { AnswersWith (kind_fault found) result }
{
    match found {
        Some(found) if !found.is_file() => Err(kind_fault()),
        _ => Ok(()),
    }
}

// Locks a file, and gives it back if it stands at that path still. Who holds the lock on the file that stands at a
// temporary path is the only one to write, rename or remove it.
fn lock_named<C: Calls>(
    calls: &C,
    path: &str,
    file: C::File,
    opened: &Found,
) -> io::Result<Option<Locked<C>>>
    ensures same { IfOk result (λ kept. IfSome kept (λ locked. locked ≡ file)) }
    ensures stands { IfOk result (λ kept. IsTrue C.tells
        → is_some kept ≡ stands_still (C.tree calls.now) path.now opened.now) }
{
    let file = lock_file(calls, file, HELD)?;
    let found = calls.find_itself(path)?;
    Ok(if found.is_some_and(|found| found.is_same(opened)) {
        Some(file)
    } else {
        None
    })
}

/// A new temporary file with its lock.
#[derive(Drop)]
pub(crate) struct Created<C: Calls> {
    pub(crate) file: Locked<C>,
    pub(crate) found: Found,
    /// what was found before the file was made for its owner alone, with the mode that the system gave it; None on a
    /// file system without modes
    pub(crate) given: Option<Found>,
}

// Makes a temporary file, and locks it. Where there are modes it is for its owner alone. Another run may take a file for a
// leftover before it is locked, so if it is gone it is made once more.
#[tactic(auto, using(crate::proofs::NameSteps::name_waits_twice, crate::proofs::NameSteps::name_waits_none, crate::proofs::NameRows::open_there))]
pub(crate) fn create_locked<C: Calls + Drop, E: Print + Drop>(
    changes: &mut Changes<C, E>,
    path: &str,
    mode: u32,
) -> io::Result<Created<C>>
    ensures same { IfOk result (λ made. IsTrue C.tells → C.inode made.file ≡ inode_of made.found) }
    ensures stands { IfOk result (λ made. IsTrue C.tells
        → stands_still (C.tree changes.new) path.now made.found ≡ true) }
    ensures given { IfOk result (λ made. IfSome made.given (λ found. found ≡ made.found)) }
    ensures modes { IfOk result (λ made. IfSome made.given (λ found. is_fat_file found ≡ false)) }
    ensures open { IfOk result (λ made. IfSome made.given (λ found. IsTrue C.tells
        → C.inode made.file ≡ inode_of found)) }
    ensures waits { IsTrue C.tells → NameWaits (C.waits changes.old) (C.waits changes.new) path.now }
    ensures private { IfOk result (λ made. is_fat_file made.found ≡ false → made.found.mode ≡ PRIVATE
        → made.given ≡ Some made.found) }
    ensures at { IfOk result (λ made. IsTrue C.tells
        → IsOpenAt (C.tree changes.new) path.now (C.inode made.file)) }
    ensures kept { IsTrue C.tells → KeepsNamesBut path.now (C.tree changes.old) (C.tree changes.new) }
{
    for _ in 0..2 {
        let file = create_anew(changes, path, mode)?;
        let found = changes.calls().find_open(&file)?;
        let has_modes = make_private(changes, &file, &found)?;
        if let Some(file) = lock_named(changes.calls(), path, file, &found)? {
            let given = if has_modes { Some(found) } else { None };
            return Ok(Created { file, found, given });
        }
    }
    Err(other_run(HELD))
}

// Makes a new file one for its owner alone, and tells whether its file system has modes. FAT has none.
fn make_private<C: Calls + Drop, E: Print + Drop>(
    changes: &mut Changes<C, E>,
    file: &C::File,
    found: &Found,
) -> io::Result<bool>
    requires { IsTrue C.tells → C.inode file.now ≡ inode_of found.now }
    ensures modes { IfOk result (λ has_modes. has_modes ≡ true → is_fat_file found.now ≡ false) }
    ensures private { IfOk result (λ has_modes. is_fat_file found.now ≡ false → found.now.mode ≡ PRIVATE
        → has_modes ≡ true) }
    ensures quiet { IsTrue C.tells → C.waits changes.new ≡ C.waits changes.old }
    ensures kept { IsTrue C.tells → KeepsNames (C.tree changes.old) (C.tree changes.new) }
{
    if found.is_fat_file() {
        return Ok(false);
    }
    if found.mode == PRIVATE {
        return Ok(true);
    }
    changes.set_mode(file, found, PRIVATE)
}

// A leftover goes first: it may have another owner, and a second name.
#[tactic(auto, using(crate::proofs::NameSteps::name_waits_twice))]
fn create_anew<C: Calls + Drop, E: Print + Drop>(
    changes: &mut Changes<C, E>,
    path: &str,
    mode: u32,
) -> io::Result<C::File>
    ensures waits { IsTrue C.tells → NameWaits (C.waits changes.old) (C.waits changes.new) path.now }
    ensures kept { IsTrue C.tells → KeepsNamesBut path.now (C.tree changes.old) (C.tree changes.new) }
{
    match changes.create(path, mode) {
        Err(error) if error.kind() == ErrorKind::AlreadyExists => {
            remove_leftover(changes, path)?;
            made_alone(changes.create(path, mode))
        }
        answer => answer,
    }
}

// Removes a leftover that no other run holds, unless it has gone meanwhile.
#[tactic(auto, using(crate::proofs::NameSteps::name_waits_none))]
fn remove_leftover<C: Calls + Drop, E: Print + Drop>(
    changes: &mut Changes<C, E>,
    path: &str,
) -> io::Result<()>
    ensures waits { IsTrue C.tells → NameWaits (C.waits changes.old) (C.waits changes.new) path.now }
    ensures kept { IsTrue C.tells → KeepsNamesBut path.now (C.tree changes.old) (C.tree changes.new) }
{
    match open_if_there(changes.calls(), path, Access::Append)? {
        Some((held, _)) => changes.unlink(path, Some(&held)),
        None => Ok(()),
    }
}

// A file that has come to a temporary path meanwhile is another run's.
fn made_alone<F: Drop>(answer: io::Result<F>) -> io::Result<F>
    ensures ok { IfOk result (λ file. answer ≡ Ok file) }
    ensures held { IfErr answer (λ error. error_kind error ≡ ErrorKind.AlreadyExists
        → IsErrAnd result (λ told. error_kind told ≡ ErrorKind.WouldBlock)) }
{
    match answer {
        Err(error) if error.kind() == ErrorKind::AlreadyExists => Err(other_run(HELD)),
        answer => answer,
    }
}

// A file, or a link to one, may be replaced by a rename, and nothing else that is found at a path.
pub(crate) fn require_replaceable(found: Option<Found>) -> io::Result<()>
    ensures { AnswersWith (replace_fault found) result }
{
    match found {
        Some(found) => match found.kind {
            Kind::File | Kind::Link => Ok(()),
            Kind::Folder => Err(io::Error::from(ErrorKind::IsADirectory)),
            Kind::Other => Err(kind_fault()),
        },
        None => Ok(()),
    }
}

// No other run may be about to rename this temporary file.
pub(crate) fn require_not_written<C: Calls>(calls: &C, temp: &str) -> io::Result<()> {
    if let Some((file, _)) = open_file(calls, temp)? {
        lock_file(calls, file, HELD)?;
    }
    Ok(())
}

// There is no such kind of file at a path.
pub(crate) fn kind_fault() -> io::Error
    ensures { error_kind result ≡ ErrorKind.InvalidInput }
{
    io::Error::new(ErrorKind::InvalidInput, "not a regular file")
}
