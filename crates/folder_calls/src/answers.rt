//! What answers of the system mean. No call is made here.
ghost use Rattle.std.specs.Prelude.{◌≡◌};
ghost use Rattle.std.specs.IoError.{error_kind};
ghost use Rattle.folder_calls.specs.Answers.{done_or_refused, folder_answer, found_or_none, made_or_there, says_closed, says_no_syncs, text_or_none};
ghost use Rattle.folder_calls.specs.Locks.{is_bad_descriptor, keeps_no_locks, lock_answer, lock_fault, says_no_locks};

use crate::calls::LockFault;
use name_syncs::FolderFault;
use std::fs::TryLockError;
use std::io;
use std::io::ErrorKind;

// The system's answer of a network's file system to a lock on a file that isn't open for writing.
const BAD_DESCRIPTOR: i32 = 9;

/// None if the answer is that no such file or folder is there.
pub fn if_there<T: Drop>(answer: io::Result<T>) -> io::Result<Option<T>>
    ensures { result ≡ found_or_none answer }
{
    match answer {
        Ok(found) => Ok(Some(found)),
        Err(error) => match error.kind() {
            ErrorKind::NotFound
            | ErrorKind::NotADirectory
            | ErrorKind::IsADirectory
            | ErrorKind::FilesystemLoop => Ok(None),
            _ => Err(error),
        },
    }
}

/// None if an entry of a folder has a name that isn't UTF-8.
pub fn if_utf8<T: Drop>(entry: io::Result<T>) -> io::Result<Option<T>>
    ensures { result ≡ text_or_none entry }
{
    match entry {
        Ok(entry) => Ok(Some(entry)),
        Err(error) => match error.kind() {
            ErrorKind::InvalidFilename => Ok(None),
            _ => Err(error),
        },
    }
}

/// Whether something was made. What stood there already stays.
pub fn if_new(answer: io::Result<()>) -> io::Result<()>
    ensures { result ≡ made_or_there answer }
{
    match answer {
        Ok(()) => Ok(()),
        Err(error) => match error.kind() {
            ErrorKind::AlreadyExists => Ok(()),
            _ => Err(error),
        },
    }
}

/// Whether the call was done, and not refused by a file system that doesn't know it.
pub fn if_allowed(answer: io::Result<()>) -> io::Result<bool>
    ensures { result ≡ done_or_refused answer }
{
    match answer {
        Ok(()) => Ok(true),
        Err(error) => match error.kind() {
            ErrorKind::PermissionDenied | ErrorKind::Unsupported => Ok(false),
            _ => Err(error),
        },
    }
}

/// What the answer to a lock means.
pub fn lock_answer(answer: Result<(), TryLockError>) -> Result<(), LockFault<()>>
    ensures { result ≡ lock_answer answer }
{
    match answer {
        Ok(()) => Ok(()),
        Err(TryLockError::WouldBlock) => Err(LockFault::Taken),
        Err(TryLockError::Error(error)) => Err(lock_fault(error)),
    }
}

fn lock_fault(error: io::Error) -> LockFault<()>
    ensures { result ≡ lock_fault error }
{
    if keeps_no_locks(&error) {
        LockFault::KeepsNone(error, ())
    } else {
        LockFault::Disk(error)
    }
}

fn keeps_no_locks(error: &io::Error) -> bool
    ensures { result ≡ keeps_no_locks error.now }
{
    says_no_locks(error.kind()) || is_bad_descriptor(error.raw_os_error())
}

fn says_no_locks(kind: ErrorKind) -> bool
    ensures { result ≡ says_no_locks kind }
{
    matches!(kind, ErrorKind::Unsupported | ErrorKind::InvalidInput)
}

fn is_bad_descriptor(code: Option<i32>) -> bool
    ensures { result ≡ is_bad_descriptor code }
{
    code == Some(BAD_DESCRIPTOR)
}

/// What the answer to the sync of a folder means that was there: whether it is synced.
pub fn folder_answer(answer: io::Result<()>) -> Result<bool, FolderFault<io::Error>>
    ensures { result ≡ folder_answer answer }
{
    match answer {
        Ok(()) => Ok(true),
        Err(fault) => {
            let syncs_none = syncs_no_folders(&fault);
            let is_refused = is_closed(&fault);
            Err(FolderFault {
                syncs_none,
                is_refused,
                fault,
            })
        }
    }
}

// Whether the failed sync of a folder is that of a file system that syncs none, as a read-only one.
fn syncs_no_folders(error: &io::Error) -> bool
    ensures { result ≡ says_no_syncs (error_kind error.now) }
{
    matches!(
        error.kind(),
        ErrorKind::InvalidInput | ErrorKind::Unsupported | ErrorKind::ReadOnlyFilesystem
    )
}

/// Whether a call has failed since this run may not open something.
pub fn is_closed(error: &io::Error) -> bool
    ensures { result ≡ says_closed (error_kind error.now) }
{
    matches!(error.kind(), ErrorKind::PermissionDenied)
}
