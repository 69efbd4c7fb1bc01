//! Calls that are made again while they are interrupted, and what their answers mean.
ghost use Rattle.std.specs.Prelude.{◌≡◌, ◌≤◌, length, IfOk, Ok};
ghost use Rattle.std.specs.IoError.{error_kind};
ghost use Rattle.host_machine.specs.Told.{file_answer, says_no_file_syncs};

use std::fs::File;
use std::io;
use std::io::{ErrorKind, Read};
use std::os::unix::fs::FileExt;

// The answer of a call that isn't interrupted.
pub(crate) fn repeated<T: Drop, F: Fn() -> io::Result<T>>(call: F) -> io::Result<T>
    requires { F.IsAlwaysCallable call }
    ensures { IfOk result (λ value. F.post call (Ok value)) }
{
    for _ in 0..u64::MAX {
        match call() {
            Ok(value) => return Ok(value),
            Err(error) if error.kind() == ErrorKind::Interrupted => {}
            Err(error) => return Err(error),
        }
    }
    Err(io::Error::from(ErrorKind::Interrupted))
}

// One read that isn't interrupted.
pub(crate) fn read_once<F: Read>(file: &mut F, into: &mut [u8]) -> io::Result<usize>
    ensures { IfOk result (λ n. n ≤ length into.new) }
{
    for _ in 0..u64::MAX {
        match file.read(into) {
            Ok(count) => return Ok(count),
            Err(error) if error.kind() == ErrorKind::Interrupted => {}
            Err(error) => return Err(error),
        }
    }
    Err(io::Error::from(ErrorKind::Interrupted))
}

// One read from a place on that isn't interrupted. No file reaches past the last place that the system knows.
pub(crate) fn read_once_at(file: &File, at: u64, into: &mut [u8]) -> io::Result<usize>
    ensures { IfOk result (λ n. n ≤ length into.new) }
{
    if at > i64::MAX as u64 {
        return Ok(0);
    }
    for _ in 0..u64::MAX {
        match file.read_at(into, at) {
            Ok(count) => return Ok(count),
            Err(error) if error.kind() == ErrorKind::Interrupted => {}
            Err(error) => return Err(error),
        }
    }
    Err(io::Error::from(ErrorKind::Interrupted))
}

// Whether a file is synced. A file system that syncs no files isn't FAT, and nobody has left a file there.
pub(crate) fn file_answer(answer: io::Result<()>) -> io::Result<bool>
    ensures { result ≡ file_answer answer }
{
    match answer {
        Ok(()) => Ok(true),
        Err(error) if syncs_no_files(&error) => Ok(false),
        Err(error) => Err(error),
    }
}

// Whether the failed sync of a file is that of a file system that syncs none, as squashfs.
fn syncs_no_files(error: &io::Error) -> bool
    ensures { result ≡ says_no_file_syncs (error_kind error.now) }
{
    matches!(error.kind(), ErrorKind::InvalidInput)
}
