//! Files that are opened.
ghost use Rattle.std.specs.Prelude.{◌≡◌, IfOk, IfSome, IsTrue, true};
ghost use Rattle.folder_calls.specs.Tree.{is_file};
ghost use Rattle.folder_locks.specs.Holding.{IsOpenAs};

use folder_calls::{Access, Calls, Found, if_there};
use std::io;

/// A regular file to read it, and what was opened. What is something else is never opened.
pub fn open_file<C: Calls>(calls: &C, path: &str) -> io::Result<Option<(C::File, Found)>>
    ensures file { IfOk result (λ opened. IfSome opened (λ opened. is_file opened.1 ≡ true)) }
    ensures same { IfOk result (λ opened. IfSome opened (λ opened. IsTrue C.tells → IsOpenAs C.inode opened)) }
{
    match calls.find(path)? {
        Some(found) if found.is_file() => open_known(calls, path),
        _ => Ok(None),
    }
}

/// Opens what was a regular file at the last look, to read it. None if it is gone, or is no regular file any more.
pub fn open_known<C: Calls>(calls: &C, path: &str) -> io::Result<Option<(C::File, Found)>>
    ensures file { IfOk result (λ opened. IfSome opened (λ opened. is_file opened.1 ≡ true)) }
    ensures same { IfOk result (λ opened. IfSome opened (λ opened. IsTrue C.tells → IsOpenAs C.inode opened)) }
{
    let Some(file) = if_there(calls.open(path, Access::Read))? else {
        return Ok(None);
    };
    let found = calls.find_open(&file)?;
    Ok(if found.is_file() {
        Some((file, found))
    } else {
        None
    })
}

/// A folder.
pub fn open_folder<C: Calls>(calls: &C, folder: &str) -> io::Result<Option<(C::File, Found)>>
    ensures { IfOk result (λ opened. IfSome opened (λ opened. IsTrue C.tells → IsOpenAs C.inode opened)) }
{
    let Some(file) = calls.open_folder(folder)? else {
        return Ok(None);
    };
    let found = calls.find_open(&file)?;
    Ok(if found.is_folder() {
        Some((file, found))
    } else {
        None
    })
}
