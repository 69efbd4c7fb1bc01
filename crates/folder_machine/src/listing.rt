//! The names in a folder.
ghost use Rattle.std.specs.Prelude.{◌≡◌, ◌++◌, ◌∷◌, [], IfErr, IfOk, IsTrue, OnErr, OnOk, if◌then◌else◌, map, string_bytes};
ghost use Rattle.std.specs.IoError.{error_kind};
ghost use Rattle.boot_base.specs.Paths.{is_file_name};
ghost use Rattle.folder_machine.specs.Listing.{files_in, leads_to_file};

use boot_base::{FileName, PathFault};
use folder_calls::{Calls, path_in};
use std::alloc::Global;
use std::io;
use std::io::ErrorKind;

// Those of a folder's names that are the names of regular files, after links.
pub(crate) fn files_among<C: Calls>(
    calls: &C,
    alloc: Global,
    folder: &str,
    names: &[String],
) -> io::Result<Vec<FileName>>
    ensures { IfOk result (λ files. IsTrue C.tells
        → files.items ≡ files_in (C.tree calls.now) folder.now (map string_bytes names.now)) }
{
    let mut files = Vec::new(alloc);
    for name in names {
        let name = name.as_str();
        let path = path_in(alloc, folder, name)?;
        if is_file(calls, path.as_str())? {
            add_name(alloc, &mut files, name)?;
        }
    }
    Ok(files)
}

fn is_file<C: Calls>(calls: &C, path: &str) -> io::Result<bool>
    ensures { IfOk result (λ is. IsTrue C.tells → is ≡ leads_to_file (C.tree calls.now) path.now) }
{
    let found = match calls.find_itself(path)? {
        Some(found) if found.is_link() => calls.find(path)?,
        found => found,
    };
    Ok(found.is_some_and(|found| found.is_file()))
}

fn add_name(alloc: Global, names: &mut Vec<FileName>, text: &str) -> io::Result<()>
    ensures ok { OnOk result (names.new.items
        ≡ names.old.items ++ (if is_file_name text.now then text.now ∷ [] else [])) }
    ensures err { OnErr result (names.new.items ≡ names.old.items) }
    ensures memory { IfErr result (λ error. error_kind error ≡ ErrorKind.OutOfMemory) }
{
    match FileName::read(alloc, text) {
        Ok(name) => Ok(names.push(name)?),
        Err(PathFault::BadPath) => Ok(()),
        Err(PathFault::Memory) => Err(io::Error::from(ErrorKind::OutOfMemory)),
    }
}
