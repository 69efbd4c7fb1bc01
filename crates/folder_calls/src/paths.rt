//! Paths as texts.
ghost use Rattle.std.specs.Prelude.{◌≡◌, IfOk, string_bytes};
ghost use Rattle.name_syncs.specs.Folders.{path_in};

use std::alloc::{AllocError, Global};

/// A copy of the path.
pub fn copy_path(alloc: Global, path: &str) -> Result<String, AllocError>
    ensures { IfOk result (λ copy. string_bytes copy ≡ path.now) }
{
    String::from_str(alloc, path)
}

/// The path of a name in a folder.
pub fn path_in(alloc: Global, folder: &str, name: &str) -> Result<String, AllocError>
    ensures { IfOk result (λ path. string_bytes path ≡ path_in folder.now name.now) }
{
    if folder.is_empty() {
        return copy_path(alloc, name);
    }
    let mut path = String::from_str(alloc, folder)?;
    path.push_str("/")?;
    path.push_str(name)?;
    Ok(path)
}
