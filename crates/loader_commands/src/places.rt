//! Where loader.conf and the entries stand, and what is read of them.
ghost use Rattle.std.specs.Prelude.{IsTrue};
ghost use Rattle.boot_base.specs.Limits.{text_limit};
ghost use Rattle.boot_machine.specs.Prelude.{Looks, TakesAtMost, seen};
ghost use Rattle.command_plans.specs.Prelude.{CountsReadError, Means, Says};
ghost use Rattle.loader_commands.specs.Places.{conf_bytes, conf_path, loader_paths};

use boot_base::{BootPath, TEXT_LIMIT};
use boot_entries::Folders;
use boot_machine::Machine;
use command_plans::{
    ReadError, WordError, file_part, folders_in, path_in, path_under, seen_size, too_large,
};
use std::alloc::{AllocError, Global};

/// Where loader.conf and the boot entries of an EFI system partition stand.
#[derive(Debug, Drop)]
pub(crate) struct LoaderPaths {
    /// The folders of entries.
    pub(crate) folders: Folders,
    /// `loader/loader.conf`.
    pub(crate) conf: BootPath,
}

/// The path of the loader.conf of the partition that a word names, or the first refusal.
pub(crate) fn conf_path(alloc: Global, esp: &str) -> Result<BootPath, WordError>
    ensures means { Means (λ path. path) result (conf_path esp.now) }
{
    let esp = path_in(alloc, esp)?;
    let path = path_under(alloc, &esp, "loader/loader.conf")?;
    Ok(path)
}

/// The paths of the partition that a word names, or the first refusal.
pub(crate) fn loader_paths(alloc: Global, esp: &str) -> Result<LoaderPaths, WordError>
    ensures { Means (λ paths. paths) result (loader_paths esp.now) }
{
    let folders = folders_in(alloc, esp)?;
    let conf = conf_path(alloc, esp)?;
    Ok(LoaderPaths { folders, conf })
}

/// The bytes of the loader.conf at a path, as many as it is told to have: none where no file is there.
pub(crate) fn conf_bytes<M: Machine>(
    alloc: Global,
    path: &BootPath,
    machine: &mut M,
) -> Result<Vec<u8>, ReadError>
    ensures says { IsTrue M.tells → Says (λ bytes. bytes.items) result
        (conf_bytes (seen (M.state machine.old)) path.now) }
    ensures looks { Looks M.tells M.time M.state M.counts (CountsReadError result) machine.old machine.new }
    ensures taken { IsTrue M.tells → TakesAtMost text_limit (M.taken machine.old) (M.taken machine.new) }
{
    match seen_size(path, machine)? {
        None => Ok(Vec::new(alloc)),
        Some(size) if size > TEXT_LIMIT => Err(ReadError::Refused(too_large(alloc, path, size)?)),
        Some(size) => file_part(alloc, path, 0, size, machine),
    }
}
