//! The names of entry files.
ghost use Rattle.std.specs.Prelude.{◌≡◌, ◌≤◌, ◌<◌, All, IfErr, IfOk, IsTrue, bytes_eq, true};
ghost use Rattle.std.specs.List.{IsDistinct};
ghost use Rattle.menu_order.specs.Splits.{has_suffix};
ghost use Rattle.menu_order.specs.declared.counted.Suffix.TheVariants.{Conf, Efi};
ghost use Rattle.boot_entries.specs.Entries.{entry_count, entry_limit};
ghost use Rattle.boot_entries.specs.Scanning.{AreEntryNames, CountsMenu, menu_many};
ghost use Rattle.boot_machine.specs.Prelude.{Looks, CountsRead};

use crate::fault::MenuFault;
use crate::folders::Folders;
use crate::once::each_name_once;
use boot_base::{BootPath, FileName};
use boot_machine::{Machine, ReadFault};
use menu_order::Suffix;
use std::alloc::Global;

/// The most entry files in both folders.
const ENTRY_LIMIT: u64 = 4096;

/// The names of the entry files of both types.
#[derive(Drop)]
pub(crate) struct EntryNames {
    /// Those of type 1.
    pub(crate) texts: Vec<FileName>,
    /// Those of type 2.
    pub(crate) images: Vec<FileName>,
}

fn has_suffix(name: &FileName, suffix: Suffix) -> bool
    ensures { result ≡ has_suffix suffix name.now }
{
    let name = name.as_str().as_bytes();
    name.ends_with(suffix.as_str().as_bytes())
}

// The names with that suffix among those of the files directly in a folder, each once, whatever the machine gives.
fn names_with<M: Machine>(
    alloc: Global,
    machine: &mut M,
    folder: &BootPath,
    suffix: Suffix,
) -> Result<Vec<FileName>, ReadFault>
    ensures names { IfOk result (λ names. IsTrue M.tells
        → AreEntryNames (M.state machine.old).files folder.now suffix names.items) }
    ensures suffix { IfOk result (λ names. All (λ name. has_suffix suffix name ≡ true) names.items) }
    ensures distinct { IfOk result (λ names. IsDistinct bytes_eq names.items) }
    ensures looks { Looks M.tells M.time M.state M.counts (CountsRead result) machine.old machine.new }
    ensures taken { IsTrue M.tells → M.taken machine.new ≡ M.taken machine.old }
{
    let mut names = machine.names(alloc, folder)?;
    names.retain(|name| has_suffix(name, suffix));
    let once = each_name_once(names)?;
    Ok(once)
}

/// The names of the entry files in both folders, each once, unless there are more than 4,096. No file is read.
pub(crate) fn entry_names<M: Machine>(
    alloc: Global,
    machine: &mut M,
    folders: &Folders,
) -> Result<EntryNames, MenuFault>
    ensures texts { IfOk result (λ names. IsTrue M.tells
        → AreEntryNames (M.state machine.old).files folders.now.entries Conf names.texts.items) }
    ensures images { IfOk result (λ names. IsTrue M.tells
        → AreEntryNames (M.state machine.old).files folders.now.images Efi names.images.items) }
    ensures text_suffix { IfOk result (λ names. All (λ name. has_suffix Conf name ≡ true) names.texts.items) }
    ensures image_suffix { IfOk result (λ names. All (λ name. has_suffix Efi name ≡ true) names.images.items) }
    ensures text_once { IfOk result (λ names. IsDistinct bytes_eq names.texts.items) }
    ensures image_once { IfOk result (λ names. IsDistinct bytes_eq names.images.items) }
    ensures few { IfOk result (λ names. IsTrue M.tells → entry_count (M.state machine.old).files folders.now ≤ 4096) }
    ensures many { IfErr result (λ fault. menu_many fault (λ count.
        (entry_limit < count) × (IsTrue M.tells → entry_count (M.state machine.old).files folders.now ≡ count))) }
    ensures looks { Looks M.tells M.time M.state M.counts (CountsMenu result) machine.old machine.new }
    ensures taken { IsTrue M.tells → M.taken machine.new ≡ M.taken machine.old }
{
    let texts = names_with(alloc, machine, &folders.entries, Suffix::Conf)?;
    let images = names_with(alloc, machine, &folders.images, Suffix::Efi)?;
    let count = texts.len() as u64 + images.len() as u64;
    if count > ENTRY_LIMIT {
        return Err(MenuFault::TooMany { count });
    }
    Ok(EntryNames { texts, images })
}
