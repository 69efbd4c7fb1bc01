//! The entry of one file of a boot folder.
ghost use Rattle.std.specs.Prelude.{◌≡◌, ◌≤◌, IfOk, IfSome, IsTrue, None, Result, Some, length, true};
ghost use Rattle.std.specs.FinMap.{get};
ghost use Rattle.boot_base.specs.Limits.{text_limit};
ghost use Rattle.boot_base.specs.Paths.{file_name_of, under};
ghost use Rattle.menu_order.specs.Splits.{has_suffix};
ghost use Rattle.menu_order.specs.declared.counted.Suffix.TheVariants.{Conf, Efi};
ghost use Rattle.boot_entries.specs.Entries.{entry_at, entry_if, own_path};
ghost use Rattle.boot_entries.specs.Items.{CountsItem, GivesItem};
ghost use Rattle.boot_entries.specs.Records.{Unfit, value_if_ok, type1_entry, type1_item};
ghost use Rattle.boot_entries.specs.Scanning.{image_limit, read_limit, size_within};
ghost use Rattle.boot_machine.specs.Prelude.{Counts, CountsDisk, Looks, TakesAtMost, contents, CountsRead};
ghost use Rattle.menu_order.specs.declared.item.MenuItem.{MenuItem};

use crate::fault::ItemFault;
use crate::name::split_name;
use crate::uki::uki_item;
use boot_base::{BootPath, FILE_LIMIT, FileName, PathFault, TEXT_LIMIT};
use boot_machine::{DiskFault, Machine, ReadFault, read_part, zeros};
use boot_texts::{EntryFault, Type1};
use menu_order::{MenuItem, Suffix};
use std::alloc::{AllocError, Global};

// The size of a machine's file, if it is there with no more bytes than that.
fn size_within<M: Machine>(
    machine: &mut M,
    path: &BootPath,
    limit: u64,
) -> Result<Option<u64>, DiskFault>
    ensures size { IfOk result (λ size. IsTrue M.tells
        → size ≡ size_within limit (get (M.state machine.old).files path.now)) }
    ensures limit { IfOk result (λ size. IfSome size (λ n. n ≤ limit)) }
    ensures looks { Looks M.tells M.time M.state M.counts (CountsDisk result) machine.old machine.new }
    ensures taken { IsTrue M.tells → M.taken machine.new ≡ M.taken machine.old }
{
    match machine.size(path.file())? {
        Some(size) if size <= limit => Ok(Some(size)),
        _ => Ok(None),
    }
}

// The bytes of a machine's file of that size.
fn file_bytes<M: Machine>(
    alloc: Global,
    machine: &mut M,
    path: &BootPath,
    size: u64,
) -> Result<Vec<u8>, ReadFault>
    requires { size ≤ text_limit }
    ensures bytes { IfOk result (λ bytes. IsTrue M.tells
        → size ≡ length (contents (M.state machine.old).files path.now)
        → bytes.items ≡ contents (M.state machine.old).files path.now) }
    ensures looks { Looks M.tells M.time M.state M.counts (CountsRead result) machine.old machine.new }
    ensures taken { IsTrue M.tells → TakesAtMost text_limit (M.taken machine.old) (M.taken machine.new) }
{
    let mut bytes = zeros(alloc, size as usize)?;
    read_part(machine, path.file(), 0, &mut bytes)?;
    Ok(bytes)
}

// The entry of a type 1 text at a path.
fn type1_item(alloc: Global, path: BootPath, entry: Type1) -> Result<MenuItem, AllocError>
    ensures { IfOk result (λ item. item ≡ type1_item path entry) }
{
    let (base, counter) = split_name(alloc, path.file_name(), Suffix::Conf)?;
    Ok(MenuItem {
        path,
        suffix: Suffix::Conf,
        base,
        counter,
        title: entry.title,
        version: entry.version,
        sort_key: entry.sort_key,
        machine_id: entry.machine_id,
        linux: entry.linux,
        efi: entry.efi,
        initrds: entry.initrds,
        options: entry.options,
    })
}

// The entry of a type 1 file's bytes, None where they are none.
fn text_entry(alloc: Global, path: BootPath, bytes: &[u8]) -> Result<Option<MenuItem>, AllocError>
    ensures { IfOk result (λ item. item ≡ type1_entry path bytes.now) }
{
    match Type1::read(alloc, bytes) {
        Ok(entry) => Ok(Some(type1_item(alloc, path, entry)?)),
        Err(EntryFault::Memory) => Err(AllocError),
        Err(EntryFault::TooLong | EntryFault::NothingToBoot) => Ok(None),
    }
}

// The entry of the type 1 file at a path, None where there is no valid one.
fn text_at<M: Machine>(
    alloc: Global,
    machine: &mut M,
    path: BootPath,
) -> Result<Option<MenuItem>, ReadFault>
    ensures exact { IfOk result (λ item. IsTrue M.tells → item ≡ entry_at Conf (M.state machine.old).files path) }
    ensures looks { Looks M.tells M.time M.state M.counts (CountsRead result) machine.old machine.new }
    ensures taken { IsTrue M.tells → TakesAtMost text_limit (M.taken machine.old) (M.taken machine.new) }
{
    let Some(size) = size_within(machine, &path, TEXT_LIMIT)? else {
        return Ok(None);
    };
    let bytes = file_bytes(alloc, machine, &path, size)?;
    Ok(text_entry(alloc, path, &bytes)?)
}

// What an image comes to in a scan, which passes over a file that is no entry.
fn keep_entry(read: Result<MenuItem, ItemFault>) -> Result<Option<MenuItem>, ReadFault>
    ensures meant { (entry : Result MenuItem Unfit) → GivesItem read entry
        → IfOk result (λ item. item ≡ value_if_ok entry) }
    ensures counts { (old new : Counts) → CountsItem read old new → CountsRead result old new }
{
    match read {
        Ok(item) => Ok(Some(item)),
        Err(ItemFault::Memory) => Err(ReadFault::Memory),
        Err(ItemFault::Disk) => Err(ReadFault::Disk),
        Err(ItemFault::NotPe { .. } | ItemFault::NotUki { .. }) => Ok(None),
    }
}

// The entry of the type 2 file at a path, None where there is no valid one.
fn image_at<M: Machine>(
    alloc: Global,
    machine: &mut M,
    path: BootPath,
) -> Result<Option<MenuItem>, ReadFault>
    requires { has_suffix Efi (file_name_of path) ≡ true }
    ensures exact { IfOk result (λ item. IsTrue M.tells → item ≡ entry_at Efi (M.state machine.old).files path) }
    ensures looks { Looks M.tells M.time M.state M.counts (CountsRead result) machine.old machine.new }
    ensures taken { IsTrue M.tells → TakesAtMost image_limit (M.taken machine.old) (M.taken machine.new) }
{
    let Some(size) = size_within(machine, &path, FILE_LIMIT)? else {
        return Ok(None);
    };
    let file = path.copy(alloc)?;
    keep_entry(uki_item(alloc, machine, &file, size, path))
}

// The path of a file of that name directly in a folder, unless it is no path of a boot file.
fn path_of_name(alloc: Global, folder: &BootPath, name: &FileName) -> Result<BootPath, PathFault>
    ensures path { IfOk result (λ path. own_path (under folder.now name.now) ≡ Some path) }
    ensures name { IfOk result (λ path. file_name_of path ≡ name.now) }
    ensures bad { result ≡ Err PathFault.BadPath → own_path (under folder.now name.now) ≡ None }
{
    folder.know_normal();
    BootPath::under(alloc, folder, name.as_str())
}

// The entry of the file of a type at a path, None where there is no valid one.
fn entry_at<M: Machine>(
    alloc: Global,
    machine: &mut M,
    suffix: Suffix,
    path: BootPath,
) -> Result<Option<MenuItem>, ReadFault>
    requires { has_suffix suffix (file_name_of path) ≡ true }
    ensures exact { IfOk result (λ item. IsTrue M.tells → item ≡ entry_at suffix (M.state machine.old).files path) }
    ensures looks { Looks M.tells M.time M.state M.counts (CountsRead result) machine.old machine.new }
    ensures taken { IsTrue M.tells → TakesAtMost (read_limit suffix) (M.taken machine.old) (M.taken machine.new) }
{
    match suffix {
        Suffix::Conf => text_at(alloc, machine, path),
        Suffix::Efi => image_at(alloc, machine, path),
    }
}

/// The entry of the file of that name directly in the folder of its type, None where it is no entry.
pub(crate) fn entry_named<M: Machine>(
    alloc: Global,
    machine: &mut M,
    folder: &BootPath,
    suffix: Suffix,
    name: &FileName,
) -> Result<Option<MenuItem>, ReadFault>
    requires { has_suffix suffix name.now ≡ true }
    ensures exact { IfOk result (λ item. IsTrue M.tells
        → item ≡ entry_if suffix (M.state machine.old).files (under folder.now name.now)) }
    ensures looks { Looks M.tells M.time M.state M.counts (CountsRead result) machine.old machine.new }
    ensures taken { IsTrue M.tells → TakesAtMost (read_limit suffix) (M.taken machine.old) (M.taken machine.new) }
{
    match path_of_name(alloc, folder, name) {
        Ok(path) => entry_at(alloc, machine, suffix, path),
        Err(PathFault::BadPath) => Ok(None),
        Err(PathFault::Memory) => Err(ReadFault::Memory),
    }
}
