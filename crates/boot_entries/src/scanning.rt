//! The menu of the boot folders.
ghost use Rattle.std.specs.Prelude.{◌≡◌, ◌≤◌, ◌<◌, ◌*◌, ◌++◌, ◌↔◌, All, Contains, IfErr, IfOk, IfSome, IsTrue, OnOk, option_to_list, length, true};
ghost use Rattle.boot_base.specs.Paths.{under};
ghost use Rattle.menu_order.specs.Splits.{has_suffix};
ghost use Rattle.menu_order.specs.declared.counted.Suffix.TheVariants.{Conf, Efi};
ghost use Rattle.boot_entries.specs.Entries.{IsEntry, boot_menu, entry_count, entry_if, entry_limit, esp_folders};
ghost use Rattle.boot_entries.specs.Scanning.{AreEntryNames, CountsMenu, CountsScan, FindsFolders, entries_named, esp_limit, menu_many, read_limit, scan_limit, scan_many};
ghost use Rattle.boot_machine.specs.Prelude.{Looks, TakesAtMost, seen, CountsRead};
ghost use Rattle.menu_order.specs.Menu.{HaveOwnPaths, IsMenu};
ghost use Rattle.menu_order.specs.declared.item.MenuItem.{MenuItem};

use crate::entry::entry_named;
use crate::fault::{MenuFault, ScanFault};
use crate::folders::Folders;
use crate::names::{EntryNames, entry_names};
use crate::once::menu_of;
use boot_base::{BootPath, FileName};
use boot_machine::{Machine, ReadFault};
use menu_order::{MenuItem, Suffix};
use std::alloc::{AllocError, Global};

/// No command calls it: the menu of the EFI system partition at a path, for who doesn't know its folders. It is that of
/// `scan_folders`, and it reads no more.
///
/// # Errors
///
/// `LongEsp` exactly if one of the folders has no path; the others as of `scan_folders`.
pub fn scan<M: Machine>(
    alloc: Global,
    machine: &mut M,
    esp: &BootPath,
) -> Result<Vec<MenuItem>, ScanFault>
    ensures folders { FindsFolders result (esp_folders esp.now) }
    ensures menu { IfOk result (λ menu. IsTrue M.tells → IfSome (esp_folders esp.now)
        (λ folders. IsMenu (IsEntry (M.state machine.old).files folders) menu.items)) }
    ensures value { IfOk result (λ menu. IsTrue M.tells → IfSome (esp_folders esp.now)
        (λ folders. menu.items ≡ boot_menu (seen (M.state machine.old)) folders)) }
    ensures few { IfOk result (λ _. IsTrue M.tells → IfSome (esp_folders esp.now)
        (λ folders. entry_count (M.state machine.old).files folders ≤ 4096)) }
    ensures many { IfErr result (λ fault. scan_many fault (λ count. (entry_limit < count)
        × (IsTrue M.tells → IfSome (esp_folders esp.now)
        (λ folders. entry_count (M.state machine.old).files folders ≡ count)))) }
    ensures own_paths { IfOk result (λ menu. HaveOwnPaths menu.items) }
    ensures unread { IfErr result (λ fault. scan_many fault (λ _. IsTrue M.tells
        → M.taken machine.new ≡ M.taken machine.old)) }
    ensures looks { Looks M.tells M.time M.state M.counts (CountsScan result) machine.old machine.new }
    ensures taken { IsTrue M.tells → TakesAtMost
        (esp_limit (M.state machine.old).files (esp_folders esp.now)) (M.taken machine.old) (M.taken machine.new) }
{
    let folders = Folders::of(alloc, esp)?;
    Ok(scan_folders(alloc, machine, &folders)?)
}

/// The menu of the files in the two folders of boot entries: the entries of these files, in the order of the menu. A
/// file that is no valid entry is passed over. It reads at most 65,536 bytes of each file of type 1 and 134,999 of each
/// of type 2, and none before the files are counted. Nothing is changed.
///
/// # Errors
///
/// `TooMany` exactly if they have more than 4,096 entry files; `Disk` only if the machine has counted a fault of the
/// disk; `Memory` if there is no memory.
pub fn scan_folders<M: Machine>(
    alloc: Global,
    machine: &mut M,
    folders: &Folders,
) -> Result<Vec<MenuItem>, MenuFault>
    ensures menu { IfOk result (λ menu. IsTrue M.tells
        → IsMenu (IsEntry (M.state machine.old).files folders.now) menu.items) }
    ensures value { IfOk result (λ menu. IsTrue M.tells
        → menu.items ≡ boot_menu (seen (M.state machine.old)) folders.now) }
    ensures few { IfOk result (λ _. IsTrue M.tells → entry_count (M.state machine.old).files folders.now ≤ 4096) }
    ensures many { IfErr result (λ fault. menu_many fault (λ count.
        (entry_limit < count) × (IsTrue M.tells → entry_count (M.state machine.old).files folders.now ≡ count))) }
    ensures own_paths { IfOk result (λ menu. HaveOwnPaths menu.items) }
    ensures unread { IfErr result (λ fault. menu_many fault (λ _. IsTrue M.tells
        → M.taken machine.new ≡ M.taken machine.old)) }
    ensures looks { Looks M.tells M.time M.state M.counts (CountsMenu result) machine.old machine.new }
    ensures taken { IsTrue M.tells → TakesAtMost
        (scan_limit (M.state machine.old).files folders.now) (M.taken machine.old) (M.taken machine.new) }
{
    let names = entry_names(alloc, machine, folders)?;
    let items = entries(alloc, machine, folders, &names)?;
    Ok(menu_of(alloc, items)?)
}

// The entries of the files of these names.
fn entries<M: Machine>(
    alloc: Global,
    machine: &mut M,
    folders: &Folders,
    names: &EntryNames,
) -> Result<Vec<MenuItem>, ReadFault>
    requires text_suffix { All (λ name. has_suffix Conf name ≡ true) names.now.texts.items }
    requires image_suffix { All (λ name. has_suffix Efi name ≡ true) names.now.images.items }
    ensures entries { IfOk result (λ items. IsTrue M.tells
        → AreEntryNames (M.state machine.old).files folders.now.entries Conf names.now.texts.items
        → AreEntryNames (M.state machine.old).files folders.now.images Efi names.now.images.items
        → (item : MenuItem) → Contains items.items item ↔ IsEntry (M.state machine.old).files folders.now item) }
    ensures looks { Looks M.tells M.time M.state M.counts (CountsRead result) machine.old machine.new }
    ensures taken { IsTrue M.tells
        → AreEntryNames (M.state machine.old).files folders.now.entries Conf names.now.texts.items
        → AreEntryNames (M.state machine.old).files folders.now.images Efi names.now.images.items
        → TakesAtMost (scan_limit (M.state machine.old).files folders.now)
        (M.taken machine.old) (M.taken machine.new) }
{
    let (texts, images) = (names.texts.as_slice(), names.images.as_slice());
    let mut items = Vec::new(alloc);
    append_entries(
        alloc,
        machine,
        &folders.entries,
        Suffix::Conf,
        texts,
        &mut items,
    )?;
    append_entries(
        alloc,
        machine,
        &folders.images,
        Suffix::Efi,
        images,
        &mut items,
    )?;
    Ok(items)
}

// Puts the entries of the files of these names directly in the folder of their type behind `items`.
fn append_entries<M: Machine>(
    alloc: Global,
    machine: &mut M,
    folder: &BootPath,
    suffix: Suffix,
    names: &[FileName],
    items: &mut Vec<MenuItem>,
) -> Result<(), ReadFault>
    requires { All (λ name. has_suffix suffix name ≡ true) names.now }
    ensures entries { OnOk result (IsTrue M.tells
        → items.new.items ≡ items.old.items ++ entries_named suffix (M.state machine.old).files folder.now names.now) }
    ensures looks { Looks M.tells M.time M.state M.counts (CountsRead result) machine.old machine.new }
    ensures taken { IsTrue M.tells
        → TakesAtMost (read_limit suffix * length names.now) (M.taken machine.old) (M.taken machine.new) }
{
    for name in names {
        append_entry(alloc, machine, folder, suffix, name, items)?;
    }
    Ok(())
}

// Puts the entry of the file of that name directly in the folder of its type behind `items`, if it is one.
fn append_entry<M: Machine>(
    alloc: Global,
    machine: &mut M,
    folder: &BootPath,
    suffix: Suffix,
    name: &FileName,
    items: &mut Vec<MenuItem>,
) -> Result<(), ReadFault>
    requires { has_suffix suffix name.now ≡ true }
    ensures entry { OnOk result (IsTrue M.tells → items.new.items
        ≡ items.old.items ++ option_to_list (entry_if suffix (M.state machine.old).files (under folder.now name.now))) }
    ensures looks { Looks M.tells M.time M.state M.counts (CountsRead result) machine.old machine.new }
    ensures taken { IsTrue M.tells → TakesAtMost (read_limit suffix) (M.taken machine.old) (M.taken machine.new) }
{
    let item = entry_named(alloc, machine, folder, suffix, name)?;
    Ok(append_found(items, item)?)
}

// Puts an entry behind `items`, if it was found.
fn append_found(items: &mut Vec<MenuItem>, item: Option<MenuItem>) -> Result<(), AllocError>
    ensures { OnOk result (items.new.items ≡ items.old.items ++ option_to_list item) }
{
    if let Some(item) = item {
        items.push(item)?;
    }
    Ok(())
}
