//! Entries of unified kernel images.
ghost use Rattle.std.specs.Prelude.{◌≡◌, ◌≤◌, ◌<◌, ◌+◌, ◌^◌, ℕ, List, IfOk, IfErr, IsTrue, Ok, true, drop, length, replicate, option_copied};
ghost use Rattle.boot_base.specs.Limits.{file_limit, text_limit};
ghost use Rattle.boot_base.specs.Paths.{file_name_of};
ghost use Rattle.boot_machine.specs.Prelude.{Counts, Looks, TakesAtMost, contents};
ghost use Rattle.menu_order.specs.Splits.{has_suffix};
ghost use Rattle.boot_entries.specs.Records.{titled_item, type2_item, uki_of};
ghost use Rattle.pe_reader.specs.Prelude.{bytes_in, pe_of, headers_of};
ghost use Rattle.boot_entries.specs.Items.{CountsItem, GivesItem, IsUnread};
ghost use Rattle.boot_entries.specs.Ranges.{IsRange, FindsOsrel};
ghost use Rattle.boot_entries.specs.Scanning.{image_limit};

use crate::fault::{ItemFault, Missing};
use crate::name::split_name;
use boot_base::{BootPath, Bytes, BytesList, TEXT_LIMIT};
use boot_machine::{Machine, read_part, zeros};
use boot_texts::OsRelease;
use menu_order::{MenuItem, Suffix, copy_option};
use pe_reader::{LoadedRange, Pe};
use std::alloc::{AllocError, Global};

/// The entry of a machine's file of type 2 of `size` bytes, as if the file stood at `path`. It reads the file's headers
/// and its os-release text: at most 134,999 bytes. Nothing is changed.
///
/// # Errors
///
/// `NotPe` exactly where the file is no PE32+ file; else `NotUki` exactly where the section `.linux` has no loaded
/// byte, `.osrel` hasn't 1 to 65,536 of them, or that text gives no title, with the first of these that is
/// missing; `Disk` only where the machine has counted a fault of the disk; `Memory` where there is no memory.
pub fn uki_item<M: Machine>(
    alloc: Global,
    machine: &mut M,
    file: &BootPath,
    size: u64,
    path: BootPath,
) -> Result<MenuItem, ItemFault>
    requires small { size ≤ file_limit }
    requires size { IsTrue M.tells → size ≡ length (contents (M.state machine.old).files file.now) }
    requires name { has_suffix Suffix.Efi (file_name_of path) ≡ true }
    ensures exact { IsTrue M.tells → GivesItem result (uki_of path (contents (M.state machine.old).files file.now)) }
    ensures looks { Looks M.tells M.time M.state M.counts (CountsItem result) machine.old machine.new }
    ensures taken { IsTrue M.tells → TakesAtMost image_limit (M.taken machine.old) (M.taken machine.new) }
{
    let head = Pe::read_head(alloc, machine, file, size)?;
    let range = osrel_range(&head)?;
    let text = range_bytes(alloc, machine, file, range)?;
    let release = OsRelease::read(alloc, &text)?;
    titled_item(alloc, path, &release)
}

// The entry of an os-release text, which has to give a title.
#[tactic(auto, unfolding(crate::specs::Records::titled_item))]
fn titled_item(alloc: Global, path: BootPath, release: &OsRelease) -> Result<MenuItem, ItemFault>
    requires { has_suffix Suffix.Efi (file_name_of path) ≡ true }
    ensures gives { GivesItem result (titled_item path release.now) }
    ensures counts { (counts : Counts) → CountsItem result counts counts }
{
    if release.title().is_none() {
        return Err(ItemFault::NotUki {
            missing: Missing::Title,
        });
    }
    Ok(type2_item(alloc, path, release)?)
}

// The entry of an os-release text.
fn type2_item(alloc: Global, path: BootPath, release: &OsRelease) -> Result<MenuItem, AllocError>
    requires { has_suffix Suffix.Efi (file_name_of path) ≡ true }
    ensures { IfOk result (λ item. item ≡ type2_item path release.now) }
{
    let (base, counter) = split_name(alloc, path.file_name(), Suffix::Efi)?;
    Ok(MenuItem {
        path,
        suffix: Suffix::Efi,
        base,
        counter,
        title: copy_option(alloc, release.title())?,
        version: copy_option(alloc, release.version())?,
        sort_key: copy_option(alloc, release.sort_key())?,
        machine_id: None,
        linux: None,
        efi: None,
        initrds: BytesList::new(alloc),
        options: BytesList::new(alloc),
    })
}

// Where the loaded bytes of the first section of that name stand, nowhere where there is no such section.
fn range_named(head: &Pe, name: &[u8]) -> LoadedRange
    ensures range { (file : List ℕ) → pe_of file ≡ Ok (headers_of head.now) → IsRange file name.now result }
    ensures small { (result.place < 2 ^ 32) × (result.length + result.zeros < 2 ^ 32) }
{
    match head.find(name) {
        Some(index) => head.loaded_range(index),
        None => LoadedRange {
            place: 0,
            length: 0,
            zeros: 0,
        },
    }
}

/// Where the os-release text of an image stands.
///
/// # Errors
///
/// `Linux` exactly where the section `.linux` has no loaded byte, else `Osrel` exactly where `.osrel` hasn't 1
/// to 65,536 of them.
pub(crate) fn osrel_range(head: &Pe) -> Result<LoadedRange, Missing>
    ensures finds { (file : List ℕ) → pe_of file ≡ Ok (headers_of head.now) → FindsOsrel file result }
    ensures small { IfOk result (λ range. (range.place < 2 ^ 32) × (range.length + range.zeros ≤ text_limit)) }
{
    let linux = range_named(head, b".linux");
    if linux.length + linux.zeros == 0 {
        return Err(Missing::Linux);
    }
    let osrel = range_named(head, b".osrel");
    let count = osrel.length + osrel.zeros;
    if count == 0 || count > TEXT_LIMIT {
        return Err(Missing::Osrel);
    }
    Ok(osrel)
}

/// The bytes of a machine's file in a range that lies in it.
pub(crate) fn range_bytes<M: Machine>(
    alloc: Global,
    machine: &mut M,
    file: &BootPath,
    range: LoadedRange,
) -> Result<Vec<u8>, ItemFault>
    requires place { range.place < 2 ^ 32 }
    requires short { range.length + range.zeros ≤ text_limit }
    ensures bytes { IfOk result (λ bytes. IsTrue M.tells
        → range.length ≤ length (drop range.place (contents (M.state machine.old).files file.now))
        → bytes.items ≡ bytes_in (contents (M.state machine.old).files file.now) range) }
    ensures unread { IfErr result IsUnread }
    ensures looks { Looks M.tells M.time M.state M.counts (CountsItem result) machine.old machine.new }
    ensures taken { IsTrue M.tells → TakesAtMost text_limit (M.taken machine.old) (M.taken machine.new) }
{
    let mut bytes = zeros(alloc, range.length as usize)?;
    read_part(machine, file.file(), range.place, &mut bytes)?;
    let rest = zeros(alloc, range.zeros as usize)?;
    bytes.extend_from_slice(&rest)?;
    Ok(bytes)
}
