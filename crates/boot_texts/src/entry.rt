//! Type 1 entries.
ghost use Rattle.std.specs.Prelude.{◌≡◌, ◌↔◌, ◌≤◌, ◌<◌, false, true, length, IfOk};
ghost use Rattle.boot_base.specs.Limits.{text_limit};
ghost use Rattle.boot_texts.specs.BootEntries.{boots, type1_of};

use crate::entry_line::last_value;
use crate::entry_values::{all_copies, last_copy};
use boot_base::{Bytes, BytesList, TEXT_LIMIT};
use std::alloc::{AllocError, Global};
use thiserror::Error;

/// Why a file is no entry.
#[derive(Debug, PartialEq, Eq, Drop, Error)]
pub enum EntryFault {
    /// There was no memory for it.
    #[error("out of memory")]
    Memory,
    /// The file has more than 65,536 bytes.
    #[error("too long")]
    TooLong,
    /// The file names neither a kernel nor an EFI program.
    #[error("nothing to boot")]
    NothingToBoot,
}

impl From<AllocError> for EntryFault {
    ghost use Rattle.std.specs.Prelude.{◌≡◌};
    ghost use Rattle.boot_texts.specs.declared.entry.EntryFault.TheVariants.{Memory};

    ghost from_gives = { λ _ fault. fault ≡ Memory };

    fn from(_error: AllocError) -> EntryFault {
        EntryFault::Memory
    }
}

/// What a type 1 entry file says, by the Boot Loader Specification: the value of each key, that of the last
/// line that has one, and of `initrd` and `options` all values in order. Values are bytes as they stand in
/// the file; none is empty.
#[derive(Debug, Drop)]
pub struct Type1 {
    /// The title that is shown.
    pub title: Option<Bytes>,
    /// The version of the kernel or the system.
    pub version: Option<Bytes>,
    /// The machine identifier, of the key `machine-id`.
    pub machine_id: Option<Bytes>,
    /// What entries are ordered by, of the key `sort-key`.
    pub sort_key: Option<Bytes>,
    /// The path of the kernel.
    pub linux: Option<Bytes>,
    /// The path of the EFI program.
    pub efi: Option<Bytes>,
    /// The paths of the initrds, of the key `initrd`.
    pub initrds: BytesList,
    /// The words of the command line, line by line.
    pub options: BytesList,
    /// The path of the device tree.
    pub devicetree: Option<Bytes>,
    /// The paths of the device tree's overlays, of the key `devicetree-overlay`.
    pub overlay: Option<Bytes>,
    /// The architecture that the entry is for.
    pub architecture: Option<Bytes>,
}

impl Type1 {
    /// The entry of a file's bytes. Lines without a value and unknown keys are passed over.
    ///
    /// # Errors
    ///
    /// `TooLong` exactly where there are more than 65,536 bytes, else `NothingToBoot` exactly where neither
    /// `linux` nor `efi` has a value; `Memory` where there is no memory for the entry.
    pub fn read(alloc: Global, bytes: &[u8]) -> Result<Type1, EntryFault>
        ensures ok { IfOk result (λ entry. entry ≡ type1_of bytes.now) }
        ensures valid { IfOk result (λ _. (length bytes.now ≤ text_limit) × (boots bytes.now ≡ true)) }
        ensures too_long { (result ≡ Err EntryFault.TooLong) ↔ (text_limit < length bytes.now) }
        ensures nothing_to_boot { (result ≡ Err EntryFault.NothingToBoot)
            ↔ ((length bytes.now ≤ text_limit) × (boots bytes.now ≡ false)) }
    {
        if bytes.len() as u64 > TEXT_LIMIT {
            return Err(EntryFault::TooLong);
        }
        if !says_what_to_boot(bytes) {
            return Err(EntryFault::NothingToBoot);
        }
        Ok(entry_of(alloc, bytes)?)
    }
}

// The file names a kernel or an EFI program.
fn says_what_to_boot(bytes: &[u8]) -> bool
    ensures { result ≡ boots bytes.now }
{
    last_value(bytes, "linux").is_some() || last_value(bytes, "efi").is_some()
}

// What the file says, whether or not it says what to boot.
fn entry_of(alloc: Global, bytes: &[u8]) -> Result<Type1, AllocError>
    ensures { IfOk result (λ entry. entry ≡ type1_of bytes.now) }
{
    Ok(Type1 {
        title: last_copy(alloc, bytes, "title")?,
        version: last_copy(alloc, bytes, "version")?,
        machine_id: last_copy(alloc, bytes, "machine-id")?,
        sort_key: last_copy(alloc, bytes, "sort-key")?,
        linux: last_copy(alloc, bytes, "linux")?,
        efi: last_copy(alloc, bytes, "efi")?,
        initrds: all_copies(alloc, bytes, "initrd")?,
        options: all_copies(alloc, bytes, "options")?,
        devicetree: last_copy(alloc, bytes, "devicetree")?,
        overlay: last_copy(alloc, bytes, "devicetree-overlay")?,
        architecture: last_copy(alloc, bytes, "architecture")?,
    })
}
