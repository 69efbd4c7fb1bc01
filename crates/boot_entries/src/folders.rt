//! The two folders of boot entries.
ghost use Rattle.std.specs.Prelude.{◌≡◌, IfOk, None, Some};
ghost use Rattle.boot_entries.specs.Entries.{esp_folders};

use boot_base::{BootPath, ENTRIES, IMAGES, PathFault};
use std::alloc::Global;

/// Where the boot entries of an EFI system partition stand (UAPI Boot Loader Specification).
#[derive(Debug, Drop)]
pub struct Folders {
    /// `loader/entries`, with the entries of type 1.
    pub entries: BootPath,
    /// `EFI/Linux`, with those of type 2.
    pub images: BootPath,
}

impl Folders {
    /// No command calls it, but `scan`: the folders of the partition that stands at a path.
    ///
    /// # Errors
    ///
    /// `BadPath` exactly if one of them is no path; `Memory` if there is no memory.
    pub fn of(alloc: Global, esp: &BootPath) -> Result<Folders, PathFault>
        ensures ok { IfOk result (λ folders. esp_folders esp.now ≡ Some folders) }
        ensures bad { result ≡ Err PathFault.BadPath → esp_folders esp.now ≡ None }
    {
        let entries = BootPath::under(alloc, esp, ENTRIES)?;
        let images = BootPath::under(alloc, esp, IMAGES)?;
        Ok(Folders { entries, images })
    }
}
