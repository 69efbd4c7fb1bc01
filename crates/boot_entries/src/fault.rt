//! Why a file is no entry, and why there is no menu.
ghost use Rattle.std.specs.Prelude.{◌≡◌};
ghost use Rattle.boot_entries.specs.Items.{item_fault};
ghost use Rattle.boot_entries.specs.Missing.{missing_text};
ghost use Rattle.boot_entries.specs.Scanning.{fault_of_menu, fault_of_path, menu_fault};
ghost use Rattle.boot_entries.specs.declared.fault.ItemFault.TheVariants as faults;
ghost use Rattle.boot_entries.specs.declared.fault.MenuFault.TheVariants as menus;

use boot_base::PathFault;
use boot_machine::{DiskFault, ReadFault};
use pe_reader::{HeadFault, PeReason};
use std::alloc::AllocError;
use thiserror::Error;

/// What a PE32+ file lacks to be a unified kernel image that is shown in the menu.
#[derive(Clone, Copy, Debug, PartialEq, Eq)]
pub enum Missing {
    /// The section `.linux` with at least one loaded byte.
    Linux,
    /// The section `.osrel` with 1 to 65,536 loaded bytes.
    Osrel,
    /// A title in the os-release text.
    Title,
}

impl Missing {
    /// Its name.
    pub fn as_str(self) -> &'static str
        ensures { result.now ≡ missing_text self }
    {
        match self {
            Missing::Linux => ".linux",
            Missing::Osrel => ".osrel",
            Missing::Title => "title",
        }
    }
}

/// Why a machine's file is no entry of type 2.
#[derive(Clone, Copy, Debug, PartialEq, Eq, Error)]
pub enum ItemFault {
    /// There was no memory for the entry.
    #[error("out of memory")]
    Memory,
    /// The disk failed, and the machine has counted it.
    #[error("disk fault")]
    Disk,
    /// The file is no PE32+ file: what the first failing check is about, and the place in bytes.
    #[error("not a PE32+ file: {reason} at {offset}")]
    NotPe { reason: PeReason, offset: u64 },
    /// The file is no unified kernel image with a title.
    #[error("not a unified kernel image")]
    NotUki { missing: Missing },
}

impl From<AllocError> for ItemFault {
    ghost from_gives = { λ _ fault. fault ≡ faults.Memory };

    fn from(_error: AllocError) -> ItemFault {
        ItemFault::Memory
    }
}

impl From<DiskFault> for ItemFault {
    ghost from_gives = { λ _ fault. fault ≡ faults.Disk };

    fn from(_fault: DiskFault) -> ItemFault {
        ItemFault::Disk
    }
}

impl From<Missing> for ItemFault {
    ghost from_gives = { λ missing fault. fault ≡ faults.NotUki missing };

    fn from(missing: Missing) -> ItemFault {
        ItemFault::NotUki { missing }
    }
}

impl From<HeadFault> for ItemFault {
    ghost from_gives = { λ error fault. fault ≡ item_fault error };

    fn from(error: HeadFault) -> ItemFault {
        match error {
            HeadFault::Memory => ItemFault::Memory,
            HeadFault::Disk => ItemFault::Disk,
            HeadFault::NotPe { reason, offset } => ItemFault::NotPe { reason, offset },
        }
    }
}

/// Why there is no menu of two folders.
#[derive(Clone, Copy, Debug, PartialEq, Eq, Error)]
pub enum MenuFault {
    /// There was no memory for the menu.
    #[error("out of memory")]
    Memory,
    /// The disk failed, and the machine has counted it.
    #[error("disk fault")]
    Disk,
    /// There are more entry files than are read, and how many there are.
    #[error("{count} entries")]
    TooMany { count: u64 },
}

impl From<AllocError> for MenuFault {
    ghost from_gives = { λ _ fault. fault ≡ menus.Memory };

    fn from(_error: AllocError) -> MenuFault {
        MenuFault::Memory
    }
}

impl From<ReadFault> for MenuFault {
    ghost from_gives = { λ error fault. fault ≡ menu_fault error };

    fn from(error: ReadFault) -> MenuFault {
        match error {
            ReadFault::Memory => MenuFault::Memory,
            ReadFault::Disk => MenuFault::Disk,
        }
    }
}

/// Why there is no menu of a partition.
#[derive(Clone, Copy, Debug, PartialEq, Eq, Error)]
pub enum ScanFault {
    /// There was no memory for the menu.
    #[error("out of memory")]
    Memory,
    /// The disk failed, and the machine has counted it.
    #[error("disk fault")]
    Disk,
    /// A folder of its entries has no path.
    #[error("the folders of entries have no path")]
    LongEsp,
    /// There are more entry files than are read, and how many there are.
    #[error("{count} entries")]
    TooMany { count: u64 },
}

impl From<PathFault> for ScanFault {
    ghost from_gives = { λ error fault. fault ≡ fault_of_path error };

    fn from(error: PathFault) -> ScanFault {
        match error {
            PathFault::Memory => ScanFault::Memory,
            PathFault::BadPath => ScanFault::LongEsp,
        }
    }
}

impl From<MenuFault> for ScanFault {
    ghost from_gives = { λ error fault. fault ≡ fault_of_menu error };

    fn from(error: MenuFault) -> ScanFault {
        match error {
            MenuFault::Memory => ScanFault::Memory,
            MenuFault::Disk => ScanFault::Disk,
            MenuFault::TooMany { count } => ScanFault::TooMany { count },
        }
    }
}
