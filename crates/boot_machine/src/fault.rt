//! Why nothing was read.
ghost use Rattle.std.specs.Prelude.{◌≡◌};
ghost use Rattle.boot_machine.specs.declared.fault.ReadFault.TheVariants as reads;

use crate::machine::DiskFault;
use std::alloc::AllocError;

/// Why nothing was read.
#[derive(Clone, Copy, Debug, PartialEq, Eq)]
pub enum ReadFault {
    /// There was no memory for it.
    Memory,
    /// The disk failed, and the machine has counted it.
    Disk,
}

impl From<AllocError> for ReadFault {
    ghost from_gives = { λ _ fault. fault ≡ reads.Memory };

    fn from(_error: AllocError) -> ReadFault {
        ReadFault::Memory
    }
}

impl From<DiskFault> for ReadFault {
    ghost from_gives = { λ _ fault. fault ≡ reads.Disk };

    fn from(_fault: DiskFault) -> ReadFault {
        ReadFault::Disk
    }
}
