//! Why a command that only reads may have nothing to say.

use crate::word_error::WordError;
use boot_base::Refusal;
use boot_machine::{DiskFault, ReadFault};
use std::alloc::{AllocError, AllocFailed};

/// Why a command that only reads has nothing to say.
#[derive(Debug, Drop)]
pub enum ReadError {
    /// There was no memory.
    Memory,
    /// The machine's disk failed.
    Disk,
    /// It is refused.
    Refused(Refusal),
}

impl From<AllocError> for ReadError {
    ghost use Rattle.std.specs.Prelude.{◌≡◌};
    ghost use Rattle.command_plans.specs.declared.read_error.ReadError.TheVariants as read_errors;

    ghost from_gives = { λ _ fault. fault ≡ read_errors.Memory };

    fn from(_: AllocError) -> ReadError {
        ReadError::Memory
    }
}

impl<T: Drop> From<AllocFailed<T>> for ReadError {
    ghost use Rattle.std.specs.Prelude.{◌≡◌};
    ghost use Rattle.command_plans.specs.declared.read_error.ReadError.TheVariants as read_errors;

    ghost from_gives = { λ _ fault. fault ≡ read_errors.Memory };

    fn from(_: AllocFailed<T>) -> ReadError {
        ReadError::Memory
    }
}

impl From<DiskFault> for ReadError {
    ghost use Rattle.std.specs.Prelude.{◌≡◌};
    ghost use Rattle.command_plans.specs.declared.read_error.ReadError.TheVariants as read_errors;

    ghost from_gives = { λ _ fault. fault ≡ read_errors.Disk };

    fn from(_: DiskFault) -> ReadError {
        ReadError::Disk
    }
}

impl From<ReadFault> for ReadError {
    ghost use Rattle.std.specs.Prelude.{◌≡◌};
    ghost use Rattle.command_plans.specs.ReadErrors.{read_error_of};

    ghost from_gives = { λ read fault. fault ≡ read_error_of read };

    fn from(read: ReadFault) -> ReadError {
        match read {
            ReadFault::Memory => ReadError::Memory,
            ReadFault::Disk => ReadError::Disk,
        }
    }
}

impl From<WordError> for ReadError {
    ghost use Rattle.std.specs.Prelude.{◌≡◌};
    ghost use Rattle.command_plans.specs.ReadErrors.{read_error_of_words};

    ghost from_gives = { λ word_error fault. fault ≡ read_error_of_words word_error };

    fn from(word_error: WordError) -> ReadError {
        match word_error {
            WordError::Memory => ReadError::Memory,
            WordError::Refused(why) => ReadError::Refused(why),
        }
    }
}
