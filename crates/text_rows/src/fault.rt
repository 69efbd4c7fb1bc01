//! What a call refuses, or why a row isn't told.
use boot_base::PathFault;
use boot_texts::EntryFault;
use std::alloc::{AllocError, AllocFailed};
use std::io;
use thiserror::Error;
use tool_words::LineFault;

#[derive(Clone, Copy, Debug, Error)]
pub(crate) enum RowFault {
    #[error("a row isn't understood")]
    Unclear,
    #[error("out of memory")]
    Memory,
    #[error("{}", PathFault::BadPath)]
    BadPath,
    #[error("{}", EntryFault::TooLong)]
    TooLong,
    #[error("{}", EntryFault::NothingToBoot)]
    NothingToBoot,
    #[error("{}", LineFault::OpenQuote)]
    OpenQuote,
    #[error("standard input isn't read, or standard output isn't written")]
    Pipe,
}

impl RowFault {
    // Whether the call has answered with it.
    pub(crate) fn is_answer(self) -> bool {
        matches!(
            self,
            RowFault::BadPath | RowFault::TooLong | RowFault::NothingToBoot | RowFault::OpenQuote
        )
    }
}

impl From<AllocError> for RowFault {
    fn from(_: AllocError) -> Self {
        RowFault::Memory
    }
}

impl<T: Drop> From<AllocFailed<T>> for RowFault {
    fn from(_: AllocFailed<T>) -> Self {
        RowFault::Memory
    }
}

impl From<PathFault> for RowFault {
    fn from(fault: PathFault) -> Self {
        match fault {
            PathFault::Memory => RowFault::Memory,
            PathFault::BadPath => RowFault::BadPath,
        }
    }
}

impl From<EntryFault> for RowFault {
    fn from(fault: EntryFault) -> Self {
        match fault {
            EntryFault::Memory => RowFault::Memory,
            EntryFault::TooLong => RowFault::TooLong,
            EntryFault::NothingToBoot => RowFault::NothingToBoot,
        }
    }
}

impl From<LineFault> for RowFault {
    fn from(fault: LineFault) -> Self {
        match fault {
            LineFault::Memory => RowFault::Memory,
            LineFault::OpenQuote => RowFault::OpenQuote,
        }
    }
}

impl From<io::Error> for RowFault {
    fn from(_: io::Error) -> Self {
        RowFault::Pipe
    }
}
