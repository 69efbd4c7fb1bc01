//! Why a story isn't told to its end, or a line of it isn't understood.
use boot_base::PathFault;
use boot_machine::{DiskFault, ReadFault};
use std::alloc::{AllocError, AllocFailed};
use std::io;
use tool_words::LineFault;

#[derive(Clone, Copy, Debug)]
pub(crate) enum StoryFault {
    /// A line isn't understood.
    Unclear,
    /// There is no memory.
    Memory,
    /// A file isn't read or written, or a folder isn't read.
    Disk,
    /// Standard input isn't read, or standard output isn't written.
    Pipe,
}

impl From<AllocError> for StoryFault {
    fn from(_: AllocError) -> Self {
        StoryFault::Memory
    }
}

impl<T: Drop> From<AllocFailed<T>> for StoryFault {
    fn from(_: AllocFailed<T>) -> Self {
        StoryFault::Memory
    }
}

impl From<PathFault> for StoryFault {
    fn from(fault: PathFault) -> Self {
        match fault {
            PathFault::Memory => StoryFault::Memory,
            PathFault::BadPath => StoryFault::Unclear,
        }
    }
}

impl From<LineFault> for StoryFault {
    fn from(fault: LineFault) -> Self {
        match fault {
            LineFault::Memory => StoryFault::Memory,
            LineFault::OpenQuote => StoryFault::Unclear,
        }
    }
}

impl From<ReadFault> for StoryFault {
    fn from(fault: ReadFault) -> Self {
        match fault {
            ReadFault::Memory => StoryFault::Memory,
            ReadFault::Disk => StoryFault::Disk,
        }
    }
}

impl From<DiskFault> for StoryFault {
    fn from(_: DiskFault) -> Self {
        StoryFault::Disk
    }
}

impl From<io::Error> for StoryFault {
    fn from(_: io::Error) -> Self {
        StoryFault::Pipe
    }
}
