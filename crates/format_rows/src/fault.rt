//! Why the rows aren't told to their end, or one of them isn't understood.
use boot_base::PathFault;
use pe_builder::LayoutFault;
use pe_reader::PeFault;
use std::alloc::{AllocError, AllocFailed};
use std::io;

#[derive(Clone, Copy, Debug)]
pub(crate) enum RowFault {
    /// A line isn't understood.
    Unclear,
    /// There is no memory.
    Memory,
    /// There is no image.
    Layout(LayoutFault),
    /// Standard input isn't read, or standard output isn't written.
    Pipe,
}

impl From<AllocError> for RowFault {
    fn from(_: AllocError) -> Self {
        RowFault::Memory
    }
}

impl<T: Drop> From<AllocFailed<T>> for RowFault {
    fn from(_: AllocFailed<T>) -> Self {
        RowFault::Memory
    }
}

impl From<PathFault> for RowFault {
    fn from(fault: PathFault) -> Self {
        match fault {
            PathFault::Memory => RowFault::Memory,
            PathFault::BadPath => RowFault::Unclear,
        }
    }
}

impl From<PeFault> for RowFault {
    fn from(fault: PeFault) -> Self {
        match fault {
            PeFault::Memory => RowFault::Memory,
            PeFault::NotPe { .. } => RowFault::Unclear,
        }
    }
}

impl From<LayoutFault> for RowFault {
    fn from(fault: LayoutFault) -> Self {
        RowFault::Layout(fault)
    }
}

impl From<io::Error> for RowFault {
    fn from(_: io::Error) -> Self {
        RowFault::Pipe
    }
}
