//! What rows are about.
ghost use Rattle.std.specs.Prelude.{◌≤◌, length};
ghost use Rattle.boot_base.specs.Limits.{file_limit};

use crate::fault::RowFault;
use boot_base::{BootPath, FILE_LIMIT, PathFault};
use memory_machine::{FailMode, MemFile, MemMachine};
use std::alloc::Global;

#[derive(Drop)]
pub(crate) struct Case {
    file: Vec<u8>,
    /// The new `.sbat`.
    pub(crate) sbat: Vec<u8>,
    /// Which call of the next machine fails.
    pub(crate) failing: Option<u64>,
    ghost small: { length file.items ≤ file_limit },
}

/// Where the file stands in a machine.
pub(crate) fn file_path(alloc: Global) -> Result<BootPath, PathFault> {
    BootPath::read(alloc, "u.efi")
}

impl Case {
    /// An empty file, without a new `.sbat` and parts.
    pub(crate) fn new(alloc: Global) -> Case {
        Case {
            file: Vec::new(alloc),
            sbat: Vec::new(alloc),
            failing: None,
        }
    }

    /// The file's bytes.
    pub(crate) fn file(&self) -> &[u8]
        ensures { length result.now ≤ file_limit }
    {
        &self.file
    }

    /// From now on this is the file.
    pub(crate) fn set_file(&mut self, bytes: Vec<u8>) -> Result<(), RowFault> {
        if bytes.len() as u64 > FILE_LIMIT {
            return Err(RowFault::Unclear);
        }
        self.file = bytes;
        Ok(())
    }

    /// A machine with the file.
    pub(crate) fn machine(&mut self, alloc: Global) -> Result<MemMachine, RowFault> {
        let path = file_path(alloc)?.into_file();
        let bytes = self.file.as_slice().to_vec(alloc)?;
        let mut machine = MemMachine::new(alloc, vec![in alloc; MemFile { path, bytes }]?)?;
        if let Some(call) = self.failing.take() {
            machine.fail_at(call, FailMode::Before)?;
        }
        Ok(machine)
    }
}
