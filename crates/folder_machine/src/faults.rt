//! How often the system has failed.
ghost use Rattle.std.specs.Prelude.{◌≡◌, IfErr, IfOk};
ghost use Rattle.std.specs.IoError.{error_kind};
ghost use Rattle.boot_machine.specs.Prelude.{CountsDisk, CountsPipe, DiskFailsOnce, PipeFailsOnce, DiskFailed, PipeFailed};
ghost use Rattle.folder_machine.specs.Told.{CountsCall, CountsDiskOnce, CountsPipeOnce, says_other_run};

use boot_machine::{DiskFault, PipeFault};
use std::io;
use std::io::ErrorKind;

/// How often the system has failed so far. The counts stand still at the last value of their type.
#[derive(Drop)]
pub(crate) struct Faults {
    pub(crate) disk: u64,
    pub(crate) pipe: u64,
    /// whether the disk's last failure was that another run is in the way
    pub(crate) is_other_run: bool,
}

impl Faults {
    // Counts a failure of the disk.
    pub(crate) fn disk_failed(&mut self)
        ensures call { CountsCall DiskFailed DiskFailsOnce self.old self.new }
    {
        self.disk = self.disk.saturating_add(1);
    }

    // Counts a failure of a pipe.
    fn pipe_failed(&mut self)
        ensures call { CountsCall PipeFailed PipeFailsOnce self.old self.new }
    {
        self.pipe = self.pipe.saturating_add(1);
    }

    // Passes an answer of the disk on, and counts a failure.
    pub(crate) fn disk<T: Drop>(&mut self, answer: io::Result<T>) -> Result<T, DiskFault>
        ensures call { CountsCall (CountsDisk result) (CountsDiskOnce result) self.old self.new }
        ensures value { IfOk result (λ value. answer ≡ Ok value) }
        ensures cause { IfErr answer (λ error. self.new.is_other_run ≡ says_other_run (error_kind error)) }
    {
        match answer {
            Ok(value) => Ok(value),
            Err(error) => {
                self.disk_failed();
                self.is_other_run = is_other_run(&error);
                Err(DiskFault)
            }
        }
    }

    // Passes an answer of a pipe on, and counts a failure.
    pub(crate) fn pipe<T: Drop>(&mut self, answer: io::Result<T>) -> Result<T, PipeFault>
        ensures call { CountsCall (CountsPipe result) (CountsPipeOnce result) self.old self.new }
        ensures value { IfOk result (λ value. answer ≡ Ok value) }
    {
        match answer {
            Ok(value) => Ok(value),
            Err(_) => {
                self.pipe_failed();
                Err(PipeFault)
            }
        }
    }
}

// Whether a call has failed since another run is in the way.
fn is_other_run(error: &io::Error) -> bool
    ensures { result ≡ says_other_run (error_kind error.now) }
{
    matches!(error.kind(), ErrorKind::WouldBlock)
}
