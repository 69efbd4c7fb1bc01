//! What a command comes to, and why it comes to nothing.
ghost use Rattle.std.specs.Prelude.{◌≡◌};
ghost use Rattle.command_plans.specs.Prelude.{channel_of, is_refusal};

use boot_machine::{Channel, DiskFault, PipeFault, ReadFault};
use std::alloc::AllocError;

/// Whether a command was done, or refused with that number.
#[derive(Clone, Copy, Debug, PartialEq, Eq)]
pub enum Outcome {
    Done,
    Refused { number: u8 },
}

impl Outcome {
    /// Where the reply is printed: a refusal on Err, every other on Out.
    pub fn channel(self) -> Channel
        ensures { result ≡ channel_of self }
    {
        match self {
            Outcome::Done => Channel::Out,
            Outcome::Refused { .. } => Channel::Err,
        }
    }

    /// Whether the command was refused.
    pub fn is_refused(self) -> bool
        ensures { result ≡ is_refusal self }
    {
        match self {
            Outcome::Done => false,
            Outcome::Refused { .. } => true,
        }
    }
}

/// Why a command came to no outcome.
#[derive(Clone, Copy, Debug, PartialEq, Eq)]
pub enum RunError {
    /// A call of the machine's disk failed.
    Disk,
    /// A call of the machine's pipes failed.
    Pipe,
    /// There was no memory. Nothing was changed or printed.
    Memory,
}

/// A call of the machine failed. Nothing that ends so takes memory.
#[derive(Clone, Copy, Debug, PartialEq, Eq)]
pub enum MachineFault {
    /// A call of its disk.
    Disk,
    /// A call of its pipes.
    Pipe,
}

impl From<DiskFault> for MachineFault {
    ghost use Rattle.std.specs.Prelude.{◌≡◌};
    ghost use Rattle.command_plans.specs.declared.outcome.MachineFault.TheVariants as faults;

    ghost from_gives = { λ _ fault. fault ≡ faults.Disk };

    fn from(_: DiskFault) -> MachineFault {
        MachineFault::Disk
    }
}

impl From<PipeFault> for MachineFault {
    ghost use Rattle.std.specs.Prelude.{◌≡◌};
    ghost use Rattle.command_plans.specs.declared.outcome.MachineFault.TheVariants as faults;

    ghost from_gives = { λ _ fault. fault ≡ faults.Pipe };

    fn from(_: PipeFault) -> MachineFault {
        MachineFault::Pipe
    }
}

impl From<MachineFault> for RunError {
    ghost use Rattle.std.specs.Prelude.{◌≡◌};
    ghost use Rattle.command_plans.specs.Performs.{run_error_of};

    ghost from_gives = { λ fault error. error ≡ run_error_of fault };

    fn from(fault: MachineFault) -> RunError {
        match fault {
            MachineFault::Disk => RunError::Disk,
            MachineFault::Pipe => RunError::Pipe,
        }
    }
}

impl From<DiskFault> for RunError {
    ghost use Rattle.std.specs.Prelude.{◌≡◌};
    ghost use Rattle.command_plans.specs.declared.outcome.RunError.TheVariants as run_errors;

    ghost from_gives = { λ _ error. error ≡ run_errors.Disk };

    fn from(_: DiskFault) -> RunError {
        RunError::Disk
    }
}

impl From<PipeFault> for RunError {
    ghost use Rattle.std.specs.Prelude.{◌≡◌};
    ghost use Rattle.command_plans.specs.declared.outcome.RunError.TheVariants as run_errors;

    ghost from_gives = { λ _ error. error ≡ run_errors.Pipe };

    fn from(_: PipeFault) -> RunError {
        RunError::Pipe
    }
}

impl From<AllocError> for RunError {
    ghost use Rattle.std.specs.Prelude.{◌≡◌};
    ghost use Rattle.command_plans.specs.declared.outcome.RunError.TheVariants as run_errors;

    ghost from_gives = { λ _ error. error ≡ run_errors.Memory };

    fn from(_: AllocError) -> RunError {
        RunError::Memory
    }
}

impl From<ReadFault> for RunError {
    ghost use Rattle.std.specs.Prelude.{◌≡◌};
    ghost use Rattle.command_plans.specs.Performs.{run_error_of_read};

    ghost from_gives = { λ fault error. error ≡ run_error_of_read fault };

    fn from(fault: ReadFault) -> RunError {
        match fault {
            ReadFault::Memory => RunError::Memory,
            ReadFault::Disk => RunError::Disk,
        }
    }
}
