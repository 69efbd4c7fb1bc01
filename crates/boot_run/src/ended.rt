//! How a run comes to its end.
ghost use Rattle.std.specs.Prelude.{◌≡◌};
ghost use Rattle.boot_run.specs.Endings.{ended_by, status_of};

use command_plans::RunError;

/// The end of a run.
#[derive(Clone, Copy, Debug, PartialEq, Eq)]
pub enum Ended {
    /// All was done, and no reply is a refusal.
    Done,
    /// All was done, and some reply is a refusal.
    Refused,
    /// The words are no command, and the whole usage line is printed.
    Usage,
    /// The disk failed.
    Disk,
    /// A pipe failed.
    Pipe,
    /// There was no memory.
    Memory,
}

impl Ended {
    /// The status that the program ends with, from 0 to 5.
    pub fn status(self) -> u8
        ensures { result ≡ status_of self }
    {
        match self {
            Ended::Done => 0,
            Ended::Refused => 1,
            Ended::Usage => 2,
            Ended::Disk => 3,
            Ended::Pipe => 4,
            Ended::Memory => 5,
        }
    }

    /// The end of a run whose lines came to this: whether some reply is a refusal, or what stopped them.
    pub fn of_lines(lines: Result<bool, RunError>) -> Ended
        ensures { result ≡ ended_by lines }
    {
        match lines {
            Ok(false) => Ended::Done,
            Ok(true) => Ended::Refused,
            Err(RunError::Disk) => Ended::Disk,
            Err(RunError::Pipe) => Ended::Pipe,
            Err(RunError::Memory) => Ended::Memory,
        }
    }
}
