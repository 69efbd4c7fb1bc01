//! What is told on standard error: each call that failed.
ghost use Rattle.std.specs.Prelude.{◌≡◌, false};

use crate::writes::write_all_bytes;
use std::io;

/// Standard error, and whether each failure is told there.
#[derive(Drop)]
pub struct Reports<E: Print + Drop> {
    err: E,
    are_wanted: bool,
}

impl<E: Print + Drop> Reports<E> {
    /// Nothing is told.
    pub fn new(err: E) -> Self
        ensures { result ≡ record { err = err; are_wanted = false } }
    {
        Reports {
            err,
            are_wanted: false,
        }
    }

    /// Whether failures are told from now on.
    pub fn want(&mut self, are_wanted: bool)
        ensures { self.new ≡ record self.old { are_wanted = are_wanted } }
    {
        self.are_wanted = are_wanted;
    }

    /// Writes all of the bytes to standard error.
    pub fn print(&self, bytes: &[u8]) -> io::Result<()> {
        write_all_bytes(&mut io::writer(&self.err), bytes)
    }

    /// Passes an answer on, and tells of a failure: which call, on what path, and the system's own words. No
    /// memory is taken for it, and whether it can be printed changes nothing.
    pub fn report<T: Drop>(&self, call: &str, path: &str, answer: io::Result<T>) -> io::Result<T>
        ensures { result ≡ answer }
    {
        if let Err(error) = &answer {
            self.tell(call, path, error);
        }
        answer
    }

    /// Tells of one failure. A call on no one path is told without it.
    pub fn tell(&self, call: &str, path: &str, error: &io::Error) {
        if self.are_wanted {
            let space = if path.is_empty() { "" } else { " " };
            let _ = self
                .err
                .println(format_args!("boot_tools: {call}{space}{path}: {error}"));
        }
    }

    /// Names the two files for which a call has failed, and says what to do if they only look like one.
    pub fn report_twins(&self, path: &str, other: &str) {
        if self.are_wanted {
            let _ = self.err.println(format_args!(
                "boot_tools: {path} and {other}: if the check finds nothing to mend, touch one of them"
            ));
        }
    }
}
