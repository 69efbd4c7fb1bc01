//! The standard streams, and what stands in for those that are closed.
use std::fs;
use std::fs::File;
use std::os::fd::AsRawFd;
use std::rt::Files;

/// The last descriptor that is a standard stream's.
const LAST_STREAM: i32 = 2;

/// Open folders in place of the standard streams that are closed, so that no file which is opened later is
/// printed into: a folder can be neither read nor written.
#[derive(Drop)]
pub(crate) struct StandIns {
    first: Option<File>,
    second: Option<File>,
    third: Option<File>,
}

impl StandIns {
    pub(crate) fn new<R: Files<File = File>>(rt: &R) -> Self {
        let first = stand_in(rt);
        let second = if first.is_some() { stand_in(rt) } else { None };
        let third = if second.is_some() { stand_in(rt) } else { None };
        StandIns {
            first,
            second,
            third,
        }
    }
}

// A descriptor opens at the lowest free number.
fn stand_in<R: Files<File = File>>(rt: &R) -> Option<File> {
    let file = fs::open(rt, "/").ok()?;
    if file.as_raw_fd() <= LAST_STREAM {
        Some(file)
    } else {
        None
    }
}
