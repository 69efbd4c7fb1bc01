//! Temporary files that another run makes or removes meanwhile.
use super::handle::{Ran, SharedShelf, Trouble, at_work, run_line, run_told};
use super::shelf::Shelf;
use super::start;
use super::syncs::says;
use folder_calls::{Access, Hold};
use std::alloc::Global;
use std::io;
use std::process::Abort;
use std::test::Fail;

/// Commands, and the path of a temporary file that each meets.
const LINES: [(&str, &str); 3] = [
    ("tidy", "efi/EFI/Linux/gone.efi.tmp"),
    ("loader set-timeout 7", "efi/loader/loader.conf.tmp"),
    ("install in/new.efi six", "efi/EFI/Linux/six.efi.tmp"),
];

/// Before the call of that number a file comes to a path, or goes.
#[derive(Drop)]
struct Meets<'a> {
    alloc: Global,
    call: u64,
    path: &'a str,
    comes: bool,
}

impl Trouble for Meets<'_> {
    fn come(&self, call: u64, shelf: &SharedShelf) -> io::Result<()> {
        let mut shelf = at_work(shelf)?;
        match (self.comes, shelf.has_file(self.path)) {
            _ if call != self.call => Ok(()),
            (true, false) => Ok(shelf.put_file(self.path, Vec::new(self.alloc))?),
            (false, true) => remove_unheld(&mut shelf, self.path),
            _ => Ok(()),
        }
    }
}

// Removes a file as another run does: by a lock on it, unless that is held.
fn remove_unheld(shelf: &mut Shelf, path: &str) -> io::Result<()> {
    let file = shelf.open(path, Access::Append)?;
    if shelf.lock(&file, Hold::Alone).is_ok() {
        shelf.take_away(path);
    }
    Ok(())
}

// A temporary file that a stopped run has left.
fn start_with(alloc: Global, path: &str) -> io::Result<SharedShelf> {
    let shelf = start(alloc)?;
    at_work(&shelf)?.put_file(path, Vec::new(alloc))?;
    Ok(shelf)
}

// Whether a run was done, or ended with 3 and said that another run was met.
fn tells_why(alloc: Global, ran: &Ran) -> io::Result<bool> {
    Ok(ran.status == 0 || ran.status == 3 && says(alloc, ran, "another run")?)
}

// The file comes, or goes, at each call of each command.
fn meet_at_each_call(rt: &impl Abort, alloc: Global, comes: bool) -> Result<(), Fail> {
    for (line, path) in LINES {
        let usual = run_line(alloc, &start_with(alloc, path)?, line)?;
        assert_eq!(rt; usual.status, 0, "{line}");
        for call in 0..usual.calls {
            let shelf = start_with(alloc, path)?;
            let meets = Meets {
                alloc,
                call,
                path,
                comes,
            };
            let ran = run_told(alloc, &shelf, line, meets, true)?;
            assert!(rt; tells_why(alloc, &ran)?, "{line}: call {call}");
        }
    }
    Ok(())
}

// A run ended with "no such file" when another one had removed the leftover, and nobody tried again.
#[test]
fn a_leftover_that_goes_was_removed_by_another_run(rt: HostRuntime) -> Result<(), Fail> {
    meet_at_each_call(&rt, rt.alloc(), false)
}

// It ended with "file exists" when another one had made its own in place of the leftover.
#[test]
fn a_second_temporary_file_is_of_another_run(rt: HostRuntime) -> Result<(), Fail> {
    meet_at_each_call(&rt, rt.alloc(), true)
}
