//! Which syncs a command makes on FAT, and in which order. On FAT the bytes of a renamed file are written with the file,
//! and not with its folder.
use super::fat::{NEW, OLD, has, put_intent};
use super::handle::{Ran, SharedShelf, Trouble, at_work, run_line, run_telling, run_with};
use super::{command_of, start};
use boot_base::INTENT;
use name_syncs::folder_of;
use std::alloc::Global;
use std::io;
use std::io::ErrorKind;
use std::test::Fail;

const IMAGES: &str = "efi/EFI/Linux";

/// Commands that look and change elsewhere than in some of the folders in which this program replaces files.
const ELSEWHERE: [&str; 2] = ["loader set-timeout 7", "bootctl unlink five.efi"];

/// The folders in which this program replaces files, and which `bootctl list` looks at.
const REPLACED: [&str; 3] = [IMAGES, "efi/loader", "efi/loader/entries"];

/// Files in these folders.
const LEFT: [&str; 5] = [
    "efi/EFI/Linux/one+2-1.efi",
    "efi/EFI/Linux/two+1-2.efi",
    "efi/EFI/Linux/five.efi",
    "efi/loader/loader.conf",
    "efi/loader/entries/old.conf",
];

/// Commands by which a file goes, and its folder.
const GOING: [(&str, &str); 2] = [
    ("loader set-timeout 7", "efi/loader"),
    ("bootctl unlink five.efi", IMAGES),
];

/// A folder that was only looked at may have these: this run may not open it, or its file system syncs no folders.
const PASSED_OVER: [ErrorKind; 4] = [
    ErrorKind::PermissionDenied,
    ErrorKind::InvalidInput,
    ErrorKind::Unsupported,
    ErrorKind::ReadOnlyFilesystem,
];

/// A folder is taken away, or can't be synced any more, behind the call whose line in the log is the last one.
#[derive(Drop)]
struct Befalls<'a> {
    behind: &'a str,
    folder: &'a str,
    fault: Option<ErrorKind>,
}

impl Trouble for Befalls<'_> {
    fn come(&self, _call: u64, shelf: &SharedShelf) -> io::Result<()> {
        let mut shelf = at_work(shelf)?;
        let is_behind = shelf
            .log()
            .last()
            .is_some_and(|line| line.as_str() == self.behind);
        match self.fault {
            _ if !is_behind => {}
            Some(fault) => shelf.spoil(self.folder, fault),
            None => shelf.take_away(self.folder),
        }
        Ok(())
    }
}

// The log of the folder once a command has ended with 0 on it.
fn log_behind(alloc: Global, shelf: &SharedShelf, line: &str) -> io::Result<Vec<String>> {
    if run_line(alloc, shelf, line)?.status != 0 {
        return Err(io::Error::other("the command didn't end with 0"));
    }
    Ok(at_work(shelf)?.log().to_vec(alloc)?)
}

// The place of the first line that is this one.
fn place_of(log: &[String], line: &str) -> Option<usize> {
    log.iter().position(|logged| logged.as_str() == line)
}

// The first line behind a place that isn't the sync of a file.
fn next_but_files(log: &[String], place: usize) -> Option<&str> {
    log.iter()
        .skip(place.saturating_add(1))
        .map(|line| line.as_str())
        .find(|line| !line.starts_with("sync file "))
}

// Whether both are there, and the first one comes first.
fn is_before(first: Option<usize>, second: Option<usize>) -> bool {
    match (first, second) {
        (Some(first), Some(second)) => first < second,
        _ => false,
    }
}

/// Whether a run has said these words.
pub(super) fn says(alloc: Global, ran: &Ran, words: &str) -> io::Result<bool> {
    let said = String::from_utf8(ran.said.as_slice().to_vec(alloc)?);
    Ok(said.is_ok_and(|said| said.as_str().contains(words)))
}

// A killed run has renamed a file, and hasn't synced it. The next one dropped the intent, synced the folder alone, and a
// cut left the entry with 0 bytes: its new name was on the disk, and its start and length weren't.
#[test]
fn an_intent_goes_behind_the_sync_of_its_file(rt: HostRuntime) -> Result<(), Fail> {
    let alloc = rt.alloc();
    let shelf = start(alloc)?;
    put_intent(alloc, &shelf)?;
    at_work(&shelf)?.rename(OLD, NEW)?;
    let log = log_behind(alloc, &shelf, "bootctl list")?;
    let log = log.as_slice();
    let file = place_of(log, "sync file efi/EFI/Linux/one+1-2.efi");
    let folder = place_of(log, "sync folder efi/EFI/Linux");
    let gone = place_of(log, "unlink boot_tools.intent");
    assert!(rt; is_before(file, folder));
    assert!(rt; is_before(folder, gone));
    Ok(())
}

// A kill behind a rename over a file has freed the old file's clusters in the table, and each sync on that file system
// writes the table. So a command that looks elsewhere emptied the file that was to be replaced. The names of these files
// were left to the next command that looks there.
#[test]
fn files_that_may_be_replaced_are_synced_first(rt: HostRuntime) -> Result<(), Fail> {
    let alloc = rt.alloc();
    for line in ELSEWHERE {
        let log = log_behind(alloc, &start(alloc)?, line)?;
        let log = log.as_slice();
        let first = log
            .iter()
            .position(|line| line.as_str().starts_with("sync folder "));
        for path in LEFT {
            let synced = format!(in alloc; "sync file {path}")?;
            let place = place_of(log, synced.as_str());
            assert!(rt; is_before(place, first), "{line}: {path}");
        }
        let reply = place_of(log, "print ");
        for folder in REPLACED {
            let synced = format!(in alloc; "sync folder {folder}")?;
            let place = place_of(log, synced.as_str());
            assert!(rt; is_before(place, reply), "{line}: {folder}");
        }
    }
    Ok(())
}

// The first bytes of a new folder are written with the folder above it. Behind a kill the next command wrote the new
// folder's name alone, and a cut then left old bytes of the disk for its names.
#[test]
fn a_new_folder_is_synced_with_the_one_above(rt: HostRuntime) -> Result<(), Fail> {
    let alloc = rt.alloc();
    let shelf = start(alloc)?;
    at_work(&shelf)?.take_away("efi/boot_tools");
    let log = log_behind(alloc, &shelf, command_of("type1")?)?;
    let log = log.as_slice();
    let made = place_of(log, "make folder efi/boot_tools");
    let next = made.and_then(|made| next_but_files(log, made));
    assert!(rt; next == Some("sync folder efi"));
    Ok(())
}

// If the write of the table alone fails the system finds in memory what the table doesn't know: a new folder, or a cluster
// more for one. So the same again was answered with 0, and a cut took the folder.
#[test]
fn a_new_folder_is_tried_behind_a_sync_that_fails(rt: HostRuntime) -> Result<(), Fail> {
    let alloc = rt.alloc();
    let shelf = start(alloc)?;
    at_work(&shelf)?.take_away("efi/boot_tools");
    let trouble = Befalls {
        behind: "make folder efi/boot_tools",
        folder: "efi",
        fault: Some(ErrorKind::Other),
    };
    let ran = run_with(alloc, &shelf, command_of("type1")?, trouble)?;
    assert_eq!(rt; ran.status, 3);
    assert!(rt; place_of(at_work(&shelf)?.log(), "try folder efi/boot_tools").is_some());
    Ok(())
}

// After a failed sync the system finds a folder that the disk hasn't got. Its sync says Ok, and what is in it goes with
// the next unmounting.
#[test]
fn a_folder_that_is_not_listed_is_a_fault(rt: HostRuntime) -> Result<(), Fail> {
    let alloc = rt.alloc();
    let shelf = start(alloc)?;
    at_work(&shelf)?.hide(IMAGES);
    let ran = run_telling(alloc, &shelf, "bootctl list")?;
    assert_eq!(rt; ran.status, 3);
    assert!(rt;
        says(
            alloc,
            &ran,
            "efi/EFI/Linux: isn't listed by the folder above it"
        )?
    );
    Ok(())
}

// The file system was unmounted between a rename and the sync of its folder, so what a failed write has left of it in
// memory is gone. The run said that the entry is good, and its intent went.
#[test]
fn a_changed_folder_that_is_gone_is_a_fault(rt: HostRuntime) -> Result<(), Fail> {
    let alloc = rt.alloc();
    let shelf = start(alloc)?;
    let trouble = Befalls {
        behind: "sync file efi/EFI/Linux/one.efi",
        folder: IMAGES,
        fault: None,
    };
    let ran = run_with(alloc, &shelf, command_of("good")?, trouble)?;
    assert_eq!(rt; ran.status, 3);
    assert!(rt; ran.said.is_empty());
    assert!(rt; has(&ran, INTENT));
    Ok(())
}

// An error of the device is told once, to who syncs next. A command that only looks passed it over, so what the failed
// one had changed was taken to be on the disk.
#[test]
fn an_error_of_a_folder_that_was_looked_at_is_a_fault(rt: HostRuntime) -> Result<(), Fail> {
    let alloc = rt.alloc();
    for folder in REPLACED {
        let shelf = start(alloc)?;
        at_work(&shelf)?.spoil(folder, ErrorKind::Other);
        let ran = run_line(alloc, &shelf, "bootctl list")?;
        assert_eq!(rt; ran.status, 3, "{folder}");
        let tried = format!(in alloc; "try folder {folder}")?;
        assert!(rt; place_of(at_work(&shelf)?.log(), tried.as_str()).is_some());
    }
    Ok(())
}

// But a partition that is mounted read-only, or a folder that this run may not open, can be listed.
#[test]
fn a_folder_that_can_not_be_synced_is_listed(rt: HostRuntime) -> Result<(), Fail> {
    let alloc = rt.alloc();
    let usual = run_line(alloc, &start(alloc)?, "bootctl list")?;
    for kind in PASSED_OVER {
        let shelf = start(alloc)?;
        at_work(&shelf)?.spoil(IMAGES, kind);
        let ran = run_line(alloc, &shelf, "bootctl list")?;
        assert_eq!(rt; ran.status, 0);
        assert!(rt; ran.said == usual.said);
    }
    Ok(())
}

// The system frees the bytes of a file that was replaced or removed once that is closed. It was closed before the sync of its
// folder, so a torn write left the old name, with bytes that were free.
#[test]
fn a_file_that_goes_is_closed_behind_the_sync_of_its_folder(rt: HostRuntime) -> Result<(), Fail> {
    let alloc = rt.alloc();
    for (line, folder) in GOING {
        let shelf = start(alloc)?;
        log_behind(alloc, &shelf, line)?;
        let shelf = at_work(&shelf)?;
        let log = shelf.log_beside_gone();
        let synced = format!(in alloc; "sync folder {folder}")?;
        assert!(rt; place_of(log, synced.as_str()).is_some(), "{line}");
        assert!(rt; place_of(log, "print ").is_none(), "{line}");
    }
    Ok(())
}
