// What is written is read back.
use super::Act::{Append, Create, Rename, RenameTemp, SyncFile, Unlink, UnlinkTemp};
use super::Change::RemoveFolder;
use super::Step::{Beside, Does, Fails, Faults, Holds, Names, Puts, Reads, Size, Syncs};
use super::{Step, run};
use std::test::Fail;

static PIECES: [Step; 10] = [
    Names("efi/EFI/Linux", 0),
    Puts("efi/EFI/Linux/a.efi", b"abc", b"def"),
    Size("efi/EFI/Linux/a.efi", Some(6)),
    Reads("efi/EFI/Linux/a.efi", 0, 4, b"abcd"),
    Reads("efi/EFI/Linux/a.efi", 4, 4, b"ef"),
    Reads("efi/EFI/Linux/a.efi", 5, 4, b"f"),
    Reads("efi/EFI/Linux/a.efi", 6, 4, b""),
    Reads("efi/EFI/Linux/a.efi", 9_223_372_036_854_775_808, 4, b""),
    Reads("efi/EFI/Linux/a.efi", 18_446_744_073_709_551_615, 4, b""),
    Faults(0),
];

#[test]
fn pieces_are_read_back(rt: HostRuntime) -> Result<(), Fail> {
    run(&rt, rt, &PIECES)
}

static REPLACED: [Step; 16] = [
    Puts("x/a", b"old", b"!"),
    Reads("x/a", 0, 8, b"old!"),
    // in place of a file that is there, and that was just read
    Puts("x/a", b"new", b"er"),
    Reads("x/a", 0, 8, b"newer"),
    // to another folder, which isn't there yet
    Does("x/a", Rename("y/z/b")),
    Syncs(true),
    Size("x/a", None),
    Reads("x/a", 0, 8, b""),
    Holds("y/z/b", b"newer"),
    // a leftover beside it is taken away, and then the file
    Does("y/z/b", Create),
    Names("y/z", 2),
    Does("y/z/b", UnlinkTemp),
    Does("y/z/b", Unlink),
    Syncs(true),
    Names("y/z", 0),
    Faults(0),
];

#[test]
fn files_are_replaced_moved_and_removed(rt: HostRuntime) -> Result<(), Fail> {
    run(&rt, rt, &REPLACED)
}

static GONE: [Step; 9] = [
    Does("x/a", Create),
    Does("x/a", Append(b"abc")),
    Beside(RemoveFolder("x")),
    Fails("x/a", SyncFile),
    Faults(1),
    Fails("x/a", RenameTemp),
    Faults(2),
    Fails("x/b", Unlink),
    Faults(3),
];

#[test]
fn a_folder_that_is_gone_is_a_fault(rt: HostRuntime) -> Result<(), Fail> {
    run(&rt, rt, &GONE)
}
