//! What a power cut or a failed sync leaves on FAT.
use super::handle::{Ran, SharedShelf, at_work, run_line};
use super::{have_same_boot_files, start};
use boot_base::INTENT;
use std::alloc::Global;
use std::io;
use std::test::Fail;

/// The first entry.
pub(crate) const OLD: &str = "efi/EFI/Linux/one+2-1.efi";

/// The name that a counted boot gives it.
pub(crate) const NEW: &str = "efi/EFI/Linux/one+1-2.efi";

/// The intent of a counted boot of the first entry.
pub(crate) fn put_intent(alloc: Global, shelf: &SharedShelf) -> io::Result<()> {
    let text = format!(in alloc; "{OLD}\0{NEW}\0")?;
    at_work(shelf)?.put_file(INTENT, text.as_bytes().to_vec(alloc)?)?;
    Ok(())
}

/// Whether a file is there behind a run.
pub(crate) fn has(ran: &Ran, path: &str) -> bool {
    ran.files.iter().any(|kept| kept.path.as_str() == path)
}

// An intent, and the bytes of the first entry under its new name too, in a file of its own.
fn start_with_both(alloc: Global) -> io::Result<SharedShelf> {
    let shelf = start(alloc)?;
    let bytes = at_work(&shelf)?.bytes_of(alloc, OLD)?;
    at_work(&shelf)?.put_file(NEW, bytes)?;
    put_intent(alloc, &shelf)?;
    Ok(shelf)
}

// A recovery removes the old name of a rename if both names are there, and the folder lists them.
#[test]
fn a_recovery_keeps_the_new_name(rt: HostRuntime) -> Result<(), Fail> {
    let alloc = rt.alloc();
    let shelf = start_with_both(alloc)?;
    let ran = run_line(alloc, &shelf, "bootctl list")?;
    assert_eq!(rt; ran.status, 0);
    assert!(rt; has(&ran, NEW));
    assert!(rt; !has(&ran, OLD));
    assert!(rt; !has(&ran, INTENT));
    Ok(())
}

// After a failed sync the system finds the new name though its folder doesn't list it: the disk hasn't got it. A
// recovery that removed the old name then took the only one that was left.
#[test]
fn a_recovery_keeps_the_old_name_if_the_new_one_is_not_listed(rt: HostRuntime) -> Result<(), Fail> {
    let alloc = rt.alloc();
    let shelf = start_with_both(alloc)?;
    at_work(&shelf)?.hide(NEW);
    for _ in 0..2 {
        let ran = run_line(alloc, &shelf, "bootctl list")?;
        assert_eq!(rt; ran.status, 3);
        assert!(rt; has(&ran, OLD));
        assert!(rt; has(&ran, INTENT));
    }
    Ok(())
}

// If neither name of a rename is left, a check may have put the bytes into a file of its own. An intent that went then
// took the last word of what they were.
#[test]
fn an_intent_stays_if_no_name_is_left(rt: HostRuntime) -> Result<(), Fail> {
    let alloc = rt.alloc();
    let shelf = start(alloc)?;
    put_intent(alloc, &shelf)?;
    at_work(&shelf)?.unlink(OLD)?;
    for _ in 0..2 {
        let ran = run_line(alloc, &shelf, "bootctl list")?;
        assert_eq!(rt; ran.status, 3);
        assert!(rt; has(&ran, INTENT));
    }
    Ok(())
}

// A cut can leave the alias of a short name alone. A mount with `iocharset=utf8` doesn't find it by the name, but refuses
// to make the name beside it: each installation of that name ended with 3 then.
#[test]
fn an_empty_name_in_capitals_is_not_in_the_way(rt: HostRuntime) -> Result<(), Fail> {
    let alloc = rt.alloc();
    let usual = start(alloc)?;
    let wanted = run_line(alloc, &usual, "install in/new.efi three")?;
    assert_eq!(rt; wanted.status, 0);
    let shelf = start(alloc)?;
    at_work(&shelf)?.put_file("efi/EFI/Linux/THREE.EFI", Vec::new(alloc))?;
    let ran = run_line(alloc, &shelf, "install in/new.efi three")?;
    assert_eq!(rt; ran.status, 0);
    assert!(rt; have_same_boot_files(&ran.files, &wanted.files));
    Ok(())
}

// A name in capitals that has bytes of its own is somebody's file, and stays. The installation ends with 3 then.
#[test]
fn a_file_in_capitals_stays(rt: HostRuntime) -> Result<(), Fail> {
    let alloc = rt.alloc();
    let shelf = start(alloc)?;
    at_work(&shelf)?.put_file("efi/EFI/Linux/THREE.EFI", b"own".to_vec(alloc)?)?;
    let ran = run_line(alloc, &shelf, "install in/new.efi three")?;
    assert_eq!(rt; ran.status, 3);
    assert!(rt; has(&ran, "efi/EFI/Linux/THREE.EFI"));
    assert!(rt; !has(&ran, "efi/EFI/Linux/three.efi"));
    Ok(())
}

// Two files with these bytes that were written in the same two seconds.
fn start_with_alike(alloc: Global, one: &[u8], other: &[u8]) -> io::Result<SharedShelf> {
    let shelf = start(alloc)?;
    for (path, bytes) in [
        ("efi/EFI/Linux/one+3.efi", one),
        ("efi/EFI/Linux/one+4.efi", other),
    ] {
        at_work(&shelf)?.put_file(path, bytes.to_vec(alloc)?)?;
        at_work(&shelf)?.give_time(path, 8);
    }
    Ok(shelf)
}

// Two images of one length that were written in the same two seconds are two files. They were taken for one.
#[test]
fn files_that_look_alike_are_two(rt: HostRuntime) -> Result<(), Fail> {
    let alloc = rt.alloc();
    let shelf = start_with_alike(alloc, b"aa", b"ab")?;
    let ran = run_line(alloc, &shelf, "bootctl unlink one+3.efi")?;
    assert_eq!(rt; ran.status, 0);
    assert!(rt; !has(&ran, "efi/EFI/Linux/one+3.efi"));
    Ok(())
}

// Two names that also have the same bytes may be those of one file. Nothing is freed then.
#[test]
fn names_over_the_same_bytes_may_be_one_file(rt: HostRuntime) -> Result<(), Fail> {
    let alloc = rt.alloc();
    let shelf = start_with_alike(alloc, b"aa", b"aa")?;
    let ran = run_line(alloc, &shelf, "bootctl unlink one+3.efi")?;
    assert_eq!(rt; ran.status, 3);
    assert!(rt; has(&ran, "efi/EFI/Linux/one+3.efi"));
    Ok(())
}
