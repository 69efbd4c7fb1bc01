// Whole commands on a folder that several runs share.
mod failing;
mod fat;
mod handle;
mod meeting;
mod shelf;
mod syncs;
mod temps;

use boot_base::{INTENT, TEMP_SUFFIX};
use boot_commands::demo_image;
use handle::{Ran, SharedShelf, run_line};
use sample_images::SampleImage;
use shelf::{Kept, Shelf};
use std::alloc::{AllocError, Global};
use std::cell::RefCell;
use std::io;
use std::rc::Rc;

/// The commands, by short names. A line behind one is a script.
const COMMANDS: [(&str, &str); 27] = [
    (
        "build",
        "ukify build --stub=in/stub.efi --os-release=ID=demo --linux=in/kernel --output=in/new.efi",
    ),
    (
        "build kernel",
        "ukify build --stub=in/stub.efi --linux=in/initrd --output=in/kernel",
    ),
    ("inspect", "ukify inspect in/new.efi"),
    (
        "calculate",
        "measure calculate --linux=in/kernel --bank=sha256 --phase=",
    ),
    (
        "image",
        "measure image efi/EFI/Linux/five.efi --bank=sha256 --phase=",
    ),
    ("list", "bootctl list"),
    ("unlink five", "bootctl unlink five.efi"),
    ("unlink old", "bootctl unlink old.conf"),
    ("identify", "bootctl kernel-identify in/new.efi"),
    ("install", "install in/new.efi three --tries=3"),
    ("install again", "install in/other.efi three --tries=3"),
    ("install one", "install in/new.efi one"),
    ("install five", "install in/new.efi five"),
    ("type1", "type1 install new --linux=in/kernel"),
    ("type1 again", "type1 install old --linux=in/kernel"),
    ("type1 of gone", "type1 install new --linux=in/initrd"),
    ("cleanup", "type1 cleanup"),
    ("keep", "keep 1"),
    ("boot", "boot"),
    ("good", "bless good EFI/Linux/one+2-1.efi"),
    ("good two", "bless good EFI/Linux/two+1-2.efi"),
    ("status", "bless status EFI/Linux/one+2-1.efi"),
    ("show", "loader show"),
    ("default", "loader set-default two*"),
    ("timeout", "loader set-timeout 7"),
    ("tidy", "tidy"),
    ("script", "script\nbootctl list"),
];

const FOLDERS: [&str; 7] = [
    "in",
    "efi",
    "efi/EFI",
    "efi/EFI/Linux",
    "efi/boot_tools",
    "efi/loader",
    "efi/loader/entries",
];

// Images that are entries, with the digits by which the menu is ordered.
const IMAGES: [(&str, u64); 5] = [
    ("efi/EFI/Linux/one+2-1.efi", 8),
    ("efi/EFI/Linux/two+1-2.efi", 7),
    ("efi/EFI/Linux/five.efi", 6),
    ("in/new.efi", 5),
    ("in/other.efi", 4),
];

// A leftover, the settings, a kernel and an initrd, an entry with its payload, and a payload that no entry names: that of
// the initrd. Both are named by their digests.
const FILES: [(&str, &str); 7] = [
    ("efi/EFI/Linux/gone.efi.tmp", "gone"),
    ("efi/loader/loader.conf", "timeout 3\n"),
    ("in/kernel", "abc"),
    ("in/initrd", "gone"),
    (
        "efi/loader/entries/old.conf",
        "linux /boot_tools/cba06b5736faf67e54b07b561eae94395e774c517a7d910a54369e1263ccfbd4\n",
    ),
    (
        "efi/boot_tools/cba06b5736faf67e54b07b561eae94395e774c517a7d910a54369e1263ccfbd4",
        "old",
    ),
    (
        "efi/boot_tools/283bb9deef02e6843abfb538efa1eca70801bd8a701c3f98191e123496339247",
        "gone",
    ),
];

// The command of a short name.
fn command_of(name: &str) -> io::Result<&'static str> {
    match COMMANDS.iter().find(|command| command.0 == name) {
        Some(command) => Ok(command.1),
        None => Err(io::Error::other("no such command")),
    }
}

// The folder at the start of each run.
fn start(alloc: Global) -> io::Result<SharedShelf> {
    let mut shelf = Shelf::new(alloc)?;
    for folder in FOLDERS {
        shelf.make_folder(folder)?;
    }
    for (path, digit) in IMAGES {
        shelf.put_file(path, demo_image(alloc, digit)?)?;
    }
    shelf.put_file("in/stub.efi", SampleImage::stub().bytes().to_vec(alloc)?)?;
    for (path, text) in FILES {
        shelf.put_file(path, text.as_bytes().to_vec(alloc)?)?;
    }
    Ok(Rc::new(alloc, RefCell::new(shelf))?)
}

// Whether a file is no intent and no temporary file.
fn is_boot_file(kept: &Kept) -> bool {
    kept.path.as_str() != INTENT && !kept.path.as_str().ends_with(TEMP_SUFFIX)
}

// Whether each file, or each boot file, is among the others.
fn are_among(files: &[Kept], others: &[Kept], boot_alone: bool) -> bool {
    files.iter().all(|kept| {
        boot_alone && !is_boot_file(kept)
            || others.iter().any(|other| other.path == kept.path
                && other.bytes == kept.bytes
                && other.mode == kept.mode)
    })
}

fn have_same_files(files: &[Kept], others: &[Kept]) -> bool {
    are_among(files, others, false) && are_among(others, files, false)
}

fn have_same_boot_files(files: &[Kept], others: &[Kept]) -> bool {
    are_among(files, others, true) && are_among(others, files, true)
}

fn say_same(ran: &Ran, other: &Ran) -> bool {
    ran.status == other.status && ran.said == other.said
}

// Whether a run has printed less than it does alone, from the beginning on.
fn is_cut_short(ran: &Ran, alone: &Ran) -> bool {
    ran.said.len() < alone.said.len() && alone.said.as_slice().starts_with(ran.said.as_slice())
}

// Whether the next run ends well, changes none of these boot files and leaves no intent, and that command then does what is
// wanted of it, or the rest of that.
fn recovers(
    alloc: Global,
    shelf: &SharedShelf,
    files: &[Kept],
    line: &str,
    wanted: &Ran,
    is_begun: bool,
) -> io::Result<bool> {
    let list = run_line(alloc, shelf, "bootctl list")?;
    let ran = run_line(alloc, shelf, line)?;
    let is_said = ran.said == wanted.said
        || is_begun && wanted.said.as_slice().ends_with(ran.said.as_slice());
    let has_intent = list.files.iter().any(|kept| kept.path.as_str() == INTENT);
    Ok(
        list.status == 0
            && !has_intent
            && have_same_boot_files(&list.files, files)
            && ran.status == wanted.status
            && is_said
            && have_same_boot_files(&ran.files, &wanted.files),
    )
}

// The letters in their order, one for calls in a row that have the same.
fn turns_of(alloc: Global, letters: &[char]) -> Result<String, AllocError> {
    let mut turns = String::new(alloc);
    for (place, letter) in letters.iter().enumerate() {
        if letters.get(place.saturating_add(1)) != Some(letter) {
            let turn = format!(in alloc; "{letter}")?;
            turns.push_str(turn.as_str())?;
        }
    }
    Ok(turns)
}
