// The intent of a move: which one is believed, who holds it, and what a power cut on FAT leaves of the names in it.
use super::Act::{Append, Create, Rename, RenameTemp, SyncFile, Unlink, UnlinkTemp};
use super::Change::{Link, MakeFolder, Remove, Write, WriteAt};
use super::Step::{Beside, Does, Fails, Faults, HasNames, Holds, Lacks, Runs, Size, Syncs};
use super::runs::run_both;
use super::{Step, run};
use boot_base::INTENT;
use std::test::Fail;

const FOLDER: &str = "efi/EFI/Linux";

const OLD: &str = "efi/EFI/Linux/e+3.efi";

const NEW: &str = "efi/EFI/Linux/e+2-1.efi";

const ALIAS: &str = "efi/EFI/Linux/E_3~1.EFI";

const OF_MOVE: &[u8] = b"efi/EFI/Linux/e+3.efi\0efi/EFI/Linux/e+2-1.efi\0";

// Two names that may have the same clusters stay until a check of the file system has emptied one. The bytes come under
// the new name, whichever that is. The times of change are those that FAT keeps.
static BOTH_NAMES: [Step; 20] = [
    Beside(MakeFolder(FOLDER)),
    Beside(WriteAt(OLD, b"abc", 1_000_000)),
    Beside(WriteAt(NEW, b"abc", 1_000_000)),
    Beside(Write(INTENT, OF_MOVE)),
    Runs("bootctl list", 3),
    Runs("tidy", 3),
    Holds(OLD, b"abc"),
    Holds(NEW, b"abc"),
    Holds(INTENT, OF_MOVE),
    // the new name is emptied
    Beside(WriteAt(NEW, b"", 1_000_000)),
    Runs("tidy", 0),
    Lacks(OLD),
    Holds(NEW, b"abc"),
    Lacks(INTENT),
    // the old name is emptied
    Beside(WriteAt(OLD, b"", 1_000_000)),
    Beside(Write(INTENT, OF_MOVE)),
    Runs("tidy", 0),
    Lacks(OLD),
    Holds(NEW, b"abc"),
    Lacks(INTENT),
];

#[test]
fn names_that_may_share_their_bytes_stay(rt: HostRuntime) -> Result<(), Fail> {
    run(&rt, rt, &BOTH_NAMES)
}

// Other lengths or other times are two files, of which the new one counts.
static TWO_FILES: [Step; 12] = [
    Beside(MakeFolder(FOLDER)),
    Beside(WriteAt(OLD, b"abc", 1_000_000)),
    Beside(WriteAt(NEW, b"abc", 1_000_002)),
    Beside(Write(INTENT, OF_MOVE)),
    Runs("tidy", 0),
    Lacks(OLD),
    Holds(NEW, b"abc"),
    // an odd time isn't one of FAT
    Beside(WriteAt(OLD, b"abc", 1_000_003)),
    Beside(WriteAt(NEW, b"abc", 1_000_003)),
    Beside(Write(INTENT, OF_MOVE)),
    Runs("tidy", 0),
    Lacks(OLD),
];

#[test]
fn of_two_files_the_new_one_counts(rt: HostRuntime) -> Result<(), Fail> {
    run(&rt, rt, &TWO_FILES)
}

// A short alias without its long name may have the bytes of the name beside it, or those that the name has lost.
static ALIASES: [Step; 27] = [
    Beside(MakeFolder(FOLDER)),
    Beside(WriteAt(NEW, b"abc", 1_000_000)),
    Beside(WriteAt(ALIAS, b"abc", 1_000_000)),
    Beside(Write(INTENT, OF_MOVE)),
    Runs("tidy", 3),
    Holds(NEW, b"abc"),
    Holds(ALIAS, b"abc"),
    Holds(INTENT, OF_MOVE),
    Beside(WriteAt(NEW, b"", 1_000_000)),
    Runs("tidy", 0),
    Holds(NEW, b"abc"),
    Lacks(ALIAS),
    Lacks(INTENT),
    // an alias without bytes
    Beside(WriteAt(NEW, b"abc", 1_000_000)),
    Beside(WriteAt(ALIAS, b"", 1_000_000)),
    Beside(Write(INTENT, OF_MOVE)),
    Runs("tidy", 0),
    Holds(NEW, b"abc"),
    // no bytes at all
    Beside(WriteAt(NEW, b"", 1_000_000)),
    Beside(Write(INTENT, OF_MOVE)),
    Runs("tidy", 3),
    // neither name, beside an alias of the old one
    Beside(Remove(NEW)),
    Beside(WriteAt(ALIAS, b"abc", 1_000_000)),
    Runs("tidy", 0),
    Holds(NEW, b"abc"),
    Lacks(ALIAS),
    Lacks(INTENT),
];

#[test]
fn bytes_under_a_short_alias_are_kept(rt: HostRuntime) -> Result<(), Fail> {
    run(&rt, rt, &ALIASES)
}

// If neither name of an intent is there, its folder must be, and at most one alias that either can have.
static NEITHER_NAME: [Step; 17] = [
    Beside(Write(INTENT, OF_MOVE)),
    Runs("tidy", 3),
    Runs("measure calculate --linux=k", 3),
    Holds(INTENT, OF_MOVE),
    Beside(MakeFolder(FOLDER)),
    Beside(WriteAt(ALIAS, b"abc", 1_000_000)),
    Beside(WriteAt("efi/EFI/Linux/E_2-1~1.EFI", b"abcd", 1_000_000)),
    Runs("tidy", 3),
    Holds(ALIAS, b"abc"),
    Holds(INTENT, OF_MOVE),
    Beside(Remove(ALIAS)),
    Beside(Remove("efi/EFI/Linux/E_2-1~1.EFI")),
    // aliases of other names
    Beside(WriteAt("efi/EFI/Linux/SETUP~1.EFI", b"abc", 1_000_000)),
    Beside(WriteAt("efi/EFI/Linux/E_3~1.CON", b"abc", 1_000_000)),
    Runs("tidy", 0),
    Lacks(INTENT),
    Holds("efi/EFI/Linux/SETUP~1.EFI", b"abc"),
];

#[test]
fn an_intent_stays_without_its_folder(rt: HostRuntime) -> Result<(), Fail> {
    run(&rt, rt, &NEITHER_NAME)
}

// Elsewhere than on FAT no check takes bytes away: the old name goes, whatever the new one has, and a name in capitals is
// somebody's own. An odd time isn't one of FAT.
static OFF_FAT: [Step; 15] = [
    Beside(MakeFolder(FOLDER)),
    Beside(WriteAt(OLD, b"abc", 1_000_001)),
    Beside(WriteAt(NEW, b"", 1_000_001)),
    Beside(Write(INTENT, OF_MOVE)),
    Runs("tidy", 0),
    Lacks(OLD),
    Holds(NEW, b""),
    Lacks(INTENT),
    Beside(Remove(NEW)),
    Beside(WriteAt(ALIAS, b"abc", 1_000_001)),
    Beside(Write(INTENT, OF_MOVE)),
    Runs("tidy", 0),
    Lacks(NEW),
    Holds(ALIAS, b"abc"),
    Lacks(INTENT),
];

#[test]
fn a_recovery_off_fat_takes_no_other_name(rt: HostRuntime) -> Result<(), Fail> {
    run(&rt, rt, &OFF_FAT)
}

// Nothing is changed beside another name that the file may have after a cut rename that no intent tells of: that of its
// entry with another counter, or itself in capitals. If the times differ, these are two files.
static NAMES_OF_ONE_ENTRY: [Step; 17] = [
    Beside(MakeFolder(FOLDER)),
    Beside(WriteAt(OLD, b"abc", 1_000_000)),
    Beside(WriteAt(NEW, b"abc", 1_000_000)),
    Fails(OLD, Unlink),
    Fails(NEW, Unlink),
    Fails(NEW, Create),
    Holds(OLD, b"abc"),
    Holds(NEW, b"abc"),
    Beside(WriteAt(NEW, b"abc", 1_000_002)),
    Does(OLD, Unlink),
    Beside(WriteAt("efi/EFI/Linux/E.efi", b"abc", 1_000_002)),
    Fails(NEW, Unlink),
    Beside(WriteAt("h.efi", b"abcd", 1_000_000)),
    Beside(WriteAt("H.EFI", b"abcd", 1_000_000)),
    Fails("h.efi", Unlink),
    Fails("H.EFI", Create),
    Faults(6),
];

#[test]
fn names_of_one_entry_stay(rt: HostRuntime) -> Result<(), Fail> {
    run(&rt, rt, &NAMES_OF_ONE_ENTRY)
}

// A file is neither removed, moved nor replaced beside a second name that it may have: its temporary file's, or a short
// alias. A temporary file isn't cut then either.
static SECOND_NAMES: [Step; 16] = [
    Beside(MakeFolder(FOLDER)),
    Beside(WriteAt(OLD, b"abc", 1_000_000)),
    Beside(WriteAt("efi/EFI/Linux/e+3.efi.tmp", b"abc", 1_000_000)),
    Fails(OLD, Unlink),
    Fails(OLD, Rename(NEW)),
    Holds(OLD, b"abc"),
    Beside(WriteAt("f.efi", b"abcd", 1_000_000)),
    Beside(WriteAt("F~1.TMP", b"abcd", 1_000_000)),
    Fails("f.efi", Unlink),
    Fails("f.efi", Create),
    Lacks("f.efi.tmp"),
    Beside(WriteAt("g.efi.tmp", b"abcde", 1_000_000)),
    Beside(WriteAt("G~1.EFI", b"abcde", 1_000_000)),
    Fails("g.efi", Create),
    Fails("g.efi", UnlinkTemp),
    Faults(6),
];

#[test]
fn a_file_with_a_second_name_stays(rt: HostRuntime) -> Result<(), Fail> {
    run(&rt, rt, &SECOND_NAMES)
}

// An intent that no move of this program writes: a link on the way, two folders, two entries, names that are no
// entry's, and an intent with a link to it. One that names nothing is removed.
static FOREIGN: [Step; 27] = [
    Beside(MakeFolder("victim")),
    Beside(Write("victim/e+3.efi", b"a")),
    Beside(Write("victim/e+2-1.efi", b"b")),
    Beside(Write("victim/shadow", b"a")),
    Beside(Write("victim/passwd", b"b")),
    Beside(Write("victim/f.efi", b"f")),
    Beside(Write("victim/e.conf", b"c")),
    Beside(Link("victim", "link")),
    Beside(Write(INTENT, b"link/e+3.efi\0link/e+2-1.efi\0")),
    Runs("tidy", 3),
    Beside(Write(INTENT, b"victim/shadow\0victim/passwd\0")),
    Runs("tidy", 3),
    Beside(Write(INTENT, b"victim/e+3.efi\0e+2-1.efi\0")),
    Runs("tidy", 3),
    Beside(Write(INTENT, b"victim/e+3.efi\0victim/f.efi\0")),
    Runs("tidy", 3),
    Beside(Write(INTENT, b"victim/e+3.efi\0victim/e.conf\0")),
    Runs("tidy", 3),
    Holds("victim/e+3.efi", b"a"),
    Holds("victim/shadow", b"a"),
    Holds("victim/e.conf", b"c"),
    Beside(Write(INTENT, b"victim/e+3.efi\0")),
    Runs("tidy", 0),
    Lacks(INTENT),
    Beside(Write(INTENT, b"")),
    Runs("tidy", 0),
    Lacks(INTENT),
];

#[test]
fn a_foreign_intent_removes_nothing(rt: HostRuntime) -> Result<(), Fail> {
    run(&rt, rt, &FOREIGN)
}

// A link to an intent, and a move in a folder behind a link, which no later run would finish.
static BEHIND_LINKS: [Step; 12] = [
    Beside(MakeFolder(FOLDER)),
    Beside(Write(OLD, b"a")),
    Beside(Write(NEW, b"b")),
    Beside(Write("elsewhere", OF_MOVE)),
    Beside(Link("elsewhere", INTENT)),
    Runs("tidy", 3),
    Holds(OLD, b"a"),
    Beside(Remove(INTENT)),
    Beside(Link("efi", "boot")),
    Runs("bless bad /EFI/Linux/e+2-1.efi --esp-path=boot", 3),
    Holds(NEW, b"b"),
    Lacks(INTENT),
];

#[test]
fn no_intent_is_behind_a_link(rt: HostRuntime) -> Result<(), Fail> {
    run(&rt, rt, &BEHIND_LINKS)
}

// The second run meets the intent of the first one's move, from its creation until it is gone.
static ONE_MOVES: [(u8, Step); 25] = [
    (1, Beside(MakeFolder(FOLDER))),
    (1, Beside(Write(OLD, b"a"))),
    (1, Size(INTENT, None)),
    (2, Size(INTENT, None)),
    (1, Does(INTENT, Create)),
    (1, Does(INTENT, Append(OF_MOVE))),
    (1, Does(INTENT, SyncFile)),
    (2, Fails(INTENT, Create)),
    (1, Does(INTENT, RenameTemp)),
    (2, Runs("bootctl list", 3)),
    (1, Syncs(true)),
    (2, Runs("bootctl list", 3)),
    (2, Fails(INTENT, Create)),
    (2, Fails("efi/EFI/Linux/f.efi", Create)),
    (1, Does(OLD, Rename(NEW))),
    (2, Runs("tidy", 3)),
    (1, Syncs(true)),
    (2, Runs("tidy", 3)),
    (1, Does(INTENT, Unlink)),
    (1, Syncs(true)),
    (2, Runs("tidy", 0)),
    (1, Faults(0)),
    (2, Faults(3)),
    (2, Holds(NEW, b"a")),
    (2, Lacks(OLD)),
];

#[test]
fn a_move_is_not_disturbed(rt: HostRuntime) -> Result<(), Fail> {
    run_both(&rt, &ONE_MOVES)
}

// A move and a file that is put in place at its new name: the move ends before its intent stands.
static ONE_PUTS: [(u8, Step); 17] = [
    (1, Beside(MakeFolder(FOLDER))),
    (1, Beside(Write(OLD, b"a"))),
    (2, Does(NEW, Create)),
    (2, Does(NEW, Append(b"b"))),
    (2, Does(NEW, SyncFile)),
    (1, Does(INTENT, Create)),
    (1, Does(INTENT, Append(OF_MOVE))),
    (1, Does(INTENT, SyncFile)),
    (1, Fails(INTENT, RenameTemp)),
    (1, Lacks("boot_tools.intent.tmp")),
    (1, Fails(OLD, Rename(NEW))),
    (2, Does(NEW, RenameTemp)),
    (2, Syncs(true)),
    (1, Holds(OLD, b"a")),
    (1, Holds(NEW, b"b")),
    (1, Faults(2)),
    (2, Faults(0)),
];

#[test]
fn a_move_and_a_write_see_each_other(rt: HostRuntime) -> Result<(), Fail> {
    run_both(&rt, &ONE_PUTS)
}

// A folder that was listed must have the same names as a change begins.
static LISTED: [Step; 9] = [
    Beside(MakeFolder("d")),
    Beside(Write("d/a", b"a")),
    HasNames("d"),
    Size("d/a", Some(1)),
    Syncs(true),
    Beside(Write("d/b", b"b")),
    Fails("e", Create),
    Lacks("e.tmp"),
    Faults(1),
];

#[test]
fn a_folder_that_another_run_changed_is_a_fault(rt: HostRuntime) -> Result<(), Fail> {
    run(&rt, rt, &LISTED)
}

// What this run changes itself doesn't count.
static OWN: [Step; 12] = [
    Beside(MakeFolder("d")),
    Beside(Write("d/a", b"a")),
    Beside(Write("d/b", b"b")),
    HasNames("d"),
    Size("d/b", Some(1)),
    Syncs(true),
    Does("e", Create),
    Does("d/b", Unlink),
    Syncs(true),
    Size("d/b", None),
    Size("d/a", Some(1)),
    Faults(0),
];

#[test]
fn what_this_run_changes_is_no_fault(rt: HostRuntime) -> Result<(), Fail> {
    run(&rt, rt, &OWN)
}

// What was read must be as it was when it is read again, when nothing was changed, and before it is replaced.
static REPLACED: [Step; 12] = [
    Beside(Write("c", b"old")),
    Size("c", Some(3)),
    Syncs(true),
    Beside(Write("c", b"other")),
    Fails("c", Create),
    Lacks("c.tmp"),
    Fails("c", Unlink),
    Fails("c", Rename("d")),
    Size("e", None),
    Syncs(false),
    Holds("c", b"other"),
    Faults(4),
];

#[test]
fn a_file_that_another_run_changed_is_not_replaced(rt: HostRuntime) -> Result<(), Fail> {
    run(&rt, rt, &REPLACED)
}

// If a look found nothing at a path, a file that another run makes there isn't replaced, even after the temporary file
// is written.
static APPEARED: [Step; 7] = [
    Size("c", None),
    Syncs(true),
    Does("c", Create),
    Does("c", SyncFile),
    Beside(Write("c", b"other")),
    Fails("c", RenameTemp),
    Holds("c", b"other"),
];

#[test]
fn a_file_that_another_run_has_made_is_not_replaced(rt: HostRuntime) -> Result<(), Fail> {
    run(&rt, rt, &APPEARED)
}

// Who has listed a folder and changes something in it holds it. Others may read there, and change other folders.
static ONE_HOLDS: [(u8, Step); 12] = [
    (1, Beside(MakeFolder("d"))),
    (1, Beside(Write("d/a", b"a"))),
    (1, Beside(Write("d/b", b"b"))),
    (1, HasNames("d")),
    (1, Does("d/a", Unlink)),
    (2, HasNames("d")),
    (2, Size("d/b", Some(1))),
    (2, Syncs(true)),
    (2, Fails("d/c", Create)),
    (2, Fails("d/b", Unlink)),
    (1, Syncs(true)),
    (1, Faults(0)),
];

#[test]
fn a_listed_folder_is_held(rt: HostRuntime) -> Result<(), Fail> {
    run_both(&rt, &ONE_HOLDS)
}

// Two runs that put other files into one folder go on beside each other. Who has read a file for that holds it.
static BOTH_PUT: [(u8, Step); 12] = [
    (1, Beside(Write("k", b"k"))),
    (1, Size("k", Some(1))),
    (1, Does("d/a", Create)),
    (2, Does("d/b", Create)),
    (2, Fails("k", Create)),
    (2, Fails("k", Unlink)),
    (1, Does("d/a", SyncFile)),
    (1, Does("d/a", RenameTemp)),
    (1, Syncs(true)),
    (1, Faults(0)),
    (2, Holds("k", b"k")),
    (2, Faults(2)),
];

#[test]
fn writes_into_one_folder_go_on_beside_each_other(rt: HostRuntime) -> Result<(), Fail> {
    run_both(&rt, &BOTH_PUT)
}
