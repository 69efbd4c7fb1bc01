// Two runs at once, and the leftover of one that was killed.
use super::Act::{Append, Create, RenameTemp, SyncFile, UnlinkTemp};
use super::Change::{MakeFolder, Write, WriteAt};
use super::Step::{Beside, Does, Fails, Faults, Holds, Lacks, Puts, Runs, Syncs};
use super::{Step, enter_own_folder, remove_own_folder, require, run};
use host_machine::{HostMachine, host_machine};
use std::io::Stderr;
use std::test::Fail;

// The steps of two runs, and which of them makes each.
static TWO_RUNS: [(u8, Step); 17] = [
    (1, Does("x/a", Create)),
    (1, Does("x/a", Append(b"abc"))),
    (2, Fails("x/a", Create)),
    (2, Fails("x/a", Append(b"d"))),
    (2, Fails("x/a", SyncFile)),
    (2, Fails("x/a", RenameTemp)),
    (2, Fails("x/a", UnlinkTemp)),
    (2, Faults(5)),
    (1, Does("x/a", Append(b"d"))),
    (1, Does("x/a", SyncFile)),
    (1, Does("x/a", RenameTemp)),
    // the renamed file has its lock until it is synced
    (2, Fails("x/a", Create)),
    (1, Syncs(true)),
    (2, Does("x/a", Create)),
    (1, Holds("x/a", b"abcd")),
    (1, Faults(0)),
    (2, Faults(6)),
];

fn go_through_both(
    rt: &HostRuntime,
    first: &mut HostMachine<HostRuntime, Stderr>,
    second: &mut HostMachine<HostRuntime, Stderr>,
    steps: &[(u8, Step)],
) -> Result<(), Fail> {
    for (place, (run, step)) in steps.iter().enumerate() {
        if *run == 1 {
            require(rt, first, place, *step)?;
        } else {
            require(rt, second, place, *step)?;
        }
    }
    Ok(())
}

fn run_both_here(rt: &HostRuntime, steps: &[(u8, Step)]) -> Result<(), Fail> {
    let mut first = host_machine(*rt, rt.stderr());
    let mut second = host_machine(*rt, rt.stderr());
    go_through_both(rt, &mut first, &mut second, steps)
}

// Goes through the steps of two runs in a folder of this process' own.
pub(super) fn run_both(rt: &HostRuntime, steps: &[(u8, Step)]) -> Result<(), Fail> {
    enter_own_folder(rt)?;
    run_both_here(rt, steps)?;
    remove_own_folder(rt)?;
    Ok(())
}

#[test]
fn the_second_run_is_refused(rt: HostRuntime) -> Result<(), Fail> {
    run_both(&rt, &TWO_RUNS)
}

static TAKEN_OVER: [Step; 9] = [
    Beside(Write("a", b"old")),
    Beside(Write("a.tmp", b"a longer leftover")),
    Puts("a", b"ne", b"w"),
    Holds("a", b"new"),
    // one that this machine made and left
    Does("a", Create),
    Does("a", Append(b"half")),
    Puts("a", b"new", b"er"),
    Holds("a", b"newer"),
    Faults(0),
];

#[test]
fn a_leftover_is_taken_over(rt: HostRuntime) -> Result<(), Fail> {
    run(&rt, rt, &TAKEN_OVER)
}

// A leftover that was changed at the same time and is as long as the file is left alone.
static LEFT_ALONE: [Step; 19] = [
    Beside(WriteAt("a", b"abc", 1_000_000)),
    Beside(WriteAt("a.tmp", b"abc", 1_000_000)),
    Fails("a", Create),
    Fails("a", UnlinkTemp),
    Holds("a.tmp", b"abc"),
    Beside(WriteAt("a", b"abc", 1_000_000)),
    Beside(WriteAt("a.tmp", b"abc", 1_000_002)),
    Does("a", Create),
    Does("a", UnlinkTemp),
    Beside(WriteAt("a", b"abc", 1_000_000)),
    Beside(WriteAt("a.tmp", b"ab", 1_000_000)),
    Does("a", Create),
    Does("a", UnlinkTemp),
    Beside(WriteAt("a", b"abc", 1_000_000)),
    Beside(WriteAt("a.tmp", b"", 1_000_000)),
    Does("a", Create),
    Does("a", UnlinkTemp),
    Holds("a", b"abc"),
    Faults(2),
];

#[test]
fn a_leftover_that_may_be_the_file_itself_is_left_alone(rt: HostRuntime) -> Result<(), Fail> {
    run(&rt, rt, &LEFT_ALONE)
}

// The kernel `kernel` below its digest, and the temporary file that a stopped installation has left beside it.
const PAYLOAD: &str =
    "efi/boot_tools/6923dd1bc0460082c5d55a831908c24a282860b7f1cd6c2b79cf1bc8857c639c";

const LEFT: &str =
    "efi/boot_tools/6923dd1bc0460082c5d55a831908c24a282860b7f1cd6c2b79cf1bc8857c639c.tmp";

static PAYLOAD_LEFT: [Step; 14] = [
    Beside(MakeFolder("efi/loader/entries")),
    Beside(Write("linux", b"kernel")),
    Runs("type1 install a --linux=linux --esp-path=efi", 0),
    Beside(Write(LEFT, b"ker")),
    // these are somebody else's
    Beside(Write("efi/boot_tools/foo.tmp", b"foo")),
    Beside(Write("efi/boot_tools/notes.txt.tmp", b"notes")),
    // who only looks takes nothing
    Runs("bootctl list --esp-path=efi", 0),
    Holds(LEFT, b"ker"),
    Runs("type1 cleanup --esp-path=efi", 0),
    Lacks(LEFT),
    Holds(PAYLOAD, b"kernel"),
    Holds("efi/boot_tools/foo.tmp", b"foo"),
    Holds("efi/boot_tools/notes.txt.tmp", b"notes"),
    Runs("type1 cleanup --esp-path=efi", 0),
];

#[test]
fn a_cleanup_takes_what_is_left_beside_a_payload(rt: HostRuntime) -> Result<(), Fail> {
    run(&rt, rt, &PAYLOAD_LEFT)
}
