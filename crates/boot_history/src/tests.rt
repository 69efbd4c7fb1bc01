// Runs in turn, and a run that is stopped; and which entries go if the newest are kept.
mod fickle;
mod minds;
mod newest;

use crate::{run_and_stop, run_each, stop_law};
use boot_base::BootPath;
use boot_run::run;
use memory_machine::{CrashChoice, Fuse, MemFile, MemMachine};
use std::alloc::{AllocError, Global};
use std::process::Abort;
use std::str;
use std::test::Fail;

// The words of a line without quotes, which single spaces part.
fn words_of(alloc: Global, line: &str) -> Result<Vec<String>, AllocError> {
    let mut words = Vec::new(alloc);
    for word in line.split(' ') {
        words.push(String::from_str(alloc, word)?)?;
    }
    Ok(words)
}

fn empty_machine(alloc: Global) -> Result<MemMachine, AllocError> {
    MemMachine::new(alloc, Vec::new(alloc))
}

// All that the machine has printed.
fn check_printed(
    rt: &impl Abort,
    alloc: Global,
    machine: &MemMachine,
    wanted: &str,
) -> Result<(), Fail> {
    let mut bytes = Vec::new(alloc);
    for printed in machine.printed_bytes() {
        bytes.push(printed.byte)?;
    }
    assert_eq!(rt; str::from_utf8(bytes.as_slice()), Ok(wanted));
    Ok(())
}

#[test]
fn runs_print_one_behind_the_other(rt: HostRuntime) -> Result<(), Fail> {
    let alloc = rt.alloc();
    let calls = vec![in alloc;
        words_of(alloc, "tidy")?,
        words_of(alloc, "bootctl list")?,
        words_of(alloc, "bootctl lst")?,
    ]?;
    let mut machine = empty_machine(alloc)?;
    let mut statuses = [5; 3];
    run_each(alloc, calls.as_slice(), &mut statuses, &mut machine);
    assert_eq!(rt; statuses, [0, 1, 2]);
    let wanted = "cleaned\nrefusal 13: no entries\nusage: unknown verb lst\n";
    check_printed(&rt, alloc, &machine, wanted)
}

#[test]
fn a_run_prints_nothing_that_is_stopped_at_once(rt: HostRuntime) -> Result<(), Fail> {
    let alloc = rt.alloc();
    let words = words_of(alloc, "tidy")?;
    for (calls, wanted) in [(0, ""), (1000, "cleaned\n")] {
        let choice = CrashChoice {
            candidate: 0,
            fill: Vec::new(alloc),
        };
        let left = run_and_stop(alloc, &words, empty_machine(alloc)?, calls, &choice)?;
        stop_law::<MemMachine>();
        check_printed(&rt, alloc, &left, wanted)?;
    }
    Ok(())
}

// A machine with one file, whose nine bytes are an entry.
fn machine_with(alloc: Global, path: &str) -> Result<MemMachine, Fail> {
    let path = BootPath::read(alloc, path)?.into_file();
    let bytes = b"linux /k\n".to_vec(alloc)?;
    Ok(MemMachine::new(alloc, vec![in alloc; MemFile { path, bytes }]?)?)
}

// The status of a run of which a machine with that file passes so many calls, and how many bytes it has read.
fn run_within(alloc: Global, path: &str, line: &str, calls: u64) -> Result<(u8, u64), Fail> {
    let words = words_of(alloc, line)?;
    let mut fuse = Fuse::new(machine_with(alloc, path)?, calls);
    let status = run(alloc, &words, &mut fuse);
    let mut count = 0;
    for read in fuse.into_inner().reads() {
        count = read.length.saturating_add(count);
    }
    Ok((status, count))
}

// A `keep` that removes nothing makes as many calls as a list, so it looks once. An installation reads its kernel twice:
// for the digest and for the copy. The last call of each run prints.
#[test]
fn what_a_command_comes_to_is_found_once(rt: HostRuntime) -> Result<(), Fail> {
    let alloc = rt.alloc();
    let entry = "efi/loader/entries/a.conf";
    for (path, line, calls, status, bytes) in [
        (entry, "bootctl list", 8, 0, 9),
        (entry, "keep 1", 8, 0, 9),
        (entry, "keep 1 --dry-run", 8, 0, 9),
        (entry, "keep x", 4, 1, 0),
        (entry, "type1 cleanup", 10, 0, 9),
        (entry, "type1 install b --linux=k", 5, 1, 0),
        ("k", "type1 install b --linux=k", 22, 0, 18),
    ] {
        assert_eq!(rt; run_within(alloc, path, line, calls)?, (status, bytes));
        let stopped = run_within(alloc, path, line, calls.saturating_sub(1))?;
        assert_eq!(rt; stopped, (4, bytes));
    }
    Ok(())
}
