// A system with a folder that can't be synced, and a file that is renamed before it is locked.
use super::Act::{Create, Unlink};
use super::Change::{MakeFolder, Write};
use super::Step::{Beside, Does, Faults, Holds, Names, Puts, Syncs};
use super::noted::NotedSystem;
use super::{Step, run};
use std::test::Fail;

static CHANGED: [Step; 6] = [
    Beside(MakeFolder("odd")),
    Names("odd", 0),
    Syncs(true),
    Does("odd/a", Create),
    Syncs(false),
    Faults(1),
];

#[test]
fn a_changed_folder_must_be_synced(rt: HostRuntime) -> Result<(), Fail> {
    run(&rt, NotedSystem { rt }, &CHANGED)
}

static ABOVE: [Step; 6] = [
    Beside(MakeFolder("odd/folder")),
    Puts("odd/folder/a", b"a", b""),
    Syncs(true),
    Does("odd/folder/a", Unlink),
    Syncs(true),
    Faults(0),
];

#[test]
fn a_folder_above_a_changed_one_may_be_of_a_file_system_without_syncs(
    rt: HostRuntime,
) -> Result<(), Fail> {
    run(&rt, NotedSystem { rt }, &ABOVE)
}

static MADE: [Step; 4] = [
    Beside(MakeFolder("odd")),
    Does("odd/folder/a", Create),
    Syncs(false),
    Faults(1),
];

#[test]
fn a_folder_in_which_one_is_made_must_be_synced(rt: HostRuntime) -> Result<(), Fail> {
    run(&rt, NotedSystem { rt }, &MADE)
}

static RENAMED: [Step; 5] = [
    Beside(Write("taken.tmp", b"abc")),
    Does("taken", Create),
    Faults(0),
    Holds("taken", b"abc"),
    Holds("taken.tmp", b""),
];

#[test]
fn a_file_that_was_renamed_is_not_taken_over(rt: HostRuntime) -> Result<(), Fail> {
    run(&rt, NotedSystem { rt }, &RENAMED)
}
