// What is no regular file isn't there, and is never opened.
use super::Act::Create;
use super::Change::{Link, MakeFolder, Write};
use super::Step::{Beside, Fails, Faults, HasNames, Holds, Lacks, Names, Puts, Reads, Size, Syncs};
use super::{Step, enter_own_folder, go_through_over, remove_own_folder, run};
use std::os::fd::AsRawFd;
use std::os::unix::fs::symlink;
use std::test::Fail;
use std::{fs, io};

// Makes a link to a pipe in a folder. A read of the pipe would wait for ever.
fn link_pipe(rt: &HostRuntime, pipe: i32) -> io::Result<()> {
    fs::create_dir(rt, "d")?;
    let of_pipe = format!(in rt.alloc(); "/proc/self/fd/{pipe}")?;
    symlink(rt, of_pipe.as_str(), "d/to_pipe")
}

// The folder has names of each kind: two of files, and six of what is none.
static KINDS: [Step; 30] = [
    Beside(MakeFolder("d/folder")),
    Beside(Write("d/file", b"abc")),
    Beside(Link("file", "d/link")),
    Beside(Link("folder", "d/to_folder")),
    Beside(Link("nothing", "d/to_nothing")),
    Beside(Link("to_itself", "d/to_itself")),
    Beside(Link("/dev/zero", "d/to_device")),
    Size("d/file", Some(3)),
    Reads("d/file", 0, 8, b"abc"),
    Size("d/link", Some(3)),
    Reads("d/link", 0, 8, b"abc"),
    Size("d/folder", None),
    Reads("d/folder", 0, 8, b""),
    Size("d/to_folder", None),
    Reads("d/to_folder", 0, 8, b""),
    Size("d/to_nothing", None),
    Reads("d/to_nothing", 0, 8, b""),
    Size("d/to_itself", None),
    Reads("d/to_itself", 0, 8, b""),
    Size("d/to_device", None),
    Reads("d/to_device", 0, 8, b""),
    Size("d/to_pipe", None),
    Reads("d/to_pipe", 0, 8, b""),
    Names("d", 2),
    // a file in the place of a folder
    Names("d/file", 0),
    Size("d/file/x", None),
    // a folder that can't be synced
    Beside(Link("/proc/self", "proc")),
    HasNames("proc"),
    Syncs(true),
    Faults(0),
];

#[test]
fn other_kinds_are_not_there(rt: HostRuntime) -> Result<(), Fail> {
    enter_own_folder(&rt)?;
    let (reader, _writer) = io::pipe(&rt)?;
    link_pipe(&rt, reader.as_raw_fd())?;
    go_through_over(&rt, rt, &KINDS)?;
    remove_own_folder(&rt)?;
    Ok(())
}

static IN_THE_WAY: [Step; 19] = [
    Beside(MakeFolder("d")),
    Beside(MakeFolder("e.tmp")),
    Beside(Write("file", b"abc")),
    Beside(Link("/dev/null", "device.tmp")),
    Beside(Link("file", "link.tmp")),
    // what can't be replaced by a file, as an output and as a temporary file
    Fails("d", Create),
    Faults(1),
    Fails("device", Create),
    Faults(2),
    Fails("e", Create),
    Faults(3),
    Fails("link", Create),
    Faults(4),
    Lacks("d.tmp"),
    Holds("file", b"abc"),
    // a link to a file is replaced, and not written through
    Beside(Link("file", "output")),
    Puts("output", b"d", b"ef"),
    Holds("file", b"abc"),
    Holds("output", b"def"),
];

#[test]
fn an_output_in_the_way_is_a_fault_at_once(rt: HostRuntime) -> Result<(), Fail> {
    run(&rt, rt, &IN_THE_WAY)
}
