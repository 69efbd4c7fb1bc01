//! The calls on a real folder, whose answers no clause tells. A test is a table of steps.
use boot_base::{BootPath, FilePath, INTENT, TempPath};
use boot_machine::Machine;
use host_machine::{HostMachine, host_machine};
use std::alloc::{AllocError, Global};
use std::fs::{File, OpenOptions};
use std::io::Stderr;
use std::os::unix::fs::symlink;
use std::rt::Runtime;
use std::test::Fail;
use std::time::{Duration, SystemTime};
use std::{env, fs, io, process};

mod contents;
mod intents;
mod kinds;
mod naming;
mod noted;
mod odd;
mod program;
mod runs;
mod telling;

// A call of the machine that changes a file: the one at a path, or the path's temporary file.
#[derive(Clone, Copy)]
enum Act {
    Create,
    Append(&'static [u8]),
    SyncFile,
    UnlinkTemp,
    // Renames the temporary file to the path.
    RenameTemp,
    // Renames the file at the path to that path.
    Rename(&'static str),
    Unlink,
}

// A change of the folder beside the machine.
#[derive(Clone, Copy)]
enum Change {
    MakeFolder(&'static str),
    RemoveFolder(&'static str),
    Remove(&'static str),
    // A link to the first path at the second.
    Link(&'static str, &'static str),
    Write(&'static str, &'static [u8]),
    // Writes a file that was last changed so many seconds after the start of 1970.
    WriteAt(&'static str, &'static [u8], u64),
    // Writes so many empty files into a folder, named by numbers and that ending.
    Crowd(&'static str, u64, &'static str),
}

// What is done, and what must come of it.
#[derive(Clone, Copy)]
enum Step {
    Does(&'static str, Act),
    Fails(&'static str, Act),
    // Whether the names are synced.
    Syncs(bool),
    // A file is written by its temporary name, in two pieces.
    Puts(&'static str, &'static [u8], &'static [u8]),
    Size(&'static str, Option<u64>),
    // What a buffer of so many bytes, at most eight, gets from that place in a file.
    Reads(&'static str, u64, usize, &'static [u8]),
    // How many names are in a folder.
    Names(&'static str, usize),
    HasNames(&'static str),
    // How often the disk has failed in the calls of the machine itself. The pipes never have.
    Faults(u64),
    Beside(Change),
    // A file has these bytes.
    Holds(&'static str, &'static [u8]),
    // Nothing is at that path.
    Lacks(&'static str),
    // Two files have the same bytes.
    Same(&'static str, &'static str),
    // The program runs on these words, which single spaces part, and ends with that status. Each is a run of its own, over
    // another machine.
    Runs(&'static str, u8),
}

// The name of a folder of this process' own.
fn own_folder(rt: &HostRuntime) -> Result<String, AllocError> {
    let process = process::id(rt.process());
    format!(in rt.alloc(); "host_machine_{process}")
}

// Makes that folder among the temporary ones, and goes there.
fn enter_own_folder(rt: &HostRuntime) -> io::Result<()> {
    let parent = env::temp_dir(rt)?;
    env::set_current_dir(rt, parent.as_path())?;
    let folder = own_folder(rt)?;
    fs::create_dir(rt, folder.as_str())?;
    env::set_current_dir(rt, folder.as_str())
}

fn remove_own_folder(rt: &HostRuntime) -> io::Result<()> {
    env::set_current_dir(rt, "..")?;
    fs::remove_dir_all(rt, own_folder(rt)?.as_str())
}

// The path of a file, which may be the intent.
fn path_of(alloc: Global, path: &str) -> Result<FilePath, Fail> {
    if path == INTENT {
        return Ok(FilePath::intent(alloc)?);
    }
    Ok(BootPath::read(alloc, path)?.into_file())
}

// The path of a file, and where it is written first.
#[derive(Drop)]
struct TestRoom {
    path: FilePath,
    temp: TempPath,
}

fn place_of(alloc: Global, path: &str) -> Result<TestRoom, Fail> {
    let path = path_of(alloc, path)?;
    let temp = TempPath::of(alloc, &path)?;
    Ok(TestRoom { path, temp })
}

// Whether the file at a path is moved to another.
fn is_renamed<R: Runtime<File = File> + AllocGlobal, E: Print + Drop>(
    machine: &mut HostMachine<R, E>,
    alloc: Global,
    from: &str,
    to: &str,
) -> Result<bool, Fail> {
    let from = BootPath::read(alloc, from)?;
    let to = BootPath::read(alloc, to)?;
    Ok(machine.rename_name(&from, &to).is_ok())
}

// Whether the call at the path is answered Ok.
fn is_done<R: Runtime<File = File> + AllocGlobal, E: Print + Drop>(
    machine: &mut HostMachine<R, E>,
    alloc: Global,
    path: &str,
    act: Act,
) -> Result<bool, Fail> {
    let place = place_of(alloc, path)?;
    let answer = match act {
        Act::Create => machine.create(&place.temp),
        Act::Append(bytes) => machine.append(&place.temp, bytes),
        Act::SyncFile => machine.sync_file(&place.temp),
        Act::UnlinkTemp => machine.unlink_temp(&place.temp),
        Act::RenameTemp => machine.rename_temp(&place.temp, &place.path),
        Act::Rename(to) => return is_renamed(machine, alloc, path, to),
        Act::Unlink => machine.unlink(&place.path),
    };
    Ok(answer.is_ok())
}

// Whether each call of the write is answered Ok.
fn is_put<R: Runtime<File = File> + AllocGlobal>(
    machine: &mut HostMachine<R, Stderr>,
    alloc: Global,
    path: &str,
    pieces: [&'static [u8]; 2],
) -> Result<bool, Fail> {
    let [first, second] = pieces;
    let acts = [
        Act::Create,
        Act::Append(first),
        Act::Append(second),
        Act::SyncFile,
        Act::RenameTemp,
    ];
    let mut is_put = true;
    for act in acts {
        is_put = is_done(machine, alloc, path, act)? && is_put;
    }
    Ok(machine.sync_names().is_ok() && is_put)
}

fn has_size<R: Runtime<File = File> + AllocGlobal>(
    machine: &mut HostMachine<R, Stderr>,
    alloc: Global,
    path: &str,
    wanted: Option<u64>,
) -> Result<bool, Fail> {
    let path = path_of(alloc, path)?;
    Ok(machine.size(&path)? == wanted)
}

// Whether a buffer gets these bytes.
fn fills<R: Runtime<File = File> + AllocGlobal>(
    machine: &mut HostMachine<R, Stderr>,
    path: &FilePath,
    at: u64,
    into: &mut [u8],
    wanted: &[u8],
) -> Result<bool, Fail> {
    let count = machine.read_at(path, at, into)?;
    Ok(&into[..count.min(into.len())] == wanted)
}

// Whether a buffer of so many bytes, at most eight, gets these.
fn gets<R: Runtime<File = File> + AllocGlobal>(
    machine: &mut HostMachine<R, Stderr>,
    alloc: Global,
    path: &str,
    at: u64,
    room: usize,
    wanted: &[u8],
) -> Result<bool, Fail> {
    let path = path_of(alloc, path)?;
    let mut into = [0u8; 8];
    fills(machine, &path, at, &mut into[..room.min(8)], wanted)
}

fn count_names<R: Runtime<File = File> + AllocGlobal>(
    machine: &mut HostMachine<R, Stderr>,
    alloc: Global,
    folder: &str,
) -> Result<usize, Fail> {
    let folder = BootPath::read(alloc, folder)?;
    Ok(machine.names(alloc, &folder)?.len())
}

fn write_at(rt: &HostRuntime, path: &str, bytes: &[u8], seconds: u64) -> io::Result<()> {
    fs::write(rt, path, bytes)?;
    let file = OpenOptions::new().append(true).open(rt, path)?;
    match SystemTime::UNIX_EPOCH.checked_add(Duration::from_secs(seconds)) {
        Some(time) => file.set_modified(time),
        None => Err(io::Error::from(io::ErrorKind::InvalidInput)),
    }
}

fn write_numbered(rt: &HostRuntime, folder: &str, number: u64, ending: &str) -> io::Result<()> {
    let path = format!(in rt.alloc(); "{folder}/{number}{ending}")?;
    fs::write(rt, path.as_str(), b"".as_slice())
}

fn write_crowd(rt: &HostRuntime, folder: &str, count: u64, ending: &str) -> io::Result<()> {
    for number in 0..count {
        write_numbered(rt, folder, number, ending)?;
    }
    Ok(())
}

fn make_change(rt: &HostRuntime, change: Change) -> io::Result<()> {
    match change {
        Change::MakeFolder(path) => fs::create_dir_all(rt, path),
        Change::RemoveFolder(path) => fs::remove_dir_all(rt, path),
        Change::Remove(path) => fs::remove_file(rt, path),
        Change::Link(to, path) => symlink(rt, to, path),
        Change::Write(path, bytes) => fs::write(rt, path, bytes),
        Change::WriteAt(path, bytes, seconds) => write_at(rt, path, bytes, seconds),
        Change::Crowd(folder, count, ending) => write_crowd(rt, folder, count, ending),
    }
}

fn holds(rt: &HostRuntime, path: &str, bytes: &[u8]) -> Result<bool, Fail> {
    let held = fs::read(rt, path)?;
    Ok(held.as_slice() == bytes)
}

fn are_same(rt: &HostRuntime, path: &str, other: &str) -> Result<bool, Fail> {
    let bytes = fs::read(rt, other)?;
    holds(rt, path, bytes.as_slice())
}

// The words of a line, which single spaces part.
fn words_of(alloc: Global, line: &str) -> Result<Vec<String>, AllocError> {
    let mut words = Vec::new(alloc);
    for word in line.split(' ') {
        words.push(String::from_str(alloc, word)?)?;
    }
    Ok(words)
}

// Runs the program on these words, and says its status.
fn status_of<M: Machine>(alloc: Global, words: &Vec<String>, machine: &mut M) -> u8 {
    boot_run::run(alloc, words, machine)
}

// Whether the program ends on the words of this line with that status.
fn ends_with(rt: &HostRuntime, line: &str, status: u8) -> Result<bool, Fail> {
    let words = words_of(rt.alloc(), line)?;
    let mut machine = host_machine(*rt, rt.stderr());
    Ok(status_of(rt.alloc(), &words, &mut machine) == status)
}

// Whether what the step looks at is as it must be. A step of another kind isn't one of these.
fn is_seen<R: Runtime<File = File> + AllocGlobal>(
    rt: &HostRuntime,
    machine: &mut HostMachine<R, Stderr>,
    step: Step,
) -> Result<bool, Fail> {
    match step {
        Step::Size(path, wanted) => has_size(machine, rt.alloc(), path, wanted),
        Step::Reads(path, at, room, wanted) => { gets(machine, rt.alloc(), path, at, room, wanted) }
        Step::Names(folder, wanted) => Ok(count_names(machine, rt.alloc(), folder)? == wanted),
        Step::HasNames(folder) => Ok(count_names(machine, rt.alloc(), folder)? > 0),
        Step::Holds(path, bytes) => holds(rt, path, bytes),
        Step::Lacks(path) => Ok(!fs::exists(rt, path)?),
        Step::Same(path, other) => are_same(rt, path, other),
        _ => Ok(false),
    }
}

// Whether of the step comes what must.
fn is_right<R: Runtime<File = File> + AllocGlobal>(
    rt: &HostRuntime,
    machine: &mut HostMachine<R, Stderr>,
    step: Step,
) -> Result<bool, Fail> {
    match step {
        Step::Does(path, act) => is_done(machine, rt.alloc(), path, act),
        Step::Fails(path, act) => Ok(!is_done(machine, rt.alloc(), path, act)?),
        Step::Syncs(wanted) => Ok(machine.sync_names().is_ok() == wanted),
        Step::Puts(path, first, second) => is_put(machine, rt.alloc(), path, [first, second]),
        Step::Faults(wanted) => Ok(machine.disk_faults() == wanted && machine.pipe_faults() == 0),
        Step::Beside(change) => Ok(make_change(rt, change).is_ok()),
        Step::Runs(words, wanted) => ends_with(rt, words, wanted),
        _ => is_seen(rt, machine, step),
    }
}

// Requires that of the step at that place comes what must.
fn require<R: Runtime<File = File> + AllocGlobal>(
    rt: &HostRuntime,
    machine: &mut HostMachine<R, Stderr>,
    place: usize,
    step: Step,
) -> Result<(), Fail> {
    if is_right(rt, machine, step)? {
        return Ok(());
    }
    Err(Fail::new(format_args!("at step {place}")))
}

fn go_through<R: Runtime<File = File> + AllocGlobal>(
    rt: &HostRuntime,
    machine: &mut HostMachine<R, Stderr>,
    steps: &[Step],
) -> Result<(), Fail> {
    for (place, step) in steps.iter().enumerate() {
        require(rt, machine, place, *step)?;
    }
    Ok(())
}

// Goes through the steps with a machine over that system.
fn go_through_over<R: Runtime<File = File> + AllocGlobal>(
    rt: &HostRuntime,
    system: R,
    steps: &[Step],
) -> Result<(), Fail> {
    let mut machine = host_machine(system, rt.stderr());
    go_through(rt, &mut machine, steps)
}

// Goes through the steps with a machine over that system, in a folder of this process' own.
fn run<R: Runtime<File = File> + AllocGlobal>(
    rt: &HostRuntime,
    system: R,
    steps: &[Step],
) -> Result<(), Fail> {
    enter_own_folder(rt)?;
    go_through_over(rt, system, steps)?;
    remove_own_folder(rt)?;
    Ok(())
}
