// The program on a real folder: how its runs end, and what is left there.
use super::Act::{Append, Create};
use super::Change::{Crowd, Link, MakeFolder, RemoveFolder, Write};
use super::Step::{Beside, Does, Faults, Holds, Lacks, Runs, Same};
use super::{Step, enter_own_folder, go_through, go_through_over, remove_own_folder};
use host_machine::{HostMachine, host_machine};
use sample_images::{OSREL_TEXT, SampleImage};
use std::io::Stderr;
use std::test::Fail;
use std::{fs, io};

// A stub, what a build on it makes with a kernel `abc`, and an image that is an entry.
fn write_images(rt: &HostRuntime) -> io::Result<()> {
    let unified = SampleImage::image_of_two(b".osrel", OSREL_TEXT.as_bytes());
    fs::write(rt, "stub", SampleImage::stub().bytes())?;
    fs::write(rt, "kernel.efi", SampleImage::kernel_image().bytes())?;
    fs::write(rt, "u.efi", unified.bytes())?;
    fs::write(rt, "k", b"abc".as_slice())
}

const BUILD: &str = "ukify build --stub=stub --linux=k --output=out.efi";

static RUNS: [Step; 32] = [
    Beside(MakeFolder("efi/EFI/Linux")),
    Beside(Write("efi/EFI/Linux/a.efi", b"a")),
    Beside(Write("efi/EFI/Linux/z.efi.tmp", b"z")),
    Runs("measure calculate --linux=k --bank=sha256 --phase=", 0),
    Runs("bootctl unlink a.efi", 0),
    Runs("tidy", 0),
    Runs(BUILD, 0),
    Same("out.efi", "kernel.efi"),
    Runs("measure image out.efi --bank=sha256 --phase=", 0),
    // a file is read in a folder that can't be synced
    Beside(Link("/proc/self", "proc")),
    Runs("bootctl kernel-identify proc/status", 0),
    Runs("install u.efi fedora-6.8 --tries=3", 0),
    Same("efi/EFI/Linux/fedora-6.8+3.efi", "u.efi"),
    Runs("boot", 0),
    Runs("bootctl list", 0),
    Same("efi/EFI/Linux/fedora-6.8+2-1.efi", "u.efi"),
    Lacks("boot_tools.intent"),
    Runs("bootctl unlink fedora-6.8+2-1.efi", 0),
    Faults(0),
    // what is no file
    Beside(Link("/dev/zero", "device")),
    Runs("ukify build --stub=stub --linux=device --output=no.efi", 1),
    Lacks("no.efi.tmp"),
    Runs("install device zero", 1),
    Faults(0),
    // a folder where the output is to be
    Runs("ukify build --stub=stub --linux=k --output=efi", 3),
    Lacks("efi.tmp"),
    Beside(Write("efi/EFI/Linux/z.efi.tmp", b"z")),
    Runs("tidy", 0),
    Lacks("efi/EFI/Linux/z.efi.tmp"),
    Holds("k", b"abc"),
    Same("out.efi", "kernel.efi"),
    Lacks("no.efi"),
];

// Goes through the steps in a folder with these images.
fn run_with_images(rt: &HostRuntime, steps: &[Step]) -> Result<(), Fail> {
    enter_own_folder(rt)?;
    write_images(rt)?;
    go_through_over(rt, *rt, steps)?;
    remove_own_folder(rt)?;
    Ok(())
}

#[test]
fn the_program_runs_in_a_folder(rt: HostRuntime) -> Result<(), Fail> {
    run_with_images(&rt, &RUNS)
}

// At most 4,096 entry files of both folders are read. The image alone is an entry.
static CROWDS: [Step; 13] = [
    Beside(MakeFolder("efi/loader/entries")),
    Beside(MakeFolder("efi/EFI/Linux")),
    Beside(Crowd("efi/loader/entries", 4095, ".conf")),
    Runs("install u.efi a", 0),
    Runs("bootctl list", 0),
    Beside(Write("efi/loader/entries/one.conf", b"")),
    Runs("bootctl list", 1),
    Runs("boot", 1),
    Beside(RemoveFolder("efi/loader")),
    Beside(Crowd("efi/EFI/Linux", 4095, ".efi")),
    Runs("bootctl list", 0),
    Beside(Write("efi/EFI/Linux/one.efi", b"")),
    Runs("bootctl list", 1),
];

#[test]
fn more_entry_files_than_are_read_are_refused(rt: HostRuntime) -> Result<(), Fail> {
    run_with_images(&rt, &CROWDS)
}

static HALF_WRITTEN: [Step; 2] = [Does("out.efi", Create), Does("out.efi", Append(b"half"))];

static AT_THE_SAME_TIME: [Step; 2] = [Runs(BUILD, 3), Holds("out.efi.tmp", b"half")];

static AFTERWARDS: [Step; 2] = [Runs(BUILD, 0), Same("out.efi", "kernel.efi")];

// Goes through the steps of a second run while a first one has half written its output. The first run is gone then, and
// has left its temporary file.
fn build_at_the_same_time(
    rt: &HostRuntime,
    second: &mut HostMachine<HostRuntime, Stderr>,
) -> Result<(), Fail> {
    let mut first = host_machine(*rt, rt.stderr());
    go_through(rt, &mut first, &HALF_WRITTEN)?;
    go_through(rt, second, &AT_THE_SAME_TIME)
}

fn build_twice(rt: &HostRuntime) -> Result<(), Fail> {
    let mut second = host_machine(*rt, rt.stderr());
    build_at_the_same_time(rt, &mut second)?;
    go_through(rt, &mut second, &AFTERWARDS)
}

#[test]
fn a_second_build_of_an_output_fails(rt: HostRuntime) -> Result<(), Fail> {
    enter_own_folder(&rt)?;
    write_images(&rt)?;
    build_twice(&rt)?;
    remove_own_folder(&rt)?;
    Ok(())
}
