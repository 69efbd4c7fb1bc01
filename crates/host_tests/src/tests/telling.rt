// What the log tells of each call that failed.
use super::Act::{self, Create, RenameTemp, Unlink};
use super::{enter_own_folder, holds, is_done, remove_own_folder};
use host_machine::{host_machine, reports_are_wanted};
use std::env::FillError;
use std::fmt::Display;
use std::fs::OpenOptions;
use std::io::Write;
use std::rt::Env;
use std::test::Fail;
use std::{fs, io};

// Prints into a file.
#[derive(Drop)]
struct Notes {
    rt: HostRuntime,
}

impl Notes {
    fn add(&self, bytes: &[u8]) -> io::Result<()> {
        let mut how = OpenOptions::new();
        how.append(true).create(true);
        how.open(&self.rt, "notes")?.write_all(bytes)
    }
}

impl Print for Notes {
    fn print<D: Display + Drop>(&self, value: D) -> io::Result<()> {
        self.add(format!(in self.rt.alloc(); "{value}")?.as_bytes())
    }

    fn println<D: Display + Drop>(&self, value: D) -> io::Result<()> {
        self.add(format!(in self.rt.alloc(); "{value}\n")?.as_bytes())
    }

    fn write_all(&self, bytes: &[u8]) -> io::Result<()> {
        self.add(bytes)
    }
}

const TOLD: &str = "\
boot_tools: create d.tmp: is a directory
boot_tools: remove e: No such file or directory (os error 2)
boot_tools: rename e.tmp: another run has removed it
";

static FAILING: [(&str, Act); 3] = [("d", Create), ("e", Unlink), ("e", RenameTemp)];

// How many of these calls fail.
fn count_failing(rt: HostRuntime, are_wanted: bool) -> Result<u64, Fail> {
    let mut machine = host_machine(rt, Notes { rt }).with_reports(are_wanted);
    for (path, act) in &FAILING {
        is_done(&mut machine, rt.alloc(), path, *act)?;
    }
    Ok(machine.disk_faults())
}

#[test]
fn failures_are_told_where_it_is_wanted(rt: HostRuntime) -> Result<(), Fail> {
    enter_own_folder(&rt)?;
    fs::create_dir(&rt, "d")?;
    assert_eq!(rt; count_failing(rt, false)?, 3);
    assert!(rt; !fs::exists(&rt, "notes")?);
    assert_eq!(rt; count_failing(rt, true)?, 3);
    assert!(rt; holds(&rt, "notes", TOLD.as_bytes())?);
    remove_own_folder(&rt)?;
    Ok(())
}

// An environment of one variable.
#[derive(Drop)]
struct OneVariable {
    name: &'static str,
    value: &'static str,
}

impl Env for OneVariable {
    fn arg(&self, _i: usize, _buf: &mut [u8]) -> Result<usize, FillError> {
        Err(FillError::NotPresent)
    }

    fn var(&self, name: &str, buf: &mut [u8]) -> Result<usize, FillError> {
        if name != self.name {
            return Err(FillError::NotPresent);
        }
        let count = self.value.len();
        if buf.len() < count {
            return Err(FillError::TooLong);
        }
        buf[..count].copy_from_slice(self.value.as_bytes());
        Ok(count)
    }

    fn var_at(&self, _i: usize, _buf: &mut [u8]) -> Result<usize, FillError> {
        Err(FillError::NotPresent)
    }
}

static VARIABLES: [(&str, &str, bool); 5] = [
    ("BOOT_TOOLS_LOG", "1", true),
    ("BOOT_TOOLS_LOG", "0", false),
    ("BOOT_TOOLS_LOG", "", false),
    ("BOOT_TOOLS_LOG", "11", false),
    ("BOOT_TOOLS_LO", "1", false),
];

#[test]
fn the_environment_asks_for_it(rt: HostRuntime) {
    for (name, value, wanted) in &VARIABLES {
        let environment = OneVariable { name, value };
        assert_eq!(rt;
            reports_are_wanted(&environment),
            *wanted,
            "of {name}={value}"
        );
    }
}
