// The process' own system, but for two paths, with a note of each file and folder that is opened.
use std::alloc::{Allocator, Global};
use std::env::FillError;
use std::fmt::Display;
use std::fs::{File, Metadata, OpenOptions};
use std::io::{Lines, Write};
use std::rt::{Clock, Env, Files, Runtime};
use std::time::Duration;
use std::{fs, io};

// The file of the notes, a line for each.
pub(super) const NOTES: &str = "notes";

// `odd` is a folder that can't be synced, and another run renames `taken.tmp`, if it has bytes, as soon as it is opened.
#[derive(Clone, Copy)]
pub(super) struct NotedSystem {
    pub(super) rt: HostRuntime,
}

impl NotedSystem {
    fn note(&self, path: &str) -> io::Result<()> {
        let mut how = OpenOptions::new();
        how.append(true).create(true);
        let mut notes = how.open(&self.rt, NOTES)?;
        notes.write_all(format!(in self.rt.alloc(); "{path}\n")?.as_bytes())
    }
}

impl Runtime for NotedSystem {}

impl Files for NotedSystem {
    type File = File;

    type Dir = <HostRuntime as Files>::Dir;

    fn open_file(&self, how: &OpenOptions, path: &str) -> io::Result<File> {
        self.note(path)?;
        let file = self.rt.open_file(how, path)?;
        match path {
            "odd" => fs::open(&self.rt, "/dev/null"),
            "taken.tmp" if fs::metadata(&self.rt, path)?.len() > 0 => {
                fs::rename(&self.rt, path, "taken")?;
                Ok(file)
            }
            _ => Ok(file),
        }
    }

    fn open_dir(&self, path: &str) -> io::Result<Self::Dir> {
        self.rt.open_dir(path)
    }

    fn metadata(&self, path: &str) -> io::Result<Metadata> {
        self.rt.metadata(path)
    }

    fn symlink_metadata(&self, path: &str) -> io::Result<Metadata> {
        self.rt.symlink_metadata(path)
    }

    fn copy(&self, from: &str, to: &str) -> io::Result<u64> {
        self.rt.copy(from, to)
    }

    fn rename(&self, from: &str, to: &str) -> io::Result<()> {
        self.rt.rename(from, to)
    }

    fn remove_file(&self, path: &str) -> io::Result<()> {
        self.rt.remove_file(path)
    }

    fn create_dir(&self, path: &str) -> io::Result<()> {
        self.rt.create_dir(path)
    }

    fn create_dir_with_mode(&self, path: &str, mode: u32) -> io::Result<()> {
        self.rt.create_dir_with_mode(path, mode)
    }

    fn remove_dir(&self, path: &str) -> io::Result<()> {
        self.rt.remove_dir(path)
    }

    fn remove_dir_all<B: Allocator>(&self, alloc: B, path: &str) -> io::Result<()> {
        self.rt.remove_dir_all(alloc, path)
    }
}

impl Alloc for NotedSystem {
    type A = Global;

    fn alloc(&self) -> Global {
        self.rt.alloc()
    }
}

impl Env for NotedSystem {
    fn arg(&self, i: usize, buf: &mut [u8]) -> Result<usize, FillError> {
        self.rt.arg(i, buf)
    }

    fn var(&self, name: &str, buf: &mut [u8]) -> Result<usize, FillError> {
        self.rt.var(name, buf)
    }

    fn var_at(&self, i: usize, buf: &mut [u8]) -> Result<usize, FillError> {
        self.rt.var_at(i, buf)
    }
}

impl Clock for NotedSystem {
    fn monotonic(&self) -> io::Result<Duration> {
        self.rt.monotonic()
    }

    fn since_1970(&self) -> io::Result<Duration> {
        self.rt.since_1970()
    }
}

impl Print for NotedSystem {
    fn print<D: Display + Drop>(&self, value: D) -> io::Result<()> {
        self.rt.print(value)
    }

    fn println<D: Display + Drop>(&self, value: D) -> io::Result<()> {
        self.rt.println(value)
    }

    fn write_all(&self, bytes: &[u8]) -> io::Result<()> {
        self.rt.write_all(bytes)
    }
}

impl Eprint for NotedSystem {
    fn eprint<D: Display + Drop>(&self, value: D) -> io::Result<()> {
        self.rt.eprint(value)
    }

    fn eprintln<D: Display + Drop>(&self, value: D) -> io::Result<()> {
        self.rt.eprintln(value)
    }
}

impl Input for NotedSystem {
    type Reader = <HostRuntime as Input>::Reader;

    fn read_line<A: Allocator + Clone>(&self, buf: &mut String<A>) -> io::Result<usize> {
        self.rt.read_line(buf)
    }

    fn lines<A: Allocator>(&self, alloc: A) -> Lines<Self::Reader, A> {
        self.rt.lines(alloc)
    }

    fn reader(&self) -> Self::Reader {
        self.rt.reader()
    }
}
