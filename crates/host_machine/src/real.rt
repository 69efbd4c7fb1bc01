//! The calls on the real folder.
ghost use Rattle.std.specs.Prelude.{◌≡◌};
ghost use Rattle.host_machine.specs.Told.{path_for_system};

use crate::answers::{file_answer, read_once, read_once_at, repeated};
use crate::found::found_of;
use crate::growth::grow;
use crate::streams::StandIns;
use folder_calls::{
    Access, Calls, Found, Hold, LockFault, folder_answer, if_allowed, if_new, if_there, if_utf8,
    lock_answer, write_all_bytes,
};
use name_syncs::FolderFault;
use std::alloc::Global;
use std::fs::{DirBuilder, File, OpenOptions, Permissions};
use std::os::unix::fs::{DirBuilderExt, OpenOptionsExt, PermissionsExt};
use std::rt::Runtime;
use std::{fs, io};

/// The mode of a new folder, of which the system takes what the umask says.
const FOLDER_MODE: u32 = 0o755;

/// The folder that the program starts in, as the root of all paths, and the standard streams.
#[derive(Drop)]
pub struct RealFolder<R: Runtime<File = File> + AllocGlobal> {
    rt: R,
    stand_ins: StandIns,
}

impl<R: Runtime<File = File> + AllocGlobal> RealFolder<R> {
    /// The folder that the program of this runtime starts in.
    pub fn new(rt: R) -> Self {
        RealFolder {
            stand_ins: StandIns::new(&rt),
            rt,
        }
    }

    // Opens the file at a path to sync it. What is something else is never opened.
    fn open_file(&self, path: &str) -> io::Result<Option<File>> {
        match self.find(path)? {
            Some(found) if found.is_file() => if_there(fs::open(&self.rt, system_path(path))),
            _ => Ok(None),
        }
    }

    // Opens a folder. What is something else is never opened by a path that ends so.
    fn open_as_folder(&self, folder: &str) -> io::Result<Option<File>> {
        let mut path = String::from_str(self.rt.alloc(), system_path(folder))?;
        path.push_str("/.")?;
        if_there(fs::open(&self.rt, path.as_str()))
    }
}

// The folder of no name, as the system takes it.
fn system_path(path: &str) -> &str
    ensures { result.now ≡ path_for_system path.now }
{
    if path.is_empty() { "." } else { path }
}

impl<R: Runtime<File = File> + AllocGlobal> Calls for RealFolder<R> {
    ghost use Rattle.std.specs.Prelude.{◌≤◌, false, length, IfOk};
    ghost use Rattle.host_machine.specs.Quiet.{inode_untold, locks_untold, tree_untold, waits_untold};

    type File = File;

    type Lock = ();

    ghost tells = { false };

    ghost tree = { λ _. tree_untold };

    ghost waits = { λ _. waits_untold };

    ghost written = { λ _ _. false };

    ghost inode = { λ _. inode_untold };

    ghost locks = { λ _. locks_untold };

    ghost doubts = { λ _ _. false };

    fn find(&self, path: &str) -> io::Result<Option<Found>> {
        let found = if_there(repeated(|| fs::metadata(&self.rt, system_path(path))))?;
        Ok(found.map(|found| found_of(&found)))
    }

    fn find_itself(&self, path: &str) -> io::Result<Option<Found>> {
        let found = if_there(repeated(|| fs::symlink_metadata(&self.rt, system_path(path))))?;
        Ok(found.map(|found| found_of(&found)))
    }

    fn find_open(&self, file: &File) -> io::Result<Found> {
        Ok(found_of(&repeated(|| file.metadata())?))
    }

    fn names(&self, alloc: Global, folder: &str) -> io::Result<Vec<String>> {
        repeated(|| read_names(&self.rt, alloc, system_path(folder)))
    }

    fn open(&self, path: &str, access: Access) -> io::Result<File> {
        let mut how = OpenOptions::new();
        match access {
            Access::Read => how.read(true),
            Access::Append => how.append(true),
        };
        how.open(&self.rt, system_path(path))
    }

    fn open_folder(&self, folder: &str) -> io::Result<Option<File>> {
        self.open_as_folder(folder)
    }

    fn read(&self, file: &File, at: u64, into: &mut [u8]) -> io::Result<usize> {
        read_once_at(file, at, into)
    }

    fn lock(&self, file: &File, hold: Hold) -> Result<(), LockFault<()>> {
        match hold {
            Hold::Shared => lock_answer(file.try_lock_shared()),
            Hold::Alone => lock_answer(file.try_lock()),
        }
    }

    fn create(&mut self, path: &str, mode: u32) -> io::Result<File> {
        OpenOptions::new()
            .append(true)
            .create_new(true)
            .mode(mode)
            .open(&self.rt, path)
    }

    fn append(&mut self, file: &mut File, bytes: &[u8]) -> io::Result<()> {
        write_all_bytes(file, bytes)
    }

    fn set_mode(&mut self, file: &File, _found: &Found, mode: u32) -> io::Result<bool> {
        if_allowed(file.set_permissions(Permissions::from_mode(mode)))
    }

    fn make_folder(&mut self, folder: &str) -> io::Result<()> {
        let mut how = DirBuilder::new();
        how.mode(FOLDER_MODE);
        if_new(repeated(|| how.create(&self.rt, folder)))
    }

    fn rename(&mut self, from: &str, to: &str, _held: Option<&()>) -> io::Result<()> {
        repeated(|| fs::rename(&self.rt, from, to))
    }

    fn put(&mut self, from: &str, to: &str, _made: &(), _held: Option<&()>) -> io::Result<()> {
        repeated(|| fs::rename(&self.rt, from, to))
    }

    fn unlink(&mut self, path: &str, _held: Option<&()>) -> io::Result<()> {
        repeated(|| fs::remove_file(&self.rt, path))
    }

    fn take_back(&mut self, path: &str, _held: &()) -> io::Result<()> {
        repeated(|| fs::remove_file(&self.rt, path))
    }

    fn sync_file(&mut self, path: &str) -> io::Result<bool> {
        match self.open_file(path)? {
            Some(file) => file_answer(file.sync_all()),
            None => Ok(false),
        }
    }

    fn sync_open(&mut self, _path: &str, file: &File) -> io::Result<()> {
        file.sync_all()
    }

    fn sync_folder(&mut self, folder: &str) -> Result<bool, FolderFault<io::Error>> {
        match if_there(fs::open(&self.rt, system_path(folder))) {
            Ok(Some(file)) => folder_answer(file.sync_all()),
            Ok(None) => Ok(false),
            Err(fault) => folder_answer(Err(fault)),
        }
    }

    fn try_folder(&mut self, folder: &str) {
        let _ = grow(&self.rt, system_path(folder));
    }

    fn try_name(&self, path: &str) -> io::Result<()> {
        if_there(repeated(|| fs::rename(&self.rt, path, path)))?;
        Ok(())
    }

    fn print(&self, bytes: &[u8]) -> io::Result<()> {
        write_all_bytes(&mut io::writer(&self.rt), bytes)
    }

    fn input(&self, into: &mut [u8]) -> io::Result<usize>
        ensures { IfOk result (λ n. n ≤ length into.new) }
    {
        read_once(&mut self.rt.reader(), into)
    }
}

fn read_names<R: Runtime + AllocGlobal>(
    rt: &R,
    alloc: Global,
    folder: &str,
) -> io::Result<Vec<String>> {
    let mut names = Vec::new(alloc);
    let Some(entries) = if_there(fs::read_dir(rt, folder))? else {
        return Ok(names);
    };
    for entry in entries {
        if let Some(entry) = if_utf8(entry)? {
            names.push(String::from_str(alloc, entry.file_name())?)?;
        }
    }
    Ok(names)
}
