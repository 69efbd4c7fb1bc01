//! A machine that changes its mind about one file, and tells nothing of what it holds.
ghost use Rattle.std.specs.Prelude.{◌≤◌, length};
ghost use Rattle.boot_machine.specs.Prelude.{CountsDisk, CountsPipe};

use boot_base::{BootPath, FileName, FilePath, TempPath, copy_from};
use boot_machine::{Channel, DiskFault, Machine, PipeFault, Printed, ReadFault};
use std::alloc::{AllocError, Global};

/// A file by its path.
#[derive(Drop)]
pub(crate) struct Kept {
    pub(crate) path: String,
    pub(crate) bytes: Vec<u8>,
}

/// How a machine changes its mind: before the call of that number, counted from 1, a file of these bytes comes to stand
/// at the path, or the one that is there goes.
#[derive(Drop)]
pub(crate) struct Turn {
    pub(crate) call: u64,
    pub(crate) path: String,
    pub(crate) bytes: Option<Vec<u8>>,
}

/// The files, the number of calls, and the turn that is to come.
#[derive(Drop)]
struct Shelf {
    files: Vec<Kept>,
    calls: u64,
    turn: Option<Turn>,
}

/// How often it has failed.
#[derive(Drop)]
struct Faults {
    disk: u64,
    pipe: u64,
}

/// A machine that holds a list of files, and changes its mind about one of them between two calls. A call fails that is
/// to change a file which isn't there, or finds no memory. It lists no folder, and has no input.
#[derive(Drop)]
pub(crate) struct Fickle {
    shelf: Shelf,
    printed: Vec<Printed>,
    faults: Faults,
}

/// The file at a path.
pub(crate) fn kept_at<'a>(files: &'a [Kept], path: &str) -> Option<&'a Kept> {
    files.iter().find(|kept| kept.path.as_str() == path)
}

// A call gives None if it isn't done.
impl Shelf {
    fn take(&mut self, path: &str) -> Option<Vec<u8>> {
        let at = self
            .files
            .iter()
            .position(|kept| kept.path.as_str() == path)?;
        Some(self.files.remove(at).bytes)
    }

    // The bytes come to stand at the path, in place of a file that is there.
    fn put(&mut self, path: &str, bytes: Vec<u8>) -> Option<()> {
        drop(self.take(path));
        let path = String::from_str(*self.files.allocator(), path).ok()?;
        self.files.push(Kept { path, bytes }).ok()
    }

    // The machine changes its mind.
    fn change(&mut self, turn: Turn) {
        let Turn { path, bytes, .. } = turn;
        drop(self.take(path.as_str()));
        if let Some(bytes) = bytes {
            self.put(path.as_str(), bytes);
        }
    }

    // A call begins.
    fn begin(&mut self) {
        self.calls = self.calls.saturating_add(1);
        match self.turn.take() {
            Some(turn) if turn.call == self.calls => self.change(turn),
            later => self.turn = later,
        }
    }

    fn size(&self, path: &str) -> Option<u64> {
        let kept = kept_at(&self.files, path)?;
        Some(kept.bytes.len() as u64)
    }

    fn read(&self, path: &str, at: u64, into: &mut [u8]) -> usize
        ensures { result ≤ length into.new }
    {
        match kept_at(&self.files, path) {
            Some(kept) => copy_from(&kept.bytes, at as usize, into),
            None => 0,
        }
    }

    fn append(&mut self, path: &str, more: &[u8]) -> Option<()> {
        let mut bytes = self.take(path)?;
        bytes.extend_from_slice(more).ok()?;
        self.put(path, bytes)
    }

    fn rename(&mut self, from: &str, to: &str) -> Option<()> {
        let bytes = self.take(from)?;
        self.put(to, bytes)
    }

    fn unlink(&mut self, path: &str) -> Option<()> {
        drop(self.take(path)?);
        Some(())
    }
}

impl Faults {
    // Counts a fault of the disk unless the call is done.
    fn disk(&mut self, done: Option<()>) -> Result<(), DiskFault>
        ensures { CountsDisk result
            (record { disk_faults = self.old.disk; pipe_faults = self.old.pipe })
            (record { disk_faults = self.new.disk; pipe_faults = self.new.pipe }) }
    {
        if done.is_some() {
            return Ok(());
        }
        self.disk = self.disk.saturating_add(1);
        Err(DiskFault)
    }

    // Counts a fault of a pipe unless the call is done.
    fn pipe(&mut self, done: Option<()>) -> Result<(), PipeFault>
        ensures { CountsPipe result
            (record { disk_faults = self.old.disk; pipe_faults = self.old.pipe })
            (record { disk_faults = self.new.disk; pipe_faults = self.new.pipe }) }
    {
        if done.is_some() {
            return Ok(());
        }
        self.pipe = self.pipe.saturating_add(1);
        Err(PipeFault)
    }
}

// Puts these bytes behind what was printed.
fn add_printed(printed: &mut Vec<Printed>, to: Channel, bytes: &[u8]) -> Result<(), AllocError> {
    for byte in bytes {
        printed.push(Printed { to, byte: *byte })?;
    }
    Ok(())
}

impl Fickle {
    /// A machine with these files and a turn that is to come.
    pub(crate) fn new(alloc: Global, files: Vec<Kept>, turn: Turn) -> Fickle {
        Fickle {
            shelf: Shelf {
                files,
                calls: 0,
                turn: Some(turn),
            },
            printed: Vec::new(alloc),
            faults: Faults { disk: 0, pipe: 0 },
        }
    }

    /// How many calls there were.
    pub(crate) fn calls(&self) -> u64 {
        self.shelf.calls
    }

    /// The bytes that were printed, each with where it went.
    pub(crate) fn printed_bytes(&self) -> &[Printed] {
        &self.printed
    }

    /// The files that it holds at last.
    pub(crate) fn into_files(self) -> Vec<Kept> {
        self.shelf.files
    }
}

impl Machine for Fickle {
    ghost use Rattle.std.specs.Prelude.{false, []};
    ghost use Rattle.std.specs.FinMap as map;
    ghost use Rattle.std.specs.FinSet as set;
    ghost use Rattle.std.proofs.lemmas.Bool.{false≢true};

    ghost tells = { false };

    ghost state = { λ _. record { files = map.empty; earlier = []; soft = set.empty; printed = []; input = [] } };

    ghost time = { record { clock = λ _. 0; since = λ _ _ _ _. ⊥ } };

    ghost counts = { λ m. record { disk_faults = m.faults.disk; pipe_faults = m.faults.pipe } };

    ghost taken = { λ _. 0 };

    ghost sound = { λ m told. absurd (false≢true told) };

    ghost counts_now = { λ m t files told le image. absurd (false≢true told) };

    ghost only_now = { λ m files printed told left. absurd (false≢true told) };

    fn size(&mut self, path: &FilePath) -> Result<Option<u64>, DiskFault> {
        self.shelf.begin();
        Ok(self.shelf.size(path.as_str()))
    }

    fn read_at(&mut self, path: &FilePath, at: u64, into: &mut [u8]) -> Result<usize, DiskFault> {
        self.shelf.begin();
        Ok(self.shelf.read(path.as_str(), at, into))
    }

    fn names(&mut self, alloc: Global, _folder: &BootPath) -> Result<Vec<FileName>, ReadFault> {
        self.shelf.begin();
        Ok(Vec::new(alloc))
    }

    fn create(&mut self, path: &TempPath) -> Result<(), DiskFault> {
        self.shelf.begin();
        let bytes = Vec::new(*self.shelf.files.allocator());
        let done = self.shelf.put(path.as_str(), bytes);
        self.faults.disk(done)
    }

    fn append(&mut self, path: &TempPath, bytes: &[u8]) -> Result<(), DiskFault> {
        self.shelf.begin();
        let done = self.shelf.append(path.as_str(), bytes);
        self.faults.disk(done)
    }

    fn sync_file(&mut self, _path: &TempPath) -> Result<(), DiskFault> {
        self.shelf.begin();
        Ok(())
    }

    fn rename_temp(&mut self, from: &TempPath, to: &FilePath) -> Result<(), DiskFault> {
        self.shelf.begin();
        let done = self.shelf.rename(from.as_str(), to.as_str());
        self.faults.disk(done)
    }

    fn rename_name(&mut self, from: &BootPath, to: &BootPath) -> Result<(), DiskFault> {
        self.shelf.begin();
        let done = self.shelf.rename(from.as_str(), to.as_str());
        self.faults.disk(done)
    }

    fn unlink(&mut self, path: &FilePath) -> Result<(), DiskFault> {
        self.shelf.begin();
        let done = self.shelf.unlink(path.as_str());
        self.faults.disk(done)
    }

    fn unlink_temp(&mut self, path: &TempPath) -> Result<(), DiskFault> {
        self.shelf.begin();
        let done = self.shelf.unlink(path.as_str());
        self.faults.disk(done)
    }

    fn sync_names(&mut self) -> Result<(), DiskFault> {
        self.shelf.begin();
        Ok(())
    }

    fn print(&mut self, to: Channel, bytes: &[u8]) -> Result<(), PipeFault> {
        self.shelf.begin();
        let done = add_printed(&mut self.printed, to, bytes).ok();
        self.faults.pipe(done)
    }

    fn input(&mut self, _into: &mut [u8]) -> Result<usize, PipeFault> {
        self.shelf.begin();
        Ok(0)
    }
}
