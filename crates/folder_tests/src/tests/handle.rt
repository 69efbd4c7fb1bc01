//! A run's handle on a folder that several runs share. It tells nothing of what stands there.
ghost use Rattle.std.specs.Prelude.{◌≤◌, length, IfOk};

use super::shelf::{Kept, OpenFile, Shelf};
use boot_base::copy_from;
use boot_run::run;
use folder_calls::{Access, Calls, Found, Hold, LockFault, folder_answer, if_there};
use folder_machine::FolderMachine;
use name_syncs::FolderFault;
use std::alloc::{AllocError, Global};
use std::cell::{Cell, RefCell, RefMut};
use std::fmt::Display;
use std::io;
use std::rc::Rc;

/// The folder.
pub(crate) type SharedShelf = Rc<RefCell<Shelf>>;

/// What comes before a call of a run.
pub(crate) trait Trouble {
    /// It is to come before the call of that number, counted from 1. If it is a failure the call isn't made.
    fn come(&self, call: u64, shelf: &SharedShelf) -> io::Result<()>;
}

/// None comes.
#[derive(Drop)]
struct Peace;

impl Trouble for Peace {
    fn come(&self, _call: u64, _shelf: &SharedShelf) -> io::Result<()> {
        Ok(())
    }
}

/// What a run has to read and how much of that it has read, how many calls it has made, and what it has printed on both
/// streams.
#[derive(Drop)]
struct Notes {
    input: Vec<u8>,
    read: Cell<usize>,
    calls: Cell<u64>,
    said: RefCell<Vec<u8>>,
}

impl Notes {
    // Nothing is read, called or printed.
    fn new(alloc: Global, input: &str) -> Result<Self, AllocError> {
        Ok(Notes {
            input: input.as_bytes().to_vec(alloc)?,
            read: Cell::new(0),
            calls: Cell::new(0),
            said: RefCell::new(Vec::new(alloc)),
        })
    }

    fn count(&self) -> u64 {
        self.calls.set(self.calls.get().saturating_add(1));
        self.calls.get()
    }

    // Reads some of the input.
    fn take_input(&self, into: &mut [u8]) -> usize
        ensures { result ≤ length into.new }
    {
        let count = copy_from(&self.input, self.read.get(), into);
        self.read.set(self.read.get().saturating_add(count));
        count
    }

    fn say(&self, bytes: &[u8]) -> io::Result<()> {
        match self.said.try_borrow_mut() {
            Ok(mut said) => Ok(said.extend_from_slice(bytes)?),
            Err(_) => Err(io::Error::other("in use")),
        }
    }
}

// Standard error.
#[derive(Drop)]
struct Said {
    alloc: Global,
    notes: Rc<Notes>,
}

impl Print for Said {
    fn print<D: Display + Drop>(&self, value: D) -> io::Result<()> {
        let text = format!(in self.alloc; "{value}")?;
        self.notes.say(text.as_bytes())
    }

    fn println<D: Display + Drop>(&self, value: D) -> io::Result<()> {
        let text = format!(in self.alloc; "{value}\n")?;
        self.notes.say(text.as_bytes())
    }

    fn write_all(&self, bytes: &[u8]) -> io::Result<()> {
        self.notes.say(bytes)
    }
}

/// The calls of a run.
#[derive(Drop)]
struct Handle<T: Trouble + Drop> {
    shelf: SharedShelf,
    notes: Rc<Notes>,
    trouble: T,
}

/// The folder, if no call is at it.
pub(crate) fn at_work(shelf: &RefCell<Shelf>) -> io::Result<RefMut<'_, Shelf>> {
    shelf.try_borrow_mut().map_err(|_| io::Error::other("busy"))
}

impl<T: Trouble + Drop> Handle<T> {
    // A call begins.
    fn begin(&self) -> io::Result<RefMut<'_, Shelf>> {
        self.trouble.come(self.notes.count(), &self.shelf)?;
        at_work(&self.shelf)
    }

    // A call begins that changes, syncs or prints something.
    fn act(&self, call: &str, path: &str) -> io::Result<RefMut<'_, Shelf>> {
        let mut shelf = self.begin()?;
        shelf.log_call(call, path)?;
        Ok(shelf)
    }

    // Syncs a folder, if it is there.
    fn try_sync(&self, folder: &str) -> io::Result<bool> {
        let shelf = self.act("sync folder", folder)?;
        if !shelf.has_folder(folder) {
            return Ok(false);
        }
        shelf.sync(folder)?;
        Ok(true)
    }
}

impl<T: Trouble + Drop> Calls for Handle<T> {
    ghost use Rattle.std.specs.Prelude.{false, None, []};
    ghost use Rattle.folder_calls.specs.Calls.{alone};

    type File = OpenFile;

    type Lock = ();

    ghost tells = { false };

    ghost tree = { λ _. record { stands = λ _. None; leads = λ _. None; names = λ _. []; bytes = λ _. [] } };

    ghost waits = { λ _. record {
      files = λ _. false;
      folders = λ _. false;
      left = λ _. false;
      fat = λ _. false;
      syncs = λ _. false;
      opens = λ _. false;
      asked = [];
      logged = false;
    } };

    ghost written = { λ _ _. false };

    ghost inode = { λ _. (0, 0) };

    ghost locks = { λ _. alone (0, 0) };

    ghost doubts = { λ _ _. false };

    fn find(&self, path: &str) -> io::Result<Option<Found>> {
        Ok(self.begin()?.find(path))
    }

    fn find_itself(&self, path: &str) -> io::Result<Option<Found>> {
        Ok(self.begin()?.find(path))
    }

    fn find_open(&self, file: &OpenFile) -> io::Result<Found> {
        self.begin()?.find_open(file)
    }

    fn names(&self, alloc: Global, folder: &str) -> io::Result<Vec<String>> {
        self.begin()?.names(alloc, folder)
    }

    fn open(&self, path: &str, access: Access) -> io::Result<OpenFile> {
        self.begin()?.open(path, access)
    }

    fn open_folder(&self, folder: &str) -> io::Result<Option<OpenFile>> {
        if_there(self.open(folder, Access::Read))
    }

    fn read(&self, file: &OpenFile, at: u64, into: &mut [u8]) -> io::Result<usize> {
        self.begin()?.read(file, at, into)
    }

    fn lock(&self, file: &OpenFile, hold: Hold) -> Result<(), LockFault<()>> {
        match self.begin() {
            Ok(mut shelf) => shelf.lock(file, hold),
            Err(error) => Err(LockFault::Disk(error)),
        }
    }

    fn create(&mut self, path: &str, mode: u32) -> io::Result<OpenFile> {
        self.act("create", path)?.create(path, mode)
    }

    fn append(&mut self, file: &mut OpenFile, bytes: &[u8]) -> io::Result<()> {
        self.act("append", "")?.append(file, bytes)
    }

    fn set_mode(&mut self, file: &OpenFile, _found: &Found, mode: u32) -> io::Result<bool> {
        self.act("set mode", "")?.set_mode(file, mode);
        Ok(true)
    }

    fn make_folder(&mut self, folder: &str) -> io::Result<()> {
        self.act("make folder", folder)?.make_folder(folder)
    }

    fn rename(&mut self, from: &str, to: &str, _held: Option<&()>) -> io::Result<()> {
        self.act("rename to", to)?.rename(from, to)
    }

    fn put(&mut self, from: &str, to: &str, _made: &(), _held: Option<&()>) -> io::Result<()> {
        self.act("rename to", to)?.rename(from, to)
    }

    fn unlink(&mut self, path: &str, _held: Option<&()>) -> io::Result<()> {
        self.act("unlink", path)?.unlink(path)
    }

    fn take_back(&mut self, path: &str, _held: &()) -> io::Result<()> {
        self.act("take back", path)?.unlink(path)
    }

    fn sync_file(&mut self, path: &str) -> io::Result<bool> {
        let shelf = self.act("sync file", path)?;
        if !shelf.has_file(path) {
            return Ok(false);
        }
        shelf.sync(path)?;
        Ok(true)
    }

    fn sync_open(&mut self, path: &str, _file: &OpenFile) -> io::Result<()> {
        self.act("sync file", path)?;
        Ok(())
    }

    fn sync_folder(&mut self, folder: &str) -> Result<bool, FolderFault<io::Error>> {
        match self.try_sync(folder) {
            Ok(is_there) => Ok(is_there),
            Err(fault) => folder_answer(Err(fault)),
        }
    }

    fn try_folder(&mut self, folder: &str) {
        let _ = self.act("try folder", folder);
    }

    fn try_name(&self, _path: &str) -> io::Result<()> {
        self.begin()?;
        Ok(())
    }

    fn print(&self, bytes: &[u8]) -> io::Result<()> {
        self.act("print", "")?;
        self.notes.say(bytes)
    }

    fn input(&self, into: &mut [u8]) -> io::Result<usize>
        ensures { IfOk result (λ n. n ≤ length into.new) }
    {
        self.begin()?;
        Ok(self.notes.take_input(into))
    }
}

/// All files of the folder.
pub(crate) fn files_of(shelf: &SharedShelf) -> io::Result<Vec<Kept>> {
    Ok(at_work(shelf)?.files()?)
}

/// What a run came to, and the files behind it.
#[derive(Drop)]
pub(crate) struct Ran {
    pub(crate) status: u8,
    pub(crate) said: Vec<u8>,
    pub(crate) calls: u64,
    pub(crate) files: Vec<Kept>,
}

// The words of a line without quotes, which single spaces part.
fn words_of(alloc: Global, line: &str) -> Result<Vec<String>, AllocError> {
    let mut words = Vec::new(alloc);
    for word in line.split(' ') {
        words.push(String::from_str(alloc, word)?)?;
    }
    Ok(words)
}

/// Runs the program whole on the folder. It reads what stands behind the first line, and may tell on standard error of
/// each call that fails.
pub(crate) fn run_told<T: Trouble + Drop>(
    alloc: Global,
    shelf: &SharedShelf,
    line: &str,
    trouble: T,
    are_told: bool,
) -> io::Result<Ran> {
    let (line, input) = line.split_once('\n').unwrap_or((line, ""));
    let words = words_of(alloc, line)?;
    let notes = Rc::new(alloc, Notes::new(alloc, input)?)?;
    let err = Said {
        alloc,
        notes: notes.clone()?,
    };
    let calls = Handle {
        shelf: shelf.clone()?,
        notes: notes.clone()?,
        trouble,
    };
    let mut machine = FolderMachine::new(alloc, calls, err).with_reports(are_told);
    let status = run(alloc, &words, &mut machine);
    drop(machine);
    let Ok(said) = notes.said.try_replace(Vec::new(alloc)) else {
        return Err(io::Error::other("in use"));
    };
    Ok(Ran {
        status,
        said,
        calls: notes.calls.get(),
        files: files_of(shelf)?,
    })
}

/// Runs the program whole on the folder, with that trouble. Nothing is told of failures.
pub(crate) fn run_with<T: Trouble + Drop>(
    alloc: Global,
    shelf: &SharedShelf,
    line: &str,
    trouble: T,
) -> io::Result<Ran> {
    run_told(alloc, shelf, line, trouble, false)
}

/// Runs the program whole on the folder, without trouble. Nothing is told of failures.
pub(crate) fn run_line(alloc: Global, shelf: &SharedShelf, line: &str) -> io::Result<Ran> {
    run_with(alloc, shelf, line, Peace)
}

/// Runs the program whole on the folder, without trouble. Each call that fails is told.
pub(crate) fn run_telling(alloc: Global, shelf: &SharedShelf, line: &str) -> io::Result<Ran> {
    run_told(alloc, shelf, line, Peace, true)
}
