//! A machine in memory. It keeps the files of its start and all that it did since, so that it can
//! tell each moment.
ghost use Rattle.std.specs.Prelude.{◌≡◌, ◌≢◌, ◌⊎◌, ◌∷◌, ◌++◌, [], ◌≤◌, ℕ, true, length, drop, bytes_eq, Some, None, Ok, Err, IfOk, OnOk, OnErr};
ghost use Rattle.std.specs.List.{IsDistinct};
ghost use Rattle.std.specs.FinMap as maps;
ghost use Rattle.boot_machine.specs.Prelude.{IsImage, IsSettled, has, on_channel, view, one_more};
ghost use Rattle.memory_machine.specs.Events.{log_state, files_after, printed_after};
ghost use Rattle.memory_machine.specs.Given.{given_files, given_paths};
ghost use Rattle.boot_machine.specs.proofs.Maps.{same_files_prop};
ghost use Rattle.memory_machine.specs.Stops.{IsLeft};
ghost use Rattle.memory_machine.specs.Plan.{mode_of};

use crate::disk::Disk;
use crate::event::Event;
use crate::files::{FileList, copy_some};
use boot_base::{BootPath, FileName, FilePath, TempPath, Text};
use boot_machine::{Channel, DiskFault, Machine, PipeFault, Printed, ReadFault};
use std::alloc::{AllocError, Global};

/// A file that a machine in memory begins with.
#[derive(Drop)]
pub struct MemFile {
    pub path: FilePath,
    pub bytes: Vec<u8>,
}

/// A read that gave some bytes of a file.
#[derive(Drop)]
pub struct ReadSeen {
    pub path: FilePath,
    /// The place of the first byte given.
    pub at: u64,
    /// How many bytes were given.
    pub length: u64,
}

/// How a call fails.
#[derive(Clone, Copy, Debug, PartialEq, Eq)]
pub enum FailMode {
    /// Nothing has happened, but that a failed `append` leaves its path soft.
    Before,
    /// All of the call has happened, where its row allows that after a failure; else as `Before`.
    After,
}

/// Which of the files that a stop may leave it leaves.
#[derive(Drop)]
pub struct CrashChoice {
    /// The candidate of that number, counted from the earliest on and round again.
    pub candidate: u64,
    /// What each soft file has.
    pub fill: Vec<u8>,
}

/// The call of that number, counted from 1, is to fail.
#[derive(Clone, Copy)]
struct Failure {
    call: u64,
    mode: FailMode,
}

/// A machine in memory, which tells all that it holds and each moment that there was.
///
/// It fails exactly where it was told to, and where it finds no memory for the record of a call; `starved_calls`
/// counts the latter. Its clock is the number of calls and stops that it has recorded: it stands still only
/// in a call that found no memory. Each read that gave bytes is kept besides.
#[derive(Drop)]
pub struct MemMachine {
    alloc: Global,
    start: FileList,
    log: Vec<Event>,
    files: FileList,
    printed: Vec<Printed>,
    reads: Vec<ReadSeen>,
    given: Vec<u8>,
    taken: usize,
    failures: Vec<Failure>,
    calls: u64,
    disk_faults: u64,
    pipe_faults: u64,
    starved: u64,
    ghost files_linked: { files ≡ (log_state start log.items).files } by { same_files_prop _ _ },
    ghost printed_linked: { printed.items ≡ (log_state start log.items).printed },
}

// These bytes as they are printed there.
fn on_channel(alloc: Global, to: Channel, bytes: &[u8]) -> Result<Vec<Printed>, AllocError>
    ensures { IfOk result (λ text. text.items ≡ on_channel to bytes.now) }
{
    bytes
        .iter()
        .map(|byte| Printed { to, byte: *byte })
        .collect(alloc)
}

// The path and the bytes of a write.
fn path_and_bytes(alloc: Global, path: &str, bytes: &[u8]) -> Result<(Text, Vec<u8>), AllocError>
    ensures { IfOk result (λ write. (write.0 ≡ path.now) × (write.1.items ≡ bytes.now)) }
{
    let path = Text::of(alloc, path)?;
    let bytes = bytes.to_vec(alloc)?;
    Ok((path, bytes))
}

// The two paths of a file that is moved.
fn two_paths(alloc: Global, from: &str, to: &str) -> Result<(Text, Text), AllocError>
    ensures { IfOk result (λ paths. (paths.0 ≡ from.now) × (paths.1 ≡ to.now)) }
{
    let from = Text::of(alloc, from)?;
    let to = Text::of(alloc, to)?;
    Ok((from, to))
}

// The event's effect on the files and on what is printed.
fn apply(event: &Event, files: &mut FileList, printed: &mut Vec<Printed>) -> Result<(), AllocError>
    ensures files { OnOk result (files.new ≡ files_after event.now files.old) }
    ensures printed { OnOk result (printed.new.items ≡ printed_after event.now printed.old.items) }
    ensures err { OnErr result ((files.new ≡ files.old) × (printed.new.items ≡ printed.old.items)) }
{
    match event {
        Event::Print(text) => printed.extend_from_slice(text),
        _ => files.apply(event),
    }
}

// How the call of that number is to fail: of two modes for one number the later one counts.
fn mode_at(failures: &[Failure], call: u64) -> Option<FailMode>
    ensures { result ≡ mode_of failures.now call }
{
    for failure in failures {
        if failure.call == call {
            return Some(failure.mode);
        }
    }
    None
}

impl MemMachine {
    ghost use Rattle.memory_machine.specs.Memory.{mem_start, mem_events, mem_input, mem_state, mem_clock, mem_time, mem_counts, mem_reads, mem_starved, mem_calls, mem_plan, next_mode, SameOrders, TellsTheSame, TellsOneMore, IsStarved, RecordsCall};
    ghost use Rattle.memory_machine.specs.Calls.{KeepsNone, MemCall, MemFails, SkipsCall, StarvesCall, disk_call, pipe_call, no_effect};
    ghost use Rattle.memory_machine.specs.Events.{step, say, start_state, after_stop};
    ghost use Rattle.boot_machine.specs.Rows.{DoneOrNot, AppendRow, after_append};
    ghost use Rattle.boot_machine.specs.Prelude.{DiskFailsOnce, PipeFailsOnce, TakesNone, Elapses, DiskFailed, PipeFailed};
    ghost use Rattle.memory_machine.specs.declared.event.Event.TheVariants.{Look as look};

    /// A machine with these files and nothing else: all of them synced, nothing printed, no input, and no
    /// call told to fail.
    pub fn new(alloc: Global, files: Vec<MemFile>) -> Result<MemMachine, AllocError>
        requires { IsDistinct bytes_eq (given_paths files.items) }
        ensures state { IfOk result (λ machine. mem_state machine ≡ start_state (given_files files.items)) }
        ensures settled { IfOk result (λ machine. IsSettled (mem_state machine)) }
        ensures clock { IfOk result (λ machine. mem_clock machine ≡ 0) }
        ensures counts { IfOk result (λ machine. mem_counts machine ≡ record { disk_faults = 0; pipe_faults = 0 }) }
        ensures reads { IfOk result (λ machine. mem_reads machine ≡ []) }
        ensures starved { IfOk result (λ machine. mem_starved machine ≡ 0) }
        ensures calls { IfOk result (λ machine. mem_calls machine ≡ 0) }
        ensures plan { IfOk result (λ machine. (call : ℕ) → mem_plan machine call ≡ None) }
    {
        let start = FileList::of(alloc, &files)?;
        let now = start.copy()?;
        Ok(MemMachine {
            alloc,
            start,
            log: Vec::new(alloc),
            files: now,
            printed: Vec::new(alloc),
            reads: Vec::new(alloc),
            given: Vec::new(alloc),
            taken: 0,
            failures: Vec::new(alloc),
            calls: 0,
            disk_faults: 0,
            pipe_faults: 0,
            starved: 0,
        })
    }

    /// From now on these bytes are its standard input.
    pub fn set_input(&mut self, bytes: Vec<u8>)
        ensures state { mem_state self.new ≡ record (mem_state self.old) { input = bytes.items } }
        ensures moments { Elapses mem_time mem_state self.old self.new }
        ensures counts { mem_counts self.new ≡ mem_counts self.old }
        ensures reads { mem_reads self.new ≡ mem_reads self.old }
        ensures told { SameOrders self.old self.new }
    {
        self.given = bytes;
        self.taken = 0;
    }

    /// What was printed, each byte with where it went.
    pub fn printed_bytes(&self) -> &[Printed]
        ensures { result.now ≡ (mem_state self.now).printed }
    {
        &self.printed
    }

    /// Each of its reads that gave at least one byte, in the order in which they were made: the file, the
    /// place, and how many bytes were given. It takes no memory.
    pub fn reads(&self) -> &[ReadSeen]
        ensures { result.now ≡ mem_reads self.now }
    {
        &self.reads
    }

    /// Lets the call of that number fail, counted from 1 over the machine's life. Of two modes for one
    /// number the last counts. After want of memory nothing is told.
    pub fn fail_at(&mut self, call: u64, mode: FailMode) -> Result<(), AllocError>
        ensures told { OnOk result (mem_plan self.new call ≡ Some mode) }
        ensures others { (other : ℕ) → other ≢ call → mem_plan self.new other ≡ mem_plan self.old other }
        ensures err { OnErr result (mem_plan self.new ≡ mem_plan self.old) }
        ensures state { mem_state self.new ≡ mem_state self.old }
        ensures moments { Elapses mem_time mem_state self.old self.new }
        ensures counts { mem_counts self.new ≡ mem_counts self.old }
        ensures reads { mem_reads self.new ≡ mem_reads self.old }
        ensures calls { mem_calls self.new ≡ mem_calls self.old }
        ensures starved { mem_starved self.new ≡ mem_starved self.old }
    {
        self.failures.insert(0, Failure { call, mode })?;
        Ok(())
    }

    /// How many of its files have a path that doesn't end in `.tmp`. It takes no memory.
    pub fn view_files(&self) -> u64
        ensures { result ≡ maps.len (view (mem_state self.now).files) }
    {
        self.files.count_shown()
    }

    /// How many of its calls have failed because they found no memory, up to the last value.
    pub fn starved_calls(&self) -> u64
        ensures { result ≡ mem_starved self.now }
    {
        self.starved
    }

    /// The machine after a stop: with the chosen files, all of them synced. What was printed, its input,
    /// its counts, its reads and its orders stay.
    pub fn crash(self, alloc: Global, choice: &CrashChoice) -> Result<MemMachine, AllocError>
        ensures state { IfOk result (λ machine. mem_state machine
            ≡ after_stop (mem_state machine).files (mem_state self)) }
        ensures left { IfOk result (λ machine.
            IsLeft (mem_state self) choice.now.candidate choice.now.fill.items (mem_state machine).files) }
        ensures image { IfOk result (λ machine. IsImage (mem_state self) (mem_state machine).files) }
        ensures settled { IfOk result (λ machine. IsSettled (mem_state machine)) }
        ensures moments { IfOk result (λ machine. Elapses mem_time mem_state self machine) }
        ensures counts { IfOk result (λ machine. mem_counts machine ≡ mem_counts self) }
        ensures reads { IfOk result (λ machine. mem_reads machine ≡ mem_reads self) }
        ensures told { IfOk result (λ machine. SameOrders self machine) }
    {
        let mut machine = self;
        let files = machine.left_files(alloc, choice)?;
        machine.note(Event::Stop(files))?;
        Ok(machine)
    }

    // The files that the chosen stop leaves.
    fn left_files(&self, alloc: Global, choice: &CrashChoice) -> Result<FileList, AllocError>
        ensures { IfOk result (λ files. IsLeft (mem_state self.now) choice.now.candidate choice.now.fill.items files) }
    {
        let disk = Disk::after(alloc, &self.start, &self.log)?;
        disk.files_left(choice)
    }

    // Counts the call, and says how it is to fail, if it is to.
    fn next_call(&mut self) -> Option<FailMode>
        ensures mode { result ≡ next_mode self.old }
        ensures calls { mem_calls self.new ≡ one_more (mem_calls self.old) }
        ensures same { TellsTheSame self.old self.new }
        ensures counts { mem_counts self.new ≡ mem_counts self.old }
        ensures starved { mem_starved self.new ≡ mem_starved self.old }
    {
        self.calls = self.calls.saturating_add(1);
        mode_at(&self.failures, self.calls)
    }

    // Does what the event says, and records it.
    fn note(&mut self, event: Event) -> Result<(), AllocError>
        ensures ok { OnOk result (TellsOneMore event self.old self.new) }
        ensures err { OnErr result (TellsTheSame self.old self.new) }
        ensures records { RecordsCall self.old self.new }
        ensures counts { mem_counts self.new ≡ mem_counts self.old }
        ensures calls { mem_calls self.new ≡ mem_calls self.old }
        ensures fed { OnOk result (mem_starved self.new ≡ mem_starved self.old) }
        ensures starved { OnErr result (IsStarved self.old self.new) }
    {
        if self.log.reserve(1).is_err()
            || apply(&event, &mut self.files, &mut self.printed).is_err()
        {
            drop(event);
            self.starve();
            return Err(AllocError);
        }
        self.log.push_reserved(event);
        Ok(())
    }

    // Records that a call did nothing.
    fn skip(&mut self)
        ensures state { mem_state self.new ≡ mem_state self.old }
        ensures skips { SkipsCall self.old self.new }
        ensures starved { (mem_starved self.new ≡ mem_starved self.old) ⊎ IsStarved self.old self.new }
    {
        let _ = self.note(Event::Look);
    }

    // Keeps a read of that place that gave so many bytes.
    fn keep_read(&mut self, path: &FilePath, at: u64, count: usize) -> Result<(), AllocError>
        ensures ok { OnOk result (mem_reads self.new
            ≡ mem_reads self.old ++ record { path = path.now; at = at; length = count } ∷ []) }
        ensures err { OnErr result (mem_reads self.new ≡ mem_reads self.old) }
        ensures start { mem_start self.new ≡ mem_start self.old }
        ensures events { mem_events self.new ≡ mem_events self.old }
        ensures input { mem_input self.new ≡ mem_input self.old }
        ensures told { SameOrders self.old self.new }
        ensures counts { mem_counts self.new ≡ mem_counts self.old }
    {
        let path = path.copy(self.alloc)?;
        let length = count as u64;
        self.reads.push(ReadSeen { path, at, length })?;
        Ok(())
    }

    // Counts a call that found no memory.
    fn starve(&mut self)
        ensures same { TellsTheSame self.old self.new }
        ensures counts { mem_counts self.new ≡ mem_counts self.old }
        ensures calls { mem_calls self.new ≡ mem_calls self.old }
        ensures starved { IsStarved self.old self.new }
    {
        self.starved = self.starved.saturating_add(1);
    }

    fn fail_disk(&mut self) -> DiskFault
        ensures { MemFails DiskFailsOnce DiskFailed self.old self.new }
    {
        self.disk_faults = self.disk_faults.saturating_add(1);
        DiskFault
    }

    fn fail_pipe(&mut self) -> PipeFault
        ensures { MemFails PipeFailsOnce PipeFailed self.old self.new }
    {
        self.pipe_faults = self.pipe_faults.saturating_add(1);
        PipeFault
    }

    // A call of the disk that found no memory for its words.
    fn starve_disk(&mut self) -> DiskFault
        ensures { StarvesCall DiskFailsOnce DiskFailed self.old self.new }
    {
        self.next_call();
        self.starve();
        self.fail_disk()
    }

    // A call of a pipe that found no memory for its words.
    fn starve_pipe(&mut self) -> PipeFault
        ensures { StarvesCall PipeFailsOnce PipeFailed self.old self.new }
    {
        self.next_call();
        self.starve();
        self.fail_pipe()
    }

    // Records an append that failed before it wrote anything: its path isn't synced.
    fn skip_append(&mut self, path: Text)
        requires { has (mem_state self.old).files path ≡ true }
        ensures state { ((mem_state self.new ≡ after_append path [] (mem_state self.old))
            × (mem_starved self.new ≡ mem_starved self.old))
            ⊎ ((mem_state self.new ≡ mem_state self.old) × IsStarved self.old self.new) }
        ensures skips { SkipsCall self.old self.new }
    {
        let nothing = Vec::new(self.alloc);
        let _ = self.note(Event::Append(path, nothing));
    }

    // Does what the event says, unless the call is to fail before.
    fn run_disk(&mut self, event: Event) -> Result<(), DiskFault>
        ensures row { DoneOrNot (mem_state self.old) (step event (mem_state self.old)) (mem_state self.new) result }
        ensures call { MemCall disk_call TakesNone KeepsNone no_effect (step event) self.old self.new result }
    {
        let mode = self.next_call();
        if mode == Some(FailMode::Before) {
            drop(event);
            self.skip();
            return Err(self.fail_disk());
        }
        if self.note(event).is_err() {
            return Err(self.fail_disk());
        }
        if mode.is_some() {
            return Err(self.fail_disk());
        }
        Ok(())
    }

    // Appends bytes to a file. If the call is to fail before, it appends none, but leaves the path unsynced.
    fn run_append(&mut self, path: Text, bytes: Vec<u8>) -> Result<(), DiskFault>
        requires { has (mem_state self.old).files path ≡ true }
        ensures row { AppendRow (mem_state self.old) (mem_state self.new) path bytes.items result }
        ensures call { MemCall disk_call TakesNone KeepsNone (after_append path []) (after_append path bytes.items)
            self.old self.new result }
    {
        let mode = self.next_call();
        if mode == Some(FailMode::Before) {
            self.skip_append(path);
            return Err(self.fail_disk());
        }
        if self.note(Event::Append(path, bytes)).is_err() {
            return Err(self.fail_disk());
        }
        if mode.is_some() {
            return Err(self.fail_disk());
        }
        Ok(())
    }

    // Prints a text, unless the call is to fail before.
    fn run_print(&mut self, text: Vec<Printed>) -> Result<(), PipeFault>
        ensures row { DoneOrNot (mem_state self.old) (say text.items (mem_state self.old)) (mem_state self.new) result }
        ensures call { MemCall pipe_call TakesNone KeepsNone no_effect (say text.items) self.old self.new result }
    {
        let mode = self.next_call();
        if mode == Some(FailMode::Before) {
            self.skip();
            return Err(self.fail_pipe());
        }
        if self.note(Event::Print(text)).is_err() {
            return Err(self.fail_pipe());
        }
        if mode.is_some() {
            return Err(self.fail_pipe());
        }
        Ok(())
    }

    // Does a look or a sync. If the call is to fail, before or after, it does nothing.
    fn run_sync(&mut self, event: Event) -> Result<(), DiskFault>
        ensures ok { OnOk result (mem_state self.new ≡ step event (mem_state self.old)) }
        ensures err { OnErr result (mem_state self.new ≡ mem_state self.old) }
        ensures call { MemCall disk_call TakesNone KeepsNone no_effect no_effect self.old self.new result }
    {
        if self.next_call().is_some() {
            drop(event);
            self.skip();
            return Err(self.fail_disk());
        }
        if self.note(event).is_err() {
            return Err(self.fail_disk());
        }
        Ok(())
    }

    // Records a call that only reads a pipe. If it is to fail, before or after, it does nothing.
    fn run_input(&mut self) -> Result<(), PipeFault>
        ensures state { mem_state self.new ≡ mem_state self.old }
        ensures noted { OnOk result (TellsOneMore look self.old self.new) }
        ensures call { MemCall pipe_call TakesNone KeepsNone no_effect no_effect self.old self.new result }
    {
        if self.next_call().is_some() {
            self.skip();
            return Err(self.fail_pipe());
        }
        if self.note(Event::Look).is_err() {
            return Err(self.fail_pipe());
        }
        Ok(())
    }
}

impl Machine for MemMachine {
    ghost use Rattle.memory_machine.specs.Memory.{mem_start, mem_events, mem_input, mem_state, mem_time, mem_counts, mem_taken, KeepsRead};
    ghost use Rattle.memory_machine.specs.Calls.{KeepsNone, MemCall, disk_call, names_call, pipe_call, no_effect};
    ghost use Rattle.memory_machine.specs.proofs.EventLaws.{now_counts, now_only, sound_held, sound-input, image-input, image_input};
    ghost use Rattle.boot_machine.specs.Prelude.{SizeRow, ReadRow, NamesRow, CreateRow, AppendRow, SyncFileRow, RenameRow, UnlinkRow, SyncNamesRow, PrintRow, InputRow, after_create, after_append, after_rename, after_unlink, with_printed, TakesNone, TakesRead};

    ghost tells = { true };

    ghost state = { mem_state };

    ghost time = { mem_time };

    ghost counts = { mem_counts };

    ghost taken = { mem_taken };

    ghost sound = { λ m told. sound-input _ _ (sound_held m.start (mem_events m)) };

    ghost counts_now = { λ m t files told le image. now_counts (mem_start m) (mem_events m) t files
        (image_input _ (mem_input m) files image) };

    ghost only_now = { λ m files printed told left. let now = now_only (mem_start m)
        (mem_events m) files printed left in
        (image-input _ (mem_input m) files now.image, now.printed) };

    fn size(&mut self, path: &FilePath) -> Result<Option<u64>, DiskFault>
        ensures row { SizeRow (mem_state self.old) (mem_state self.new) path.now result }
        ensures call { MemCall disk_call TakesNone KeepsNone no_effect no_effect self.old self.new result }
    {
        let answer = self.files.size(path.as_str());
        self.run_sync(Event::Look)?;
        Ok(answer)
    }

    fn read_at(&mut self, path: &FilePath, at: u64, into: &mut [u8]) -> Result<usize, DiskFault>
        ensures row { ReadRow (mem_state self.old) (mem_state self.new) path.now at into.new result }
        ensures within { IfOk result (λ n. n ≤ length into.new) }
        ensures call { MemCall disk_call (TakesRead result) (KeepsRead path.now at result) no_effect no_effect
            self.old self.new result }
    {
        let count = self.files.read(path.as_str(), at as usize, into);
        self.run_sync(Event::Look)?;
        if count > 0 && self.keep_read(path, at, count).is_err() {
            self.starve();
            return Err(self.fail_disk());
        }
        Ok(count)
    }

    fn names(&mut self, alloc: Global, folder: &BootPath) -> Result<Vec<FileName>, ReadFault>
        ensures row { NamesRow (mem_state self.old) (mem_state self.new) folder.now result }
        ensures call { MemCall names_call TakesNone KeepsNone no_effect no_effect self.old self.new result }
    {
        if self.run_sync(Event::Look).is_err() {
            return Err(ReadFault::Disk);
        }
        match self.files.names(alloc, folder.as_str()) {
            Ok(names) => Ok(names),
            Err(_) => Err(ReadFault::Memory),
        }
    }

    fn create(&mut self, path: &TempPath) -> Result<(), DiskFault>
        ensures row { CreateRow (mem_state self.old) (mem_state self.new) path.now result }
        ensures call { MemCall disk_call TakesNone KeepsNone no_effect (after_create path.now)
            self.old self.new result }
    {
        match Text::of(self.alloc, path.as_str()) {
            Ok(path) => self.run_disk(Event::Create(path)),
            Err(_) => Err(self.starve_disk()),
        }
    }

    fn append(&mut self, path: &TempPath, bytes: &[u8]) -> Result<(), DiskFault>
        requires { has (mem_state self.old).files path.now ≡ true }
        ensures row { AppendRow (mem_state self.old) (mem_state self.new) path.now bytes.now result }
        ensures call { MemCall disk_call TakesNone KeepsNone (after_append path.now [])
            (after_append path.now bytes.now) self.old self.new result }
    {
        match path_and_bytes(self.alloc, path.as_str(), bytes) {
            Ok((path, bytes)) => self.run_append(path, bytes),
            Err(_) => Err(self.starve_disk()),
        }
    }

    fn sync_file(&mut self, path: &TempPath) -> Result<(), DiskFault>
        ensures row { SyncFileRow (mem_state self.old) (mem_state self.new) path.now result }
        ensures call { MemCall disk_call TakesNone KeepsNone no_effect no_effect self.old self.new result }
    {
        match Text::of(self.alloc, path.as_str()) {
            Ok(path) => self.run_sync(Event::SyncFile(path)),
            Err(_) => Err(self.starve_disk()),
        }
    }

    fn rename_temp(&mut self, from: &TempPath, to: &FilePath) -> Result<(), DiskFault>
        requires there { has (mem_state self.old).files from.now ≡ true }
        requires differ { from.now ≢ to.now }
        ensures row { RenameRow (mem_state self.old) (mem_state self.new) from.now to.now result }
        ensures call { MemCall disk_call TakesNone KeepsNone no_effect (after_rename from.now to.now)
            self.old self.new result }
    {
        match two_paths(self.alloc, from.as_str(), to.as_str()) {
            Ok((from, to)) => self.run_disk(Event::Rename(from, to)),
            Err(_) => Err(self.starve_disk()),
        }
    }

    fn rename_name(&mut self, from: &BootPath, to: &BootPath) -> Result<(), DiskFault>
        requires there { has (mem_state self.old).files from.now ≡ true }
        requires differ { from.now ≢ to.now }
        ensures row { RenameRow (mem_state self.old) (mem_state self.new) from.now to.now result }
        ensures call { MemCall disk_call TakesNone KeepsNone no_effect (after_rename from.now to.now)
            self.old self.new result }
    {
        match two_paths(self.alloc, from.as_str(), to.as_str()) {
            Ok((from, to)) => self.run_disk(Event::Rename(from, to)),
            Err(_) => Err(self.starve_disk()),
        }
    }

    fn unlink(&mut self, path: &FilePath) -> Result<(), DiskFault>
        ensures row { UnlinkRow (mem_state self.old) (mem_state self.new) path.now result }
        ensures call { MemCall disk_call TakesNone KeepsNone no_effect (after_unlink path.now)
            self.old self.new result }
    {
        match Text::of(self.alloc, path.as_str()) {
            Ok(path) => self.run_disk(Event::Unlink(path)),
            Err(_) => Err(self.starve_disk()),
        }
    }

    fn unlink_temp(&mut self, path: &TempPath) -> Result<(), DiskFault>
        ensures row { UnlinkRow (mem_state self.old) (mem_state self.new) path.now result }
        ensures call { MemCall disk_call TakesNone KeepsNone no_effect (after_unlink path.now)
            self.old self.new result }
    {
        match Text::of(self.alloc, path.as_str()) {
            Ok(path) => self.run_disk(Event::Unlink(path)),
            Err(_) => Err(self.starve_disk()),
        }
    }

    fn sync_names(&mut self) -> Result<(), DiskFault>
        ensures row { SyncNamesRow (mem_state self.old) (mem_state self.new) result }
        ensures call { MemCall disk_call TakesNone KeepsNone no_effect no_effect self.old self.new result }
    {
        self.run_sync(Event::SyncNames)
    }

    fn print(&mut self, to: Channel, bytes: &[u8]) -> Result<(), PipeFault>
        ensures row { PrintRow (mem_state self.old) (mem_state self.new) to bytes.now result }
        ensures call { MemCall pipe_call TakesNone KeepsNone no_effect (with_printed to bytes.now)
            self.old self.new result }
    {
        match on_channel(self.alloc, to, bytes) {
            Ok(text) => self.run_print(text),
            Err(_) => Err(self.starve_pipe()),
        }
    }

    fn input(&mut self, into: &mut [u8]) -> Result<usize, PipeFault>
        ensures row { InputRow (mem_state self.old) (mem_state self.new) into.new result }
        ensures within { IfOk result (λ n. n ≤ length into.new) }
        ensures call { MemCall pipe_call TakesNone KeepsNone no_effect no_effect self.old self.new result }
    {
        self.run_input()?;
        let count = copy_some(&self.given, self.taken, into);
        self.taken += count;
        Ok(count)
    }
}
