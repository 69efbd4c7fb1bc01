//! The machine on a folder and the standard streams. It tells no contents. It is proved safe, to count each failure once,
//! and to leave nothing to be synced after a sync that is answered Ok.
ghost use Rattle.std.specs.Prelude.{◌≡◌, IfOk};

use crate::faults::Faults;
use crate::system::System;
use boot_base::{BootPath, FileName, FilePath, TempPath};
use boot_machine::{Channel, DiskFault, Machine, PipeFault, ReadFault};
use folder_calls::Calls;
use std::alloc::Global;
use std::io;
use std::io::ErrorKind;

/// The folder that the program starts in, as the root of all paths, and the standard streams.
#[derive(Drop)]
pub struct FolderMachine<C: Calls + Drop, E: Print + Drop> {
    system: System<C, E>,
    faults: Faults,
}

impl<C: Calls + Drop, E: Print + Drop> FolderMachine<C, E> {
    ghost use Rattle.std.specs.Prelude.{IfErr, IsTrue};
    ghost use Rattle.std.specs.IoError.{error_kind};
    ghost use Rattle.name_syncs.specs.Named.{NothingWaits};
    ghost use Rattle.boot_machine.specs.Prelude.{CountsDisk, CountsPipe};
    ghost use Rattle.folder_machine.specs.Told.{CountsCall, CountsDiskOnce, CountsPipeOnce, says_other_run};

    /// The machine over these calls, with `err` for what is printed on Err. No call has failed yet, and none
    /// that fails is told of.
    pub fn new(alloc: Global, calls: C, err: E) -> Self
        requires { IsTrue C.tells → NothingWaits (C.waits calls) }
    {
        FolderMachine {
            system: System::new(alloc, calls, err),
            faults: Faults {
                disk: 0,
                pipe: 0,
                is_other_run: false,
            },
        }
    }

    /// Sets whether failures are told. If they are, a line on Err tells of each call that fails, as it is counted:
    /// the call, the path, and the system's own words.
    pub fn with_reports(mut self, are_wanted: bool) -> Self {
        self.system.want_reports(are_wanted);
        self
    }

    /// How often the disk has failed, up to the last value of a `u64`.
    pub fn disk_faults(&self) -> u64
        ensures { result ≡ self.now.faults.disk }
    {
        self.faults.disk
    }

    /// How often a pipe has failed, up to the last value of a `u64`.
    pub fn pipe_faults(&self) -> u64
        ensures { result ≡ self.now.faults.pipe }
    {
        self.faults.pipe
    }

    /// Whether the disk's last failure was that another run is in the way.
    pub fn has_met_other_run(&self) -> bool
        ensures { result ≡ self.now.faults.is_other_run }
    {
        self.faults.is_other_run
    }

    // Passes an answer of the disk on, and tells of a failure and counts it.
    fn disk<T: Drop>(
        &mut self,
        call: &str,
        path: &str,
        answer: io::Result<T>,
    ) -> Result<T, DiskFault>
        ensures call { CountsCall (CountsDisk result) (CountsDiskOnce result) self.old.faults self.new.faults }
        ensures value { IfOk result (λ value. answer ≡ Ok value) }
        ensures cause { IfErr answer (λ error. self.new.faults.is_other_run ≡ says_other_run (error_kind error)) }
        ensures same { self.new.system.changes ≡ self.old.system.changes }
    {
        let answer = self.system.reports().report(call, path, answer);
        if let Some(twins) = self.system.take_twins() {
            self.system
                .reports()
                .report_twins(twins.path.as_str(), twins.other.as_str());
        }
        self.faults.disk(answer)
    }

    // Passes an answer of a pipe on, and tells of a failure and counts it.
    fn pipe<T: Drop>(
        &mut self,
        call: &str,
        path: &str,
        answer: io::Result<T>,
    ) -> Result<T, PipeFault>
        ensures call { CountsCall (CountsPipe result) (CountsPipeOnce result) self.old.faults self.new.faults }
        ensures value { IfOk result (λ value. answer ≡ Ok value) }
    {
        let answer = self.system.reports().report(call, path, answer);
        self.faults.pipe(answer)
    }
}

impl<C: Calls + Drop, E: Print + Drop> Machine for FolderMachine<C, E> {
    ghost use Rattle.std.specs.Prelude.{◌≤◌, ◌⊎◌, IsTrue, false, length};
    ghost use Rattle.boot_base.specs.Paths.{intent};
    ghost use Rattle.name_syncs.specs.Named.{NothingWaits};
    ghost use Rattle.name_syncs.specs.Waiting.{KeepsSynced};
    ghost use Rattle.boot_machine.specs.Prelude.{CountsDisk, CountsPipe, CountsRead, Timeline};
    ghost use Rattle.folder_calls.specs.Rows.{GoneRow, HasName, KeepsNames, KeepsNamesBut};
    ghost use Rattle.folder_locks.specs.Looking.{LooksStand};
    ghost use Rattle.folder_machine.specs.Told.{counts_of, no_state, CountsCall, CountsDiskOnce, CountsPipeOnce, CountsNamesOnce};
    ghost use Rattle.folder_machine.specs.proofs.Silence.{silent};

    ghost tells = { false };

    ghost state = { λ _. no_state };

    ghost time = { record { clock = λ _. 0; since = λ _ _ _ _. ⊥ } };

    ghost counts = { λ m. counts_of m.faults };

    ghost taken = { λ _. 0 };

    ghost sound = { λ m told. absurd (silent told) };

    ghost counts_now = { λ m t files told le image. absurd (silent told) };

    ghost only_now = { λ m files printed told left. absurd (silent told) };

    fn size(&mut self, path: &FilePath) -> Result<Option<u64>, DiskFault>
        ensures call { CountsCall (CountsDisk result) (CountsDiskOnce result) self.old.faults self.new.faults }
        ensures still { self.new.system.changes ≡ self.old.system.changes }
    {
        let answer = self.system.size_of(path.as_str());
        self.disk("size", path.as_str(), answer)
    }

    fn read_at(&mut self, path: &FilePath, at: u64, into: &mut [u8]) -> Result<usize, DiskFault>
        ensures within { IfOk result (λ n. n ≤ length into.new) }
        ensures call { CountsCall (CountsDisk result) (CountsDiskOnce result) self.old.faults self.new.faults }
        ensures still { self.new.system.changes ≡ self.old.system.changes }
    {
        let answer = self.system.read_some(path.as_str(), at, into);
        self.disk("read", path.as_str(), answer)
    }

    fn names(&mut self, alloc: Global, folder: &BootPath) -> Result<Vec<FileName>, ReadFault>
        ensures call { CountsCall (CountsRead result) (CountsNamesOnce result) self.old.faults self.new.faults }
        ensures still { self.new.system.changes ≡ self.old.system.changes }
    {
        match self.system.names_in(alloc, folder.as_str()) {
            Ok(names) => Ok(names),
            Err(error) if error.kind() == ErrorKind::OutOfMemory => Err(ReadFault::Memory),
            Err(error) => {
                let _ = self.disk::<()>("list", folder.as_str(), Err(error));
                Err(ReadFault::Disk)
            }
        }
    }

    fn create(&mut self, path: &TempPath) -> Result<(), DiskFault>
        ensures call { CountsCall (CountsDisk result) (CountsDiskOnce result) self.old.faults self.new.faults }
        ensures there { IfOk result (λ _. IsTrue C.tells → HasName (C.tree self.new.system.changes) path.now) }
    {
        let answer = self.system.create_file(path.as_str());
        self.disk("create", path.as_str(), answer)
    }

    fn append(&mut self, path: &TempPath, bytes: &[u8]) -> Result<(), DiskFault>
        ensures call { CountsCall (CountsDisk result) (CountsDiskOnce result) self.old.faults self.new.faults }
        ensures kept { IsTrue C.tells → KeepsNames (C.tree self.old.system.changes) (C.tree self.new.system.changes) }
    {
        let answer = self.system.append_bytes(path.as_str(), bytes);
        self.disk("write", path.as_str(), answer)
    }

    fn sync_file(&mut self, path: &TempPath) -> Result<(), DiskFault>
        ensures call { CountsCall (CountsDisk result) (CountsDiskOnce result) self.old.faults self.new.faults }
        ensures written { IfOk result (λ _. IsTrue C.tells → C.written self.new.system.changes path.now ≡ false) }
        ensures names { IfOk result (λ _. IsTrue C.tells
            → C.tree self.new.system.changes ≡ C.tree self.old.system.changes) }
    {
        let answer = self.system.sync_contents(path.as_str());
        self.disk("sync", path.as_str(), answer)
    }

    fn rename_temp(&mut self, from: &TempPath, to: &FilePath) -> Result<(), DiskFault>
        ensures call { CountsCall (CountsDisk result) (CountsDiskOnce result) self.old.faults self.new.faults }
        ensures stand { IfOk result (λ _. IsTrue C.tells
            → LooksStand (C.tree self.old.system.changes) self.old.system.looks) }
        ensures there { IfOk result (λ _. IsTrue C.tells → HasName (C.tree self.new.system.changes) to.now) }
    {
        let answer = self.system.move_temp(from.as_str(), to.as_str());
        self.disk("rename", from.as_str(), answer)
    }

    fn rename_name(&mut self, from: &BootPath, to: &BootPath) -> Result<(), DiskFault>
        ensures call { CountsCall (CountsDisk result) (CountsDiskOnce result) self.old.faults self.new.faults }
        ensures stand { IfOk result (λ _. IsTrue C.tells
            → LooksStand (C.tree self.old.system.changes) self.old.system.looks) }
        ensures there { IfOk result (λ _. IsTrue C.tells → HasName (C.tree self.new.system.changes) to.now) }
    {
        let answer = self.system.move_file(from.as_str(), to.as_str());
        self.disk("rename", from.as_str(), answer)
    }

    fn unlink(&mut self, path: &FilePath) -> Result<(), DiskFault>
        ensures call { CountsCall (CountsDisk result) (CountsDiskOnce result) self.old.faults self.new.faults }
        ensures stand { IfOk result (λ _. IsTrue C.tells
            → path.now ≡ intent ⊎ LooksStand (C.tree self.old.system.changes) self.old.system.looks) }
        ensures gone { IfOk result (λ _. IsTrue C.tells
            → path.now ≡ intent → GoneRow (C.tree self.new.system.changes) intent) }
    {
        let answer = self.system.remove_file(path.as_str());
        self.disk("remove", path.as_str(), answer)
    }

    fn unlink_temp(&mut self, path: &TempPath) -> Result<(), DiskFault>
        ensures call { CountsCall (CountsDisk result) (CountsDiskOnce result) self.old.faults self.new.faults }
        ensures stand { IfOk result (λ _. IsTrue C.tells
            → LooksStand (C.tree self.old.system.changes) self.old.system.looks) }
        ensures gone { IfOk result (λ _. IsTrue C.tells → GoneRow (C.tree self.new.system.changes) path.now) }
        ensures kept { IsTrue C.tells
            → KeepsNamesBut path.now (C.tree self.old.system.changes) (C.tree self.new.system.changes) }
    {
        let answer = self.system.remove_temp(path.as_str());
        self.disk("remove", path.as_str(), answer)
    }

    fn sync_names(&mut self) -> Result<(), DiskFault>
        ensures call { CountsCall (CountsDisk result) (CountsDiskOnce result) self.old.faults self.new.faults }
        ensures kept { IsTrue C.tells
            → KeepsSynced (C.waits self.old.system.changes) (C.waits self.new.system.changes) }
        ensures waits { IfOk result (λ _. IsTrue C.tells → NothingWaits (C.waits self.new.system.changes)) }
        ensures names { IfOk result (λ _. IsTrue C.tells
            → C.tree self.new.system.changes ≡ C.tree self.old.system.changes) }
    {
        let answer = self.system.sync_names();
        self.faults.disk(answer)
    }

    fn print(&mut self, to: Channel, bytes: &[u8]) -> Result<(), PipeFault>
        ensures call { CountsCall (CountsPipe result) (CountsPipeOnce result) self.old.faults self.new.faults }
    {
        self.system.end_reply();
        match to {
            Channel::Out => {
                let answer = self.system.write_out(bytes);
                self.pipe("print", "standard output", answer)
            }
            Channel::Err => {
                let answer = self.system.reports().print(bytes);
                self.pipe("print", "standard error", answer)
            }
        }
    }

    fn input(&mut self, into: &mut [u8]) -> Result<usize, PipeFault>
        ensures within { IfOk result (λ n. n ≤ length into.new) }
        ensures call { CountsCall (CountsPipe result) (CountsPipeOnce result) self.old.faults self.new.faults }
    {
        let answer = self.system.read_input(into);
        self.pipe("read", "standard input", answer)
    }
}
