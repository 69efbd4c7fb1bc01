//! The looks of this run at the folder: `run_looks` keeps them, and the calls of the system are made here.
ghost use Rattle.std.specs.Prelude.{◌≡◌, IfErr, IfOk, IsErrAnd, IsTrue, Ok, OnErr, OnOk, false};
ghost use Rattle.std.specs.IoError.{error_kind};
ghost use Rattle.run_looks.specs.Standing.{AllStand, RecentStand};
ghost use Rattle.folder_locks.specs.Checking.{IsCheckError};
ghost use Rattle.folder_locks.specs.Looking.{identity_of, look_error_kind, standing_of};

use crate::answers::changed_fault;
use folder_calls::{Calls, Found};
use run_looks::{CheckFault, Identity, LiveDisk, LookFault, RunLooks};
use std::alloc::{AllocError, Global};
use std::io;

/// What is no regular file isn't there.
pub fn identity_of(found: Option<Found>) -> Option<Identity>
    ensures { result ≡ identity_of found }
{
    let found = found.filter(|found| found.is_file())?;
    Some(Identity {
        device: found.device,
        inode: found.inode,
        length: found.facts.length,
        seconds: found.seconds,
        nanoseconds: found.nanoseconds,
    })
}

/// The calls, as far as they look.
#[derive(Drop)]
struct LiveFolder<'a, C: Calls> {
    calls: &'a C,
    alloc: Global,
}

impl<'a, C: Calls> LiveDisk for LiveFolder<'a, C> {
    ghost use Rattle.folder_locks.specs.Looking.{standing_of};

    type Fault = io::Error;

    ghost tells = { C.tells };

    ghost stands = { λ folder. standing_of (C.tree folder.calls.now) };

    fn look(&self, path: &str) -> Result<Option<Identity>, io::Error> {
        Ok(identity_of(self.calls.find(path)?))
    }

    fn names(&self, folder: &str) -> Result<Vec<String>, io::Error> {
        self.calls.names(self.alloc, folder)
    }

    fn changed(&self, path: &str) -> io::Error {
        changed_fault(self.alloc, path)
    }
}

/// What is said of a look at a path.
pub fn look_answer<T: Drop>(
    alloc: Global,
    path: &str,
    answer: Result<T, LookFault>,
) -> io::Result<T>
    ensures value { IfOk result (λ value. answer ≡ Ok value) }
    ensures fault { IfErr result (λ error. IsErrAnd answer (λ fault. error_kind error ≡ look_error_kind fault)) }
{
    match answer {
        Ok(value) => Ok(value),
        Err(LookFault::Changed) => Err(changed_fault(alloc, path)),
        Err(LookFault::Memory) => Err(io::Error::from(AllocError)),
    }
}

fn check_answer(answer: Result<(), CheckFault<io::Error>>) -> io::Result<()>
    ensures value { IfOk result (λ value. answer ≡ Ok value) }
    ensures fault { IfErr result (λ error. IsErrAnd answer (λ fault. IsCheckError fault error)) }
{
    match answer {
        Ok(()) => Ok(()),
        Err(CheckFault::Changed(fault)) => Err(fault),
        Err(CheckFault::Disk(fault)) => Err(fault),
        Err(CheckFault::Memory) => Err(io::Error::from(AllocError)),
    }
}

/// What was looked at since the last reply must still be the same.
pub fn require_same<C: Calls>(calls: &C, alloc: Global, looks: &mut RunLooks) -> io::Result<()>
    ensures stand { IfOk result (λ _. IsTrue C.tells → RecentStand (standing_of (C.tree calls.now)) looks.old) }
    ensures ok { OnOk result (looks.new ≡ record looks.old { has_unchecked = false }) }
    ensures err { OnErr result (looks.new ≡ looks.old) }
{
    check_answer(looks.require_same(&LiveFolder { calls, alloc }))
}

/// All that was looked at must still be the same.
pub fn require_all_same<C: Calls>(calls: &C, alloc: Global, looks: &RunLooks) -> io::Result<()>
    ensures { IfOk result (λ _. IsTrue C.tells → AllStand (standing_of (C.tree calls.now)) looks.now) }
{
    check_answer(looks.require_all_same(&LiveFolder { calls, alloc }))
}
