//! An open file with its lock.
ghost use Rattle.std.specs.Prelude.{◌≡◌, IfOk, IfSome, IsTrue, OnOk};
ghost use Rattle.folder_calls.specs.Calls.{alone};
ghost use Rattle.folder_calls.specs.Locks.{is_enough, kept_lock};
ghost use Rattle.folder_calls.specs.Rows.{KeepsBytesBut, KeepsNames, WrittenRow};

use crate::calls::{Calls, Hold, LockFault};
use std::io;
use std::marker::Model;

/// An open file or folder with its lock, which goes when that is closed. Nobody is held up on a file system that keeps no
/// locks.
#[derive(Drop)]
pub struct Locked<C: Calls> {
    file: C::File,
    /// None once a stronger one was refused: Linux gives up the old lock before it takes the new one
    lock: Option<C::Lock>,
    hold: Hold,
    /// whether its file system has kept each lock that was asked for
    is_kept: bool,
}

impl<C: Calls> Model for Locked<C> {
    ghost use Rattle.std.specs.Prelude.{◌≡◌, IsTrue};
    ghost use Rattle.std.specs.Option.{ForSome};

    ghost Value = { C.File };

    ghost view = { λ locked. locked.file };

    ghost invariant = { λ locked. ForSome locked.lock (λ lock. IsTrue C.tells
        → C.locks lock ≡ (C.inode locked.file, locked.hold)) };
}

impl<C: Calls> Locked<C> {
    /// Locks an open file.
    ///
    /// # Errors
    ///
    /// Another run holds it, its file system keeps no locks, or the call has failed.
    pub fn take(calls: &C, file: C::File, hold: Hold) -> Result<Self, LockFault<C::Lock>>
        ensures { IfOk result (λ locked. locked ≡ file) }
    {
        let lock = Some(calls.lock(&file, hold)?);
        Ok(Locked {
            file,
            lock,
            hold,
            is_kept: true,
        })
    }

    /// Locks an open file, and takes it without a lock if its file system keeps none.
    pub fn take_if_kept(calls: &C, file: C::File, hold: Hold) -> Result<Self, LockFault<C::Lock>>
        ensures { IfOk result (λ locked. locked ≡ file) }
    {
        let (lock, is_kept) = kept_lock(calls.lock(&file, hold))?;
        Ok(Locked {
            file,
            lock: Some(lock),
            hold,
            is_kept,
        })
    }

    /// Whether it is held so, by a lock that its file system keeps.
    pub fn is_sure(&self, hold: Hold) -> bool {
        self.is_kept && self.is_enough(hold)
    }

    /// The open file.
    pub fn file(&self) -> &C::File
        ensures { result.now ≡ self.now }
    {
        &self.file
    }

    /// Whether it is held so already.
    pub fn is_enough(&self, hold: Hold) -> bool {
        self.lock.is_some() && is_enough(self.hold, hold)
    }

    /// The lock, if it is held alone.
    pub fn alone(&self) -> Option<&C::Lock>
        ensures { IfSome result (λ lock. IsTrue C.tells → C.locks lock.now ≡ alone (C.inode self.now)) }
    {
        match self.hold {
            Hold::Alone => self.lock.as_ref(),
            Hold::Shared => None,
        }
    }

    /// Holds what is held already.
    ///
    /// # Errors
    ///
    /// Another run holds it, or the call has failed. Then it is held no longer.
    pub fn strengthen(&mut self, calls: &C, hold: Hold) -> Result<(), LockFault<C::Lock>>
        ensures { self.new ≡ self.old }
    {
        if self.is_enough(hold) {
            return Ok(());
        }
        self.lock = None;
        let (lock, is_kept) = kept_lock(calls.lock(&self.file, hold))?;
        self.hold = hold;
        self.is_kept = self.is_kept && is_kept;
        self.lock = Some(lock);
        Ok(())
    }

    /// Writes all of the bytes behind what the file has.
    pub fn append(&mut self, calls: &mut C, bytes: &[u8]) -> io::Result<()>
        ensures row { OnOk result (IsTrue C.tells
            → WrittenRow (C.tree calls.old) (C.tree calls.new) (C.inode self.old) bytes.now) }
        ensures kept { IsTrue C.tells → KeepsNames (C.tree calls.old) (C.tree calls.new) }
        ensures others { IsTrue C.tells → KeepsBytesBut (C.inode self.old) (C.tree calls.old) (C.tree calls.new) }
        ensures quiet { IsTrue C.tells → C.waits calls.new ≡ C.waits calls.old }
        ensures same { IsTrue C.tells → C.inode self.new ≡ C.inode self.old }
    {
        calls.append(&mut self.file, bytes)
    }
}

// Whether what is held in the one way needs no lock to be held in the other.
fn is_enough(held: Hold, hold: Hold) -> bool
    ensures { result ≡ is_enough held hold }
{
    held == Hold::Alone || hold == Hold::Shared
}

// A lock, and whether its file system has kept it: nobody is held up on one that keeps none.
fn kept_lock<L: Drop>(answer: Result<L, LockFault<L>>) -> Result<(L, bool), LockFault<L>>
    ensures { result ≡ kept_lock answer }
{
    match answer {
        Ok(lock) => Ok((lock, true)),
        Err(LockFault::KeepsNone(_, lock)) => Ok((lock, false)),
        Err(fault) => Err(fault),
    }
}
