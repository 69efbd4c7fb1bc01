//! The file that was read last.
ghost use Rattle.std.specs.Prelude.{◌≡◌, ◌≤◌, [], IfOk, IsTrue, drop, length};
ghost use Rattle.folder_calls.specs.Calls.{ReadsSome};
ghost use Rattle.folder_locks.specs.Reading.{HasHead};

use boot_base::copy_from;
use folder_calls::{Calls, read_full};
use std::alloc::Global;
use std::io;

/// So many of a file's first bytes are read at once: there stands what a list asks of an image.
const HEAD_SIZE: u64 = 4096;

/// A file that is open to be read.
#[derive(Drop)]
pub struct LookedFile<F: Drop> {
    /// where it was opened
    pub path: String,
    file: F,
    /// how many bytes it had then
    size: u64,
    /// its first bytes, once some of them were asked for
    head: Vec<u8>,
}

impl<F: Drop> LookedFile<F> {
    /// A file that was opened at a path, and has so many bytes.
    pub fn new(alloc: Global, path: String, file: F, size: u64) -> Self
        ensures path { result.path ≡ path }
        ensures file { result.file ≡ file }
        ensures size { result.size ≡ size }
        ensures head { result.head.items ≡ [] }
    {
        LookedFile {
            path,
            file,
            size,
            head: Vec::new(alloc),
        }
    }

    /// Some of its bytes from that place on, and none at its end. What stands among the first ones is read once.
    pub fn read<C: Calls<File = F>>(
        &mut self,
        calls: &C,
        at: u64,
        into: &mut [u8],
    ) -> io::Result<usize>
        ensures within { IfOk result (λ n. n ≤ length into.new) }
        ensures head { IsTrue C.tells → HasHead ((C.tree calls.now).bytes (C.inode self.old.file)) self.old
            → HasHead ((C.tree calls.now).bytes (C.inode self.new.file)) self.new }
        ensures bytes { IfOk result (λ n. IsTrue C.tells
            → HasHead ((C.tree calls.now).bytes (C.inode self.old.file)) self.old
            → ReadsSome (drop at ((C.tree calls.now).bytes (C.inode self.old.file))) into.new n) }
    {
        let end = at.saturating_add(into.len() as u64);
        if end > self.size.min(HEAD_SIZE) {
            return calls.read(&self.file, at, into);
        }
        self.read_head(calls)?;
        if end > self.head.len() as u64 {
            return calls.read(&self.file, at, into);
        }
        Ok(copy_from(&self.head, at as usize, into))
    }

    // Reads the first bytes, unless that was done.
    fn read_head<C: Calls<File = F>>(&mut self, calls: &C) -> io::Result<()>
        ensures same { self.new ≡ record self.old { head = self.new.head } }
        ensures head { IsTrue C.tells → HasHead ((C.tree calls.now).bytes (C.inode self.old.file)) self.old
            → HasHead ((C.tree calls.now).bytes (C.inode self.old.file)) self.new }
    {
        if !self.head.is_empty() {
            return Ok(());
        }
        let mut bytes = [0; HEAD_SIZE as usize];
        let room = &mut bytes[..self.size.min(HEAD_SIZE) as usize];
        let count = read_full(calls, &self.file, 0, room)?;
        self.head.extend_from_slice(&room[..count])?;
        Ok(())
    }
}
