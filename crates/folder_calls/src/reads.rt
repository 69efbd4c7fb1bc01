//! Reads that are repeated until a buffer is full.
ghost use Rattle.std.specs.Prelude.{◌≡◌, ◌+◌, ◌<◌, ◌≤◌, ◌^◌, IfOk, IsTrue, drop, length, take};
ghost use Rattle.folder_calls.specs.Calls.{ReadsSome};

use crate::calls::Calls;
use std::io;

/// Reads an open file's bytes from that place on until the buffer is full or the file ends, and tells how many they are.
pub fn read_full<C: Calls>(calls: &C, file: &C::File, at: u64, into: &mut [u8]) -> io::Result<usize>
    requires { at + length into.old < 2 ^ 64 }
    ensures length { length into.new ≡ length into.old }
    ensures within { IfOk result (λ n. n ≤ length into.old) }
    ensures whole { IfOk result (λ n. IsTrue C.tells
        → take n into.new ≡ take (length into.old) (drop at ((C.tree calls.now).bytes (C.inode file.now)))) }
{
    let mut done = 0;
    while done < into.len() {
        let count = read_behind(calls, file, at, done, into)?;
        if count == 0 {
            return Ok(done);
        }
        done += count;
    }
    Ok(done)
}

// Puts some of the file's bytes from `at` and `done` on behind the first `done` of the buffer, and tells how many.
fn read_behind<C: Calls>(
    calls: &C,
    file: &C::File,
    at: u64,
    done: usize,
    into: &mut [u8],
) -> io::Result<usize>
    requires inside { done ≤ length into.old }
    requires place { at + length into.old < 2 ^ 64 }
    ensures length { length into.new ≡ length into.old }
    ensures front { take done into.new ≡ take done into.old }
    ensures room { IfOk result (λ n. done + n ≤ length into.old) }
    ensures bytes { IfOk result (λ n. IsTrue C.tells
        → ReadsSome (drop (at + done) ((C.tree calls.now).bytes (C.inode file.now))) (drop done into.new) n) }
{
    calls.read(file, at + done as u64, &mut into[done..])
}
