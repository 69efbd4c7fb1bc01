//! Whether two files have the same bytes.
ghost use Rattle.std.specs.Prelude.{◌≡◌, ◌≢◌, ◌↔◌, ◌<◌, ◌≤◌, ◌+◌, ◌*◌, ◌^◌, drop, length, true, IfOk, IsTrue};
ghost use Rattle.boot_base.specs.Limits.{file_limit};
ghost use Rattle.boot_machine.specs.Prelude.{CountsDisk, Looks, TakesAtMost, contents, fill_with_zeros};

use boot_base::{BootPath, Buffer, PIECE_SIZE};
use boot_machine::{DiskFault, Machine, read_piece};

// A piece of each of two files.
#[derive(Drop)]
struct Pieces {
    first: Buffer,
    second: Buffer,
}

// How many of the `left` bytes from `at` on are read of both files, if these are the same in both, and else 0.
fn same_piece<M: Machine>(
    first: &BootPath,
    second: &BootPath,
    at: u64,
    left: u64,
    machine: &mut M,
    pieces: &mut Pieces,
) -> Result<u64, DiskFault>
    requires left { 0 < left }
    requires end { at + left < 2 ^ 64 }
    ensures within { IfOk result (λ count. count ≤ left) }
    ensures same { IfOk result (λ count. IsTrue M.tells
        → fill_with_zeros (drop at (contents (M.state machine.old).files first.now)) count
        ≡ fill_with_zeros (drop at (contents (M.state machine.old).files second.now)) count) }
    ensures differ { IfOk result (λ count. IsTrue M.tells → count ≡ 0
        → contents (M.state machine.old).files first.now ≢ contents (M.state machine.old).files second.now) }
    ensures looks { Looks M.tells M.time M.state M.counts (CountsDisk result) machine.old machine.new }
    ensures taken { IsTrue M.tells → TakesAtMost (2 * left) (M.taken machine.old) (M.taken machine.new) }
    ensures taken_same { IfOk result (λ count. IsTrue M.tells → 0 < count
        → TakesAtMost (2 * count) (M.taken machine.old) (M.taken machine.new)) }
{
    let count = read_piece(machine, first.file(), at, left, &mut pieces.first)?;
    let again = read_piece(machine, second.file(), at, left, &mut pieces.second)?;
    if pieces.first[..count] == pieces.second[..again] {
        Ok(count as u64)
    } else {
        Ok(0)
    }
}

/// Whether the files of `size` bytes at two paths have the same bytes. They are read in pieces, each byte once, as far
/// as they are the same.
pub(crate) fn are_alike<M: Machine>(
    first: &BootPath,
    second: &BootPath,
    size: u64,
    machine: &mut M,
) -> Result<bool, DiskFault>
    requires limit { size ≤ file_limit }
    ensures same { IfOk result (λ alike. IsTrue M.tells
        → length (contents (M.state machine.old).files first.now) ≡ size
        → length (contents (M.state machine.old).files second.now) ≡ size
        → (alike ≡ true)
        ↔ (contents (M.state machine.old).files first.now ≡ contents (M.state machine.old).files second.now)) }
    ensures looks { Looks M.tells M.time M.state M.counts (CountsDisk result) machine.old machine.new }
    ensures taken { IsTrue M.tells → TakesAtMost (2 * size) (M.taken machine.old) (M.taken machine.new) }
{
    let mut pieces = Pieces {
        first: [0; PIECE_SIZE],
        second: [0; PIECE_SIZE],
    };
    let mut done = 0u64;
    while done < size {
        let left = size - done;
        let count = same_piece(first, second, done, left, machine, &mut pieces)?;
        if count == 0 {
            return Ok(false);
        }
        done += count;
    }
    Ok(true)
}
