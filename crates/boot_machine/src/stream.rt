//! The loop that streams a range of a file.
ghost use Rattle.std.specs.Prelude.{◌≡◌, ◌<◌, ◌≤◌, ◌+◌, ◌^◌, length, drop, IfOk, OnOk, OnErr, IsTrue};
ghost use Rattle.boot_machine.specs.Prelude.{CountsDisk, TakesAtMost, TakesPiece, fill_with_zeros, contents, TookSome, TookWhere};

use crate::machine::{DiskFault, Machine};
use crate::read::read_piece;
use crate::sink::ByteSink;
use boot_base::BootPath;

/// Gives the sink the `count` bytes that stand in the file from `start` on, in their order, each read once and through
/// the buffer, which holds anything afterwards. Zeros stand for bytes that the machine doesn't give.
///
/// # Errors
///
/// Only where the machine has counted a fault of the disk; the sink has taken some bytes then.
pub fn stream_range<M: Machine, S: ByteSink<M>>(
    machine: &mut M,
    path: &BootPath,
    start: u64,
    count: u64,
    sink: &mut S,
    buffer: &mut [u8],
) -> Result<(), DiskFault>
    requires end { start + count < 2 ^ 64 }
    requires room { 0 < length buffer.old }
    requires can { S.can_take sink.old machine.old }
    ensures length { length buffer.new ≡ length buffer.old }
    ensures took { OnOk result (TookWhere S.took (IsTrue M.tells)
        (fill_with_zeros (drop start (contents (M.state machine.old).files path.now)) count) sink.old machine.old
        sink.new
        machine.new) }
    ensures some { OnErr result (IsTrue M.tells → TookSome S.took sink.old machine.old sink.new machine.new) }
    ensures counts { CountsDisk result (M.counts machine.old) (M.counts machine.new) }
    ensures taken { IsTrue M.tells → TakesAtMost count (M.taken machine.old) (M.taken machine.new) }
{
    path.know();
    let mut done = 0u64;
    while done < count {
        done += stream_piece(machine, path, start + done, count - done, sink, buffer)?;
    }
    Ok(())
}

// Gives the sink some of the `left` bytes that stand in the file from `at` on, and says how many.
fn stream_piece<M: Machine, S: ByteSink<M>>(
    machine: &mut M,
    path: &BootPath,
    at: u64,
    left: u64,
    sink: &mut S,
    buffer: &mut [u8],
) -> Result<u64, DiskFault>
    requires left { 0 < left }
    requires end { at + left < 2 ^ 64 }
    requires room { 0 < length buffer.old }
    requires can { S.can_take sink.old machine.old }
    ensures length { length buffer.new ≡ length buffer.old }
    ensures grows { IfOk result (λ count. 0 < count) }
    ensures within { IfOk result (λ count. count ≤ left) }
    ensures took { IfOk result (λ count. TookWhere S.took (IsTrue M.tells)
        (fill_with_zeros (drop at (contents (M.state machine.old).files path.now)) count) sink.old machine.old sink.new
        machine.new) }
    ensures some { OnErr result (IsTrue M.tells → TookSome S.took sink.old machine.old sink.new machine.new) }
    ensures counts { CountsDisk result (M.counts machine.old) (M.counts machine.new) }
    ensures taken { IsTrue M.tells → TakesPiece left result (M.taken machine.old) (M.taken machine.new) }
{
    let count = read_piece(machine, path.file(), at, left, buffer)?;
    sink.take(&buffer[..count], machine)?;
    Ok(count as u64)
}
