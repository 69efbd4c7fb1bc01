//! The bytes of contents, taken into the hashes of registers.
ghost use Rattle.std.specs.Prelude.{◌≡◌, ◌<◌, ◌≤◌, ◌+◌, ◌^◌, length, take, drop, replicate, sum_by, OnOk, IsTrue};
ghost use Rattle.std.specs.List.{AllZip};
ghost use Rattle.boot_machine.specs.Prelude.{CountsDisk, Looks, TakesAtMost, contents, seen};
ghost use Rattle.pe_reader.specs.Prelude.{bytes_in};
ghost use Rattle.uki_parts.specs.Pieces.{HasSizes, bytes_of, file_length, piece_bytes, piece_length};
ghost use Rattle.stub_replay.specs.Parts.{IsPlaced, IsWhole, content_bytes, read_length};
ghost use Rattle.stub_replay.specs.Registers.{Takes};
ghost use Rattle.stub_replay.specs.Taking.{TakesWhere};

use crate::measurable::Content;
use crate::register::{Hashes, Register, update_all};
use boot_base::{BootPath, Buffer};
use boot_machine::{DiskFault, Machine, stream_range};
use pe_reader::LoadedRange;
use uki_parts::Piece;

/// Takes the bytes of the content, each of a file read once and through the buffer, which holds anything afterwards.
/// Zeros stand for bytes that the machine doesn't give.
pub(crate) fn take_content<M: Machine>(
    registers: &mut [Register],
    machine: &mut M,
    content: &Content,
    buffer: &mut Buffer,
) -> Result<(), DiskFault>
    requires placed { IsPlaced content.now }
    ensures data { OnOk result
        (TakesWhere (IsTrue M.tells × IsWhole (contents (seen (M.state machine.old))) content.now)
        (content_bytes (contents (seen (M.state machine.old))) content.now) registers.old registers.new) }
    ensures looks { Looks M.tells M.time M.state M.counts (CountsDisk result) machine.old machine.new }
    ensures taken { IsTrue M.tells → TakesAtMost (read_length content.now) (M.taken machine.old) (M.taken machine.new) }
{
    match *content {
        Content::Pieces(pieces) => take_pieces(registers, machine, pieces, buffer),
        Content::Bytes(bytes) => {
            update_all(registers, bytes);
            Ok(())
        }
        Content::Loaded { path, range } => take_loaded(registers, machine, path, range, buffer),
    }
}

// Takes the bytes of the pieces in their order, each file read once.
fn take_pieces<M: Machine>(
    registers: &mut [Register],
    machine: &mut M,
    pieces: &[Piece],
    buffer: &mut Buffer,
) -> Result<(), DiskFault>
    ensures data { OnOk result
        (TakesWhere (IsTrue M.tells × HasSizes (contents (seen (M.state machine.old))) pieces.now)
        (bytes_of (contents (seen (M.state machine.old))) pieces.now) registers.old registers.new) }
    ensures looks { Looks M.tells M.time M.state M.counts (CountsDisk result) machine.old machine.new }
    ensures taken { IsTrue M.tells → TakesAtMost (sum_by file_length pieces.now) (M.taken machine.old)
        (M.taken machine.new) }
{
    for piece in pieces {
        take_piece(registers, machine, piece, buffer)?;
    }
    Ok(())
}

// Takes the bytes of one piece.
fn take_piece<M: Machine>(
    registers: &mut [Register],
    machine: &mut M,
    piece: &Piece,
    buffer: &mut Buffer,
) -> Result<(), DiskFault>
    ensures data { OnOk result (TakesWhere (IsTrue M.tells
        × (length (piece_bytes (contents (seen (M.state machine.old))) piece.now) ≡ piece_length piece.now))
        (piece_bytes (contents (seen (M.state machine.old))) piece.now) registers.old registers.new) }
    ensures looks { Looks M.tells M.time M.state M.counts (CountsDisk result) machine.old machine.new }
    ensures taken { IsTrue M.tells → TakesAtMost (file_length piece.now) (M.taken machine.old) (M.taken machine.new) }
{
    match piece {
        Piece::Bytes(bytes) => {
            update_all(registers, bytes.as_slice());
            Ok(())
        }
        Piece::File { path, size } => take_range(registers, machine, path, 0, *size, buffer),
        Piece::Zeros(count) => {
            take_zeros(registers, *count, buffer);
            Ok(())
        }
    }
}

// Takes so many zeros, through the buffer, which is filled with them once.
fn take_zeros(registers: &mut [Register], count: u64, buffer: &mut Buffer)
    ensures data { AllZip (Takes (replicate count 0)) registers.old registers.new }
{
    let room = buffer.len().min(count as usize);
    let zeros = &mut buffer[..room];
    zeros.fill(0);
    take_from_zeros(registers, count, zeros);
}

// Takes so many zeros, by pieces of these.
fn take_from_zeros(registers: &mut [Register], count: u64, zeros: &[u8])
    requires zeros { zeros.now ≡ replicate (length zeros.now) 0 }
    requires some { 0 < count → 0 < length zeros.now }
    ensures { AllZip (Takes (replicate count 0)) registers.old registers.new }
{
    let mut done = 0u64;
    while done < count {
        let room = zeros.len().min((count - done) as usize);
        update_all(registers, &zeros[..room]);
        done += room as u64;
    }
}

/// Takes the bytes that a loader puts in memory for that range of the file.
pub(crate) fn take_loaded<M: Machine>(
    registers: &mut [Register],
    machine: &mut M,
    path: &BootPath,
    range: LoadedRange,
    buffer: &mut Buffer,
) -> Result<(), DiskFault>
    requires place { range.place < 2 ^ 32 }
    requires size { range.length + range.zeros < 2 ^ 32 }
    ensures data { OnOk result (TakesWhere
        (IsTrue M.tells × (range.length ≤ length (drop range.place (contents (seen (M.state machine.old)) path.now))))
        (bytes_in (contents (seen (M.state machine.old)) path.now) range) registers.old registers.new) }
    ensures looks { Looks M.tells M.time M.state M.counts (CountsDisk result) machine.old machine.new }
    ensures taken { IsTrue M.tells → TakesAtMost range.length (M.taken machine.old) (M.taken machine.new) }
{
    take_range(registers, machine, path, range.place, range.length, buffer)?;
    take_zeros(registers, range.zeros, buffer);
    Ok(())
}

// Takes the `count` bytes that stand in the file from `at` on, each read once.
fn take_range<M: Machine>(
    registers: &mut [Register],
    machine: &mut M,
    path: &BootPath,
    at: u64,
    count: u64,
    buffer: &mut Buffer,
) -> Result<(), DiskFault>
    requires end { at + count < 2 ^ 64 }
    ensures data { OnOk result (TakesWhere
        (IsTrue M.tells × (count ≤ length (drop at (contents (seen (M.state machine.old)) path.now))))
        (take count (drop at (contents (seen (M.state machine.old)) path.now))) registers.old registers.new) }
    ensures looks { Looks M.tells M.time M.state M.counts (CountsDisk result) machine.old machine.new }
    ensures taken { IsTrue M.tells → TakesAtMost count (M.taken machine.old) (M.taken machine.new) }
{
    path.know();
    let mut hashes = Hashes { registers };
    stream_range(machine, path, at, count, &mut hashes, buffer)?;
    Ok(())
}
