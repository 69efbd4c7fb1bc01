//! The parts of an image behind its stub.

ghost use Rattle.std.specs.Prelude.{◌≡◌, ◌<◌, true, replicate, sum_by, IsTrue, OnOk, flat_map};
ghost use Rattle.boot_machine.specs.Prelude.{CountsDisk, TakesAtMost, has};
ghost use Rattle.uki_parts.specs.Pieces.{Reading, file_length};
ghost use Rattle.install_steps.specs.Appends.{Appends, IsGrown};
ghost use Rattle.image_writer.specs.Chunks.{Agrees, behind_stub, gap, given_bytes, padded_part};
ghost use Rattle.image_writer.specs.Taken.{part_reading};

use crate::append::write_zeros;
use boot_base::{Buffer, TempPath};
use boot_machine::{DiskFault, Machine};
use install_steps::{append, copy_part};
use uki_parts::{Part, Piece};

/// Appends the parts, each filled up to a multiple of FileAlignment, behind a stub that is filled up likewise.
pub fn write_parts<M: Machine>(
    machine: &mut M,
    temp: &TempPath,
    stub_length: u64,
    unit: u32,
    parts: &[Part],
    buffer: &mut Buffer,
) -> Result<(), DiskFault>
    requires there { IsTrue M.tells → has (M.state machine.old).files temp.now ≡ true }
    ensures appends { Appends M.tells M.time M.state M.counts (CountsDisk result) temp.now machine.old machine.new }
    ensures grows { OnOk result (IsTrue M.tells → 0 < unit → (files : Reading)
        → Agrees files (M.state machine.old).files
        → IsGrown temp.now (behind_stub files unit stub_length parts.now) (M.state machine.old) (M.state machine.new)) }
    ensures taken { IsTrue M.tells → TakesAtMost (sum_by part_reading parts.now)
        (M.taken machine.old) (M.taken machine.new) }
{
    if parts.is_empty() {
        return Ok(());
    }
    temp.know();
    write_zeros(machine, temp, gap(unit, stub_length), buffer)?;
    write_each_part(machine, temp, unit, parts, buffer)
}

// Appends the parts, each filled up to a multiple of FileAlignment.
fn write_each_part<M: Machine>(
    machine: &mut M,
    temp: &TempPath,
    unit: u32,
    parts: &[Part],
    buffer: &mut Buffer,
) -> Result<(), DiskFault>
    requires there { IsTrue M.tells → has (M.state machine.old).files temp.now ≡ true }
    ensures appends { Appends M.tells M.time M.state M.counts (CountsDisk result) temp.now machine.old machine.new }
    ensures grows { OnOk result (IsTrue M.tells → 0 < unit → (files : Reading)
        → Agrees files (M.state machine.old).files
        → IsGrown temp.now (flat_map (padded_part files unit) parts.now) (M.state machine.old) (M.state machine.new)) }
    ensures taken { IsTrue M.tells → TakesAtMost (sum_by part_reading parts.now)
        (M.taken machine.old) (M.taken machine.new) }
{
    temp.know();
    for part in parts {
        write_part(machine, temp, unit, part, buffer)?;
    }
    Ok(())
}

// Appends a part and the zeros that fill it up.
fn write_part<M: Machine>(
    machine: &mut M,
    temp: &TempPath,
    unit: u32,
    part: &Part,
    buffer: &mut Buffer,
) -> Result<(), DiskFault>
    requires there { IsTrue M.tells → has (M.state machine.old).files temp.now ≡ true }
    ensures appends { Appends M.tells M.time M.state M.counts (CountsDisk result) temp.now machine.old machine.new }
    ensures grows { OnOk result (IsTrue M.tells → 0 < unit → (files : Reading)
        → Agrees files (M.state machine.old).files
        → IsGrown temp.now (padded_part files unit part.now) (M.state machine.old) (M.state machine.new)) }
    ensures taken { IsTrue M.tells → TakesAtMost (part_reading part.now) (M.taken machine.old) (M.taken machine.new) }
{
    write_pieces(machine, temp, &part.pieces, buffer)?;
    write_zeros(machine, temp, gap(unit, part.length), buffer)
}

// Appends the pieces of a part.
fn write_pieces<M: Machine>(
    machine: &mut M,
    temp: &TempPath,
    pieces: &[Piece],
    buffer: &mut Buffer,
) -> Result<(), DiskFault>
    requires there { IsTrue M.tells → has (M.state machine.old).files temp.now ≡ true }
    ensures appends { Appends M.tells M.time M.state M.counts (CountsDisk result) temp.now machine.old machine.new }
    ensures grows { OnOk result (IsTrue M.tells → (files : Reading) → Agrees files (M.state machine.old).files
        → IsGrown temp.now (flat_map (given_bytes files) pieces.now) (M.state machine.old) (M.state machine.new)) }
    ensures taken { IsTrue M.tells → TakesAtMost (sum_by file_length pieces.now)
        (M.taken machine.old) (M.taken machine.new) }
{
    temp.know();
    for piece in pieces {
        write_piece(machine, temp, piece, buffer)?;
    }
    Ok(())
}

// Appends the bytes of a piece.
fn write_piece<M: Machine>(
    machine: &mut M,
    temp: &TempPath,
    piece: &Piece,
    buffer: &mut Buffer,
) -> Result<(), DiskFault>
    requires there { IsTrue M.tells → has (M.state machine.old).files temp.now ≡ true }
    ensures appends { Appends M.tells M.time M.state M.counts (CountsDisk result) temp.now machine.old machine.new }
    ensures grows { OnOk result (IsTrue M.tells → (files : Reading) → Agrees files (M.state machine.old).files
        → IsGrown temp.now (given_bytes files piece.now) (M.state machine.old) (M.state machine.new)) }
    ensures taken { IsTrue M.tells → TakesAtMost (file_length piece.now) (M.taken machine.old) (M.taken machine.new) }
{
    match piece {
        Piece::Bytes(bytes) => append(machine, temp, bytes.as_slice()),
        Piece::File { path, size } => {
            path.know();
            copy_part(machine, temp, path, 0, *size, buffer)
        }
        Piece::Zeros(count) => write_zeros(machine, temp, *count, buffer),
    }
}

// How many zeros fill up so many bytes to a multiple of a number.
fn gap(unit: u32, count: u64) -> u64
    ensures { 0 < unit → result ≡ gap unit count }
{
    let unit = (unit as u64).max(1);
    (unit - count % unit) % unit
}
