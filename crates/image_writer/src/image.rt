//! The whole of an image.

ghost use Rattle.std.specs.Prelude.{◌≡◌, [], true, IsTrue, OnOk};
ghost use Rattle.boot_machine.specs.Prelude.{CountsDisk, TakesAtMost, contents, has, view};
ghost use Rattle.install_steps.specs.Appends.{Appends, IsGrown};
ghost use Rattle.image_writer.specs.Chunks.{chunk_bytes, chunks_bytes, headers_bytes, new_stub_bytes};
ghost use Rattle.image_writer.specs.Sourced.{IsSourced, IsPlannedImage, stub_path, new_sbat};
ghost use Rattle.image_writer.specs.Taken.{chunk_length, chunks_length, kept_length, writing_length};

use crate::append::write_zeros;
use crate::chunk::{Chunk, number_chunks, rest_chunks, section_chunks, table_chunks};
use crate::part::write_parts;
use crate::sources::Sources;
use boot_base::{Buffer, TempPath};
use boot_machine::{DiskFault, Machine};
use install_steps::{append, copy_part};
use pe_builder::ImageLayout;
use pe_reader::Section;

/// Appends the finished image by a plan to a temporary file that is there and empty, as `image_bytes` of `pe_builder`
/// gives it (UAPI Unified Kernel Image, Microsoft PE/COFF). Files are read once and in order, through the buffer, and
/// no memory is taken. The plan was made for these sources. Zeros stand for bytes that the machine doesn't give.
/// Afterwards the buffer holds anything.
///
/// # Errors
///
/// Only where the machine has counted a fault of the disk; then some of the image is appended.
pub fn write_image<M: Machine>(
    plan: &ImageLayout,
    sources: &Sources,
    buffer: &mut Buffer,
    temp: &TempPath,
    machine: &mut M,
) -> Result<(), DiskFault>
    requires sourced { IsTrue M.tells → IsSourced plan.now sources.now (view (M.state machine.old).files) }
    requires there { IsTrue M.tells → has (M.state machine.old).files temp.now ≡ true }
    requires empty { IsTrue M.tells → contents (M.state machine.old).files temp.now ≡ [] }
    ensures image { OnOk result (IsTrue M.tells
        → IsPlannedImage plan.now sources.now (view (M.state machine.old).files)
        (contents (M.state machine.new).files temp.now)) }
    ensures appends { Appends M.tells M.time M.state M.counts (CountsDisk result) temp.now machine.old machine.new }
    ensures taken { IsTrue M.tells → TakesAtMost (writing_length plan.now sources.now)
        (M.taken machine.old) (M.taken machine.new) }
{
    sources.stub.know();
    temp.know();
    write_stub(machine, temp, plan, sources, buffer)?;
    let stub_length = plan.stub_length() as u64;
    let unit = plan.stub_head().file_alignment;
    write_parts(
        machine,
        temp,
        stub_length,
        unit,
        sources.parts.parts(),
        buffer,
    )
}

// Appends what stands in the place of the stub.
fn write_stub<M: Machine>(
    machine: &mut M,
    temp: &TempPath,
    plan: &ImageLayout,
    sources: &Sources,
    buffer: &mut Buffer,
) -> Result<(), DiskFault>
    requires there { IsTrue M.tells → has (M.state machine.old).files temp.now ≡ true }
    ensures appends { Appends M.tells M.time M.state M.counts (CountsDisk result) temp.now machine.old machine.new }
    ensures grows { OnOk result (IsTrue M.tells → IsGrown temp.now
        (new_stub_bytes plan.now (contents (M.state machine.old).files (stub_path sources.now)) (new_sbat sources.now))
        (M.state machine.old) (M.state machine.new)) }
    ensures taken { IsTrue M.tells → TakesAtMost (kept_length plan.now) (M.taken machine.old) (M.taken machine.new) }
{
    sources.stub.know();
    temp.know();
    write_chunks(machine, temp, sources, &number_chunks(plan), buffer)?;
    write_chunks(machine, temp, sources, &table_chunks(plan), buffer)?;
    write_headers(machine, temp, sources, plan.new_sections(), buffer)?;
    write_chunks(machine, temp, sources, &rest_chunks(plan), buffer)
}

// Appends the headers of sections.
fn write_headers<M: Machine>(
    machine: &mut M,
    temp: &TempPath,
    sources: &Sources,
    sections: &[Section],
    buffer: &mut Buffer,
) -> Result<(), DiskFault>
    requires there { IsTrue M.tells → has (M.state machine.old).files temp.now ≡ true }
    ensures appends { Appends M.tells M.time M.state M.counts (CountsDisk result) temp.now machine.old machine.new }
    ensures grows { OnOk result (IsTrue M.tells → IsGrown temp.now
        (headers_bytes (contents (M.state machine.old).files (stub_path sources.now))
        (new_sbat sources.now) sections.now)
        (M.state machine.old) (M.state machine.new)) }
    ensures taken { IsTrue M.tells → TakesAtMost 0 (M.taken machine.old) (M.taken machine.new) }
{
    sources.stub.know();
    temp.know();
    for section in sections {
        write_chunks(machine, temp, sources, &section_chunks(section), buffer)?;
    }
    Ok(())
}

// Appends chunks, one behind the other.
fn write_chunks<M: Machine>(
    machine: &mut M,
    temp: &TempPath,
    sources: &Sources,
    chunks: &[Chunk],
    buffer: &mut Buffer,
) -> Result<(), DiskFault>
    requires there { IsTrue M.tells → has (M.state machine.old).files temp.now ≡ true }
    ensures appends { Appends M.tells M.time M.state M.counts (CountsDisk result) temp.now machine.old machine.new }
    ensures grows { OnOk result (IsTrue M.tells → IsGrown temp.now
        (chunks_bytes (contents (M.state machine.old).files (stub_path sources.now)) (new_sbat sources.now) chunks.now)
        (M.state machine.old) (M.state machine.new)) }
    ensures taken { IsTrue M.tells → TakesAtMost (chunks_length chunks.now)
        (M.taken machine.old) (M.taken machine.new) }
{
    sources.stub.know();
    temp.know();
    for chunk in chunks {
        write_chunk(machine, temp, sources, *chunk, buffer)?;
    }
    Ok(())
}

// Appends a chunk.
fn write_chunk<M: Machine>(
    machine: &mut M,
    temp: &TempPath,
    sources: &Sources,
    chunk: Chunk,
    buffer: &mut Buffer,
) -> Result<(), DiskFault>
    requires there { IsTrue M.tells → has (M.state machine.old).files temp.now ≡ true }
    ensures appends { Appends M.tells M.time M.state M.counts (CountsDisk result) temp.now machine.old machine.new }
    ensures grows { OnOk result (IsTrue M.tells → IsGrown temp.now
        (chunk_bytes (contents (M.state machine.old).files (stub_path sources.now)) (new_sbat sources.now) chunk)
        (M.state machine.old) (M.state machine.new)) }
    ensures taken { IsTrue M.tells → TakesAtMost (chunk_length chunk) (M.taken machine.old) (M.taken machine.new) }
{
    match chunk {
        Chunk::Stub { from, to } => copy_part(machine, temp, &sources.stub, from, to, buffer),
        Chunk::Name(name) => append(machine, temp, &name),
        Chunk::Short(value) => append(machine, temp, &value.to_le_bytes()),
        Chunk::Long(value) => append(machine, temp, &value.to_le_bytes()),
        Chunk::Sbat => append(machine, temp, &sources.sbat),
        Chunk::Zeros(count) => write_zeros(machine, temp, count, buffer),
    }
}
