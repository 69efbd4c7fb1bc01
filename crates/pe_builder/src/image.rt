//! The bytes of an image in memory: the plain form of what `image_writer` writes, which no command calls.

ghost use Rattle.std.specs.Prelude.{◌≡◌, ◌+◌, ◌*◌, ◌-◌, ◌≤◌, ◌<◌, ◌++◌, length, map, replicate, IfOk, OnOk, flat_map};
ghost use Rattle.byteorder.specs.Endian.{little_bytes};
ghost use Rattle.pe_builder.specs.Image.{with_fields, with_raw, section_header};
ghost use Rattle.pe_builder.specs.Puts.{put, pad_to};
ghost use Rattle.pe_builder.specs.Planned.{IsPlanFor, IsFinished, image_by, replaced_by, FitsStub, FitsPlace};

use crate::headers::section_headers;
use crate::plan::{ImageLayout, SbatPlace};
use crate::puts::{pad, push_gap, put_bytes, put_u16, put_u32};
use pe_reader::Head;
use std::alloc::{AllocError, Global};

/// The finished image by a plan: the stub's bytes with the new headers, with `sbat` in the place of its `.sbat` where
/// the plan says so, and behind them the parts' bytes. The plan was made for that stub and for these lengths.
///
/// # Errors
///
/// Only where there is no memory for the image.
pub fn image_bytes(
    alloc: Global,
    plan: &ImageLayout,
    stub: &[u8],
    parts: &[Vec<u8>],
    sbat: &[u8],
) -> Result<Vec<u8>, AllocError>
    requires { IsPlanFor plan.now stub.now (map (λ c. c.items) parts.now) sbat.now }
    ensures { IfOk result (λ image. IsFinished plan.now stub.now (map (λ c. c.items) parts.now) sbat.now image.items) }
{
    build_bytes(alloc, plan, stub, parts, sbat)
}

// The bytes that a plan makes of a stub and contents.
fn build_bytes(
    alloc: Global,
    plan: &ImageLayout,
    stub: &[u8],
    contents: &[Vec<u8>],
    sbat: &[u8],
) -> Result<Vec<u8>, AllocError>
    requires { FitsStub plan.now (length stub.now) (length sbat.now) }
    ensures { IfOk result (λ v. v.items ≡ image_by plan.now (map (λ c. c.items) contents.now) sbat.now stub.now) }
{
    let headers = section_headers(alloc, &plan.sections)?;
    let mut image = Vec::from_slice(alloc, stub)?;
    write_sbat(alloc, &mut image, plan.sbat, sbat)?;
    write_fields(&mut image, &plan.before, &plan.after, &headers);
    push_contents(&mut image, plan.before.file_alignment, contents)?;
    Ok(image)
}

// Writes a new `.sbat` over the old one, where it is replaced.
fn write_sbat(
    alloc: Global,
    bytes: &mut [u8],
    place: Option<SbatPlace>,
    sbat: &[u8],
) -> Result<(), AllocError>
    requires { FitsPlace place (length bytes.old) (length sbat.now) }
    ensures { OnOk result (bytes.new ≡ replaced_by place sbat.now bytes.old) }
{
    let Some(place) = place else {
        return Ok(());
    };
    let mut content = Vec::from_slice(alloc, sbat)?;
    content.resize(place.raw_size as usize, 0)?;
    put_bytes(bytes, place.raw_place as usize, &content);
    put_u32(bytes, place.size_place as usize, place.length);
    Ok(())
}

// Writes the fields of a head, and section headers behind those that are there.
fn write_fields(bytes: &mut [u8], before: &Head, after: &Head, headers: &[u8])
    requires before { before.now.pe_place + 136 ≤ before.now.table_place }
    requires table { before.now.table_place + 40 * before.now.section_count + length headers.now ≤ length bytes.old }
    ensures { bytes.new ≡ with_fields before.now after.now headers.now bytes.old }
{
    let place = before.pe_place as usize;
    let table = before.table_place as usize + 40 * before.section_count as usize;
    put_bytes(bytes, table, headers);
    put_u32(bytes, place + 24 + 64, 0);
    put_u32(bytes, place + 24 + 56, after.image_size);
    put_u32(bytes, place + 24 + 8, after.initialized_size);
    put_u16(bytes, place + 6, after.section_count);
}

// Adds contents, each padded to a multiple of a number.
#[tactic(auto, unfolding(crate::specs::Image::with_raw))]
fn push_contents(out: &mut Vec<u8>, unit: u32, contents: &[Vec<u8>]) -> Result<(), AllocError>
    requires { 0 < unit }
    ensures { OnOk result (out.new.items ≡ with_raw unit out.old.items (map (λ c. c.items) contents.now)) }
{
    for content in contents {
        push_padded(out, unit, content)?;
    }
    Ok(())
}

// Adds bytes behind a gap, and pads them.
#[tactic(auto, using(std::proofs::lemmas::List::append_assoc), unfolding(crate::specs::Puts::pad_to))]
fn push_padded(out: &mut Vec<u8>, unit: u32, bytes: &[u8]) -> Result<(), AllocError>
    requires { 0 < unit }
    ensures { OnOk result (out.new.items ≡ pad_to unit out.old.items ++ pad_to unit bytes.now) }
{
    pad(out, unit)?;
    out.extend_from_slice(bytes)?;
    push_gap(out, bytes.len(), unit)
}
