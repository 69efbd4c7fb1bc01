//! The plan of an image that is built of a stub and parts, before any of their bytes are copied.
ghost use Rattle.std.specs.Prelude.{◌≡◌, ◌≤◌, ◌<◌, ◌-◌, ◌^◌, ◌↔◌, IfOk, count_by, filter, length, map, min, sum_by, true};
ghost use Rattle.std.specs.List.{AllByRecursion};
ghost use Rattle.std.specs.List.Sorted.{IsNonDecreasingBy};
ghost use Rattle.boot_machine.specs.Prelude.{Files};
ghost use Rattle.pe_reader.specs.Prelude.{ReadFrom, headers_of};
ghost use Rattle.pe_builder.specs.Replaced.{MayReplace};
ghost use Rattle.pe_builder.specs.Layout.{FitsPart};
ghost use Rattle.pe_builder.specs.Sizes.{size_of, part_limit};
ghost use Rattle.uki_parts.specs.Parts.{part_place};
ghost use Rattle.image_build.specs.Building.{has_sbat};
ghost use Rattle.image_build.specs.Imaged.{AreFound, AreOrdered, IsCountable, IsOwnPlan, Images, IsSbatPart, PlansParts, image_result, is_filled};

use boot_base::{BootPath, Bytes};
use image_writer::Sources;
use pe_builder::{ImageLayout, LayoutFault, PartSize};
use pe_reader::Pe;
use std::alloc::{AllocError, Global};
use uki_parts::{Part, PartKind, PartList, Piece, SectionName};

/// How many parts with bytes an image holds besides the SBAT text and the kernel.
const MAX_PARTS: usize = 16_777_214;

/// How many bytes they may have together.
const MAX_BYTES: u64 = 1 << 61;

/// What an image is to be, and where its bytes come from.
#[derive(Debug, Drop)]
pub struct ImagePlan {
    /// What the image is to be.
    pub plan: ImageLayout,
    /// The stub, the parts and the new `.sbat` that the plan was made for.
    pub sources: Sources,
}

/// The file of a stub.
#[derive(Debug, Drop)]
pub struct StubFile {
    /// Its path.
    pub path: BootPath,
    /// How many bytes it has.
    pub length: u32,
}

fn sizes_of(alloc: Global, parts: &[Part]) -> Result<Vec<PartSize>, AllocError>
    ensures exact { IfOk result (λ sizes. sizes.items ≡ map size_of parts.now) }
    ensures fit { IfOk result (λ sizes. AllByRecursion FitsPart sizes.items) }
{
    let mut sizes = Vec::new(alloc);
    for part in parts {
        sizes.push(PartSize::of(part))?;
    }
    Ok(sizes)
}

// The plan of an image of these parts, with an SBAT text in the place of the stub's where its length is given.
fn image_plan(
    alloc: Global,
    head: &Pe,
    stub: StubFile,
    parts: PartList,
    in_place: Option<u32>,
    sbat: Vec<u8>,
) -> Result<ImagePlan, LayoutFault>
    requires read { ReadFrom head.now stub.length }
    requires few { length parts ≤ part_limit }
    requires total { sum_by (λ part. part.length) parts ≤ 2 ^ 62 }
    requires sbat { MayReplace (headers_of head.now) in_place }
    ensures { PlansParts (headers_of head.now) stub.length stub.path parts in_place sbat.items result }
{
    let sizes = sizes_of(alloc, parts.parts())?;
    let plan = ImageLayout::make(alloc, head, stub.length, &sizes, in_place)?;
    Ok(ImagePlan {
        plan,
        sources: Sources::new(stub.path, parts, sbat),
    })
}

// The parts that have bytes.
fn list_of_parts(alloc: Global, parts: Vec<Part>) -> Result<PartList, AllocError>
    requires { IsNonDecreasingBy part_place parts.items }
    ensures { IfOk result (λ list. list ≡ filter is_filled parts.items) }
{
    let mut list = PartList::new(alloc);
    for part in parts {
        list.add(part)?;
    }
    Ok(list)
}

fn has_sbat(head: &Pe) -> bool
    ensures { result ≡ has_sbat (headers_of head.now) }
{
    head.find(b".sbat").is_some()
}

fn sbat_part(alloc: Global, text: Vec<u8>) -> Result<Part, AllocError>
    ensures { IfOk result (λ part. IsSbatPart part text.items) }
{
    let length = text.len() as u64;
    let mut pieces = Vec::new(alloc);
    pieces.push(Piece::Bytes(Bytes::from(text)))?;
    let Some(name) = SectionName::of(PartKind::Sbat) else {
        unreachable!()
    };
    Ok(Part {
        kind: PartKind::Sbat,
        name,
        pieces,
        length,
    })
}

// How many of the parts add a section.
fn filled_count(parts: &[Part]) -> usize
    ensures { result ≡ count_by is_filled parts.now }
{
    parts.iter().filter(|part| part.length != 0).count()
}

// How many bytes the parts have, or the greatest u64 where they have more.
fn total_bytes(parts: &[Part]) -> u64
    ensures { result ≡ min (sum_by (λ part. part.length) parts.now) (2 ^ 64 - 1) }
{
    let mut total: u64 = 0;
    for part in parts {
        total = total.saturating_add(part.length);
    }
    total
}

// Whether the numbers of an image hold so many parts and bytes. They hold those of every command, as the law
// `builds_are_countable` says.
fn is_countable(parts: &[Part], sbat: &[u8]) -> bool
    ensures { (result ≡ true) ↔ IsCountable parts.now sbat.now }
{
    filled_count(parts) <= MAX_PARTS && total_bytes(parts) <= MAX_BYTES && sbat.len() < 1 << 32
}

// The plan of an image of these, with its numbers.
fn counted_plan(
    alloc: Global,
    head: &Pe,
    stub: StubFile,
    parts: Vec<Part>,
    linux: Part,
    sbat: Vec<u8>,
) -> Result<ImagePlan, LayoutFault>
    requires read { ReadFrom head.now stub.length }
    requires parts { AreOrdered parts.items linux }
    requires counted { IsCountable parts.items sbat.items }
    ensures images { (view : Files) → AreFound view (headers_of head.now) stub.length stub.path parts.items linux
        → Images view (image_result view (headers_of head.now) stub.path parts.items linux sbat.items) result }
    ensures own { IfOk result (λ image. IsOwnPlan image (headers_of head.now) stub.length stub.path) }
{
    let mut list = list_of_parts(alloc, parts)?;
    if sbat.is_empty() {
        list.add(linux)?;
        return image_plan(alloc, head, stub, list, None, sbat);
    }
    if has_sbat(head) {
        list.add(linux)?;
        let length = sbat.len() as u32;
        return image_plan(alloc, head, stub, list, Some(length), sbat);
    }
    list.add(sbat_part(alloc, sbat)?)?;
    list.add(linux)?;
    image_plan(alloc, head, stub, list, None, Vec::new(alloc))
}

/// The plan of an image of a stub, which has these headers, of parts in append order, a kernel and an SBAT text. Parts
/// without bytes are left out. An SBAT text that isn't empty takes the place of the stub's, or becomes a part before the
/// kernel if the stub has none.
///
/// # Errors
///
/// The first refusal of the builder, exactly if there is one; `Memory` if there is no memory for the plan, or if there
/// are more parts with bytes than 16,777,214, more bytes than 2^61, or an SBAT text of 4 GiB, which no command's words
/// and files reach (`builds_are_countable`).
pub fn plan_image_of(
    alloc: Global,
    head: &Pe,
    stub: StubFile,
    parts: Vec<Part>,
    linux: Part,
    sbat: Vec<u8>,
) -> Result<ImagePlan, LayoutFault>
    requires read { ReadFrom head.now stub.length }
    requires parts { AreOrdered parts.items linux }
    ensures images { (view : Files) → AreFound view (headers_of head.now) stub.length stub.path parts.items linux
        → Images view (image_result view (headers_of head.now) stub.path parts.items linux sbat.items) result }
    ensures own { IfOk result (λ image. IsOwnPlan image (headers_of head.now) stub.length stub.path) }
{
    if !is_countable(&parts, &sbat) {
        return Err(LayoutFault::Memory);
    }
    counted_plan(alloc, head, stub, parts, linux, sbat)
}
