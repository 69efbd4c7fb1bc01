//! Why there is no image of a stub and parts.

ghost use Rattle.std.specs.Prelude.{◌≡◌, ◌<◌, ◌≤◌, ◌^◌, [], length, nat_le, sum_by, IfOk};
ghost use Rattle.boot_base.specs.Limits.{file_limit};
ghost use Rattle.pe_reader.specs.Prelude.{ReadFrom, headers_of};
ghost use Rattle.pe_builder.specs.Layout.{length_after};
ghost use Rattle.pe_builder.specs.Replaced.{with_sbat_size, MayReplace};
ghost use Rattle.pe_builder.specs.Refusals.{first_taken, first_refusal, sbat_refusal, size_refusal};
ghost use Rattle.pe_builder.specs.Sizes.{part_limit};

use crate::extent::{address_after, length_after, sbat_index, stub_end, total, up};
use crate::fault::LayoutFault;
use crate::size::PartSize;
use crate::taken::find_taken;
use boot_base::FILE_LIMIT;
use pe_reader::Pe;
use std::alloc::{AllocError, Global};

/// The bytes that 96 section headers take, which are as many as an image may have.
const MAX_TABLE: u32 = 3840;

/// The first reason why there is no image of a stub of that length and parts of these sizes, with a new `.sbat` of
/// that length in the place of the stub's if it is given; None exactly if there is one.
///
/// # Errors
///
/// Only if there is no memory for a set of the parts' names.
pub fn find_refusal(
    alloc: Global,
    stub: &Pe,
    stub_length: u32,
    sizes: &[PartSize],
    sbat_in_place: Option<u32>,
) -> Result<Option<LayoutFault>, AllocError>
    requires read { ReadFrom stub.now stub_length }
    requires few { length sizes.now ≤ part_limit }
    requires total { sum_by (λ p. p.length) sizes.now ≤ 2 ^ 62 }
    requires sbat { MayReplace (headers_of stub.now) sbat_in_place }
    ensures { IfOk result (λ found. found ≡ first_refusal (headers_of stub.now) stub_length sizes.now sbat_in_place) }
{
    let taken = find_taken(alloc, stub.sections(), sizes)?;
    Ok(refusal(stub, stub_length, sizes, sbat_in_place, taken))
}

// The first reason, by the first part whose name is taken.
#[tactic(auto, unfolding(crate::specs::Refusals::first_refusal))]
fn refusal(
    stub: &Pe,
    stub_length: u32,
    parts: &[PartSize],
    sbat_in_place: Option<u32>,
    taken: Option<LayoutFault>,
) -> Option<LayoutFault>
    requires read { ReadFrom stub.now stub_length }
    requires few { length parts.now ≤ part_limit }
    requires total { sum_by (λ p. p.length) parts.now ≤ 2 ^ 62 }
    requires sbat { MayReplace (headers_of stub.now) sbat_in_place }
    requires taken { taken ≡ first_taken (headers_of stub.now).sections [] parts.now }
    ensures { result ≡ first_refusal (headers_of stub.now) stub_length parts.now sbat_in_place }
{
    if stub.head().certificate_size != 0 {
        return Some(LayoutFault::SignedStub);
    }
    if let Some(fault) = taken {
        return Some(fault);
    }
    if let Some(fault) = sbat_refusal(stub, sbat_in_place) {
        return Some(fault);
    }
    size_refusal(stub, stub_length, parts, sbat_in_place)
}

// Whether a new `.sbat` has more bytes than the raw data of the stub's.
fn sbat_refusal(stub: &Pe, sbat_in_place: Option<u32>) -> Option<LayoutFault>
    requires { MayReplace (headers_of stub.now) sbat_in_place }
    ensures { result ≡ sbat_refusal (headers_of stub.now) sbat_in_place }
{
    let length = sbat_in_place?;
    let room = stub.sections()[sbat_index(stub)].raw_size;
    if length > room {
        return Some(LayoutFault::SbatDoesNotFit { length, room });
    }
    None
}

// The first refusal that rests on sizes.
#[tactic(auto, unfolding(crate::specs::Refusals::size_refusal))]
fn size_refusal(
    stub: &Pe,
    stub_length: u32,
    parts: &[PartSize],
    sbat_in_place: Option<u32>,
) -> Option<LayoutFault>
    requires file_unit { 0 < (headers_of stub.now).head.file_alignment }
    requires memory_unit { 0 < (headers_of stub.now).head.section_alignment }
    requires units { (headers_of stub.now).head.file_alignment ≤ (headers_of stub.now).head.section_alignment }
    requires small_unit { (headers_of stub.now).head.section_alignment ≤ 65536 }
    requires table { (headers_of stub.now).head.table_place ≤ file_limit }
    requires few { length parts.now ≤ part_limit }
    requires total { sum_by (λ p. p.length) parts.now ≤ 2 ^ 62 }
    requires sbat { MayReplace (headers_of stub.now) sbat_in_place }
    ensures { result ≡ size_refusal (with_sbat_size (headers_of stub.now) sbat_in_place) stub_length parts.now }
{
    let head = stub.head();
    let need = head.table_place + 40 * (head.section_count as u32 + parts.len() as u32);
    let have = head.header_size.min(head.table_place + MAX_TABLE);
    if have < need {
        return Some(LayoutFault::NoHeaderSpace { need, have });
    }
    let start = stub_end(stub, sbat_in_place);
    let image_size = up(address_after(head, start, parts), head.section_alignment);
    if image_size >= 4_294_967_296 {
        return Some(LayoutFault::AddressSpace { end: image_size });
    }
    let initialized = head.initialized_size as u64 + total(parts);
    if initialized >= 4_294_967_296 {
        return Some(LayoutFault::AddressSpace { end: initialized });
    }
    let size = length_after(head, stub_length, parts);
    if size > FILE_LIMIT {
        return Some(LayoutFault::ImageTooLarge { size });
    }
    None
}
