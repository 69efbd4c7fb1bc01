//! The plan of an image.

ghost use Rattle.std.specs.Prelude.{◌≡◌, ◌+◌, ◌*◌, ◌<◌, ◌≤◌, ◌^◌, length, map, Some, None, IfOk, IfSome, sum_by};
ghost use Rattle.std.specs.Int.{next_multiple_of};
ghost use Rattle.std.specs.List.{AllByRecursion};
ghost use Rattle.boot_base.specs.Limits.{file_limit};
ghost use Rattle.pe_reader.specs.Prelude.{ReadFrom, headers_of, section_at_index};
ghost use Rattle.pe_builder.specs.Layout.{end_after, address_after, FitsPart};
ghost use Rattle.pe_builder.specs.Replaced.{sbat_index, with_sbat_size, MayReplace};
ghost use Rattle.pe_builder.specs.Refusals.{first_refusal, size_refusal};
ghost use Rattle.pe_builder.specs.Planned.{PlansImage, Makes, head_after, planned_length, sbat_place};
ghost use Rattle.pe_builder.specs.Known.{planned_stub_length, planned_before, planned_after, planned_sections, planned_sbat};
ghost use Rattle.pe_reader.specs.Grammar.{section_limit};
ghost use Rattle.pe_builder.specs.Sizes.{part_limit};

use crate::extent::{address_after, length_after, sbat_index, stub_end, total, up};
use crate::fault::LayoutFault;
use crate::layout::sections_for;
use crate::refusal::find_refusal;
use crate::size::PartSize;
use pe_reader::{Head, Pe, Section};
use std::alloc::{AllocError, Global};

/// What an image is to be: which numbers of the stub's headers it has in place of theirs, its new sections, and where
/// its `.sbat` is replaced.
#[derive(Debug, Drop)]
pub struct ImageLayout {
    /// How many bytes the stub has.
    pub(crate) stub_length: u32,
    /// What the stub's headers say.
    pub(crate) before: Head,
    /// What the image's headers say.
    pub(crate) after: Head,
    /// The new sections in the order of the parts.
    pub(crate) sections: Vec<Section>,
    /// Where the stub's `.sbat` stands, if it is replaced in place.
    pub(crate) sbat: Option<SbatPlace>,
    /// How many bytes the image has.
    image_length: u64,
}

/// Where the stub's `.sbat` stands, and how many bytes the one in its place has.
#[derive(Clone, Copy, Debug)]
pub struct SbatPlace {
    /// The place of VirtualSize in its section header.
    pub size_place: u32,
    /// Where its raw data stand.
    pub raw_place: u32,
    /// How many bytes its raw data have.
    pub raw_size: u32,
    /// How many bytes the new content has.
    pub length: u32,
}

impl ImageLayout {
    /// The plan of an image of a stub of `stub_length` bytes and of parts of these sizes, in the order in which they
    /// are to stand. A new `.sbat` of `sbat_in_place` bytes takes the place of the stub's if that is given, which asks
    /// for a stub that has one.
    ///
    /// # Errors
    ///
    /// The first reason why there is no image, exactly if there is none; `Memory` if there is no memory for the plan. The
    /// reasons in their order: `SignedStub`, `SectionTwice`, `SbatDoesNotFit`, `NoHeaderSpace`, `AddressSpace` by
    /// SizeOfImage and then by SizeOfInitializedData, `ImageTooLarge`.
    pub fn make(
        alloc: Global,
        stub: &Pe,
        stub_length: u32,
        sizes: &[PartSize],
        sbat_in_place: Option<u32>,
    ) -> Result<ImageLayout, LayoutFault>
        requires read { ReadFrom stub.now stub_length }
        requires few { length sizes.now ≤ part_limit }
        requires total { sum_by (λ p. p.length) sizes.now ≤ 2 ^ 62 }
        requires fit { AllByRecursion FitsPart sizes.now }
        requires sbat { MayReplace (headers_of stub.now) sbat_in_place }
        ensures { Makes (λ plan. PlansImage plan (headers_of stub.now) stub_length sizes.now sbat_in_place) result
            (first_refusal (headers_of stub.now) stub_length sizes.now sbat_in_place) }
    {
        if let Some(fault) = find_refusal(alloc, stub, stub_length, sizes, sbat_in_place)? {
            return Err(fault);
        }
        let plan = lay_out(alloc, stub, stub_length, sizes, sbat_in_place)?;
        Ok(plan)
    }

    /// How many bytes the image has.
    pub fn image_length(&self) -> u64
        ensures { result ≡ planned_length self.now }
    {
        self.image_length
    }

    /// How many bytes the stub has that the plan was made for.
    pub fn stub_length(&self) -> u32
        ensures { result ≡ planned_stub_length self.now }
    {
        self.stub_length
    }

    /// What that stub's headers say.
    pub fn stub_head(&self) -> &Head
        ensures { result.now ≡ planned_before self.now }
    {
        &self.before
    }

    /// What the image's headers say.
    pub fn image_head(&self) -> &Head
        ensures { result.now ≡ planned_after self.now }
    {
        &self.after
    }

    /// The image's new sections in the order of the parts, which is that of their headers and of their raw data.
    pub fn new_sections(&self) -> &[Section]
        ensures { result.now ≡ planned_sections self.now }
    {
        &self.sections
    }

    /// Where the stub's `.sbat` stands, if it is replaced in place.
    pub fn sbat_place(&self) -> Option<SbatPlace>
        ensures { result ≡ planned_sbat self.now }
    {
        self.sbat
    }
}

// The plan where nothing is refused.
fn lay_out(
    alloc: Global,
    stub: &Pe,
    stub_length: u32,
    sizes: &[PartSize],
    sbat_in_place: Option<u32>,
) -> Result<ImageLayout, AllocError>
    requires read { ReadFrom stub.now stub_length }
    requires few { length sizes.now ≤ part_limit }
    requires total { sum_by (λ p. p.length) sizes.now ≤ 2 ^ 62 }
    requires sbat { MayReplace (headers_of stub.now) sbat_in_place }
    requires fit { AllByRecursion FitsPart sizes.now }
    requires none { first_refusal (headers_of stub.now) stub_length sizes.now sbat_in_place ≡ None }
    ensures { IfOk result (λ plan. PlansImage plan (headers_of stub.now) stub_length sizes.now sbat_in_place) }
{
    let head = stub.head();
    let start = stub_end(stub, sbat_in_place) as u32;
    let sections = sections_for(alloc, head, stub_length, start, sizes)?;
    Ok(ImageLayout {
        stub_length,
        before: *head,
        after: head_after(head, start, sizes),
        sections,
        sbat: sbat_place(stub, sbat_in_place),
        image_length: length_after(head, stub_length, sizes),
    })
}

// The head of the image.
fn head_after(head: &Head, start: u32, parts: &[PartSize]) -> Head
    requires memory_unit { 0 < head.now.section_alignment }
    requires small_unit { head.now.section_alignment ≤ 65536 }
    requires few { head.now.section_count + length parts.now ≤ section_limit }
    requires total { sum_by (λ p. p.length) parts.now ≤ 2 ^ 62 }
    requires image { next_multiple_of (address_after head.now start parts.now) head.now.section_alignment < 2 ^ 32 }
    requires initialized { head.now.initialized_size + sum_by (λ p. p.length) parts.now < 2 ^ 32 }
    ensures { result ≡ head_after head.now start parts.now }
{
    let end = address_after(head, start as u64, parts);
    Head {
        pe_place: head.pe_place,
        section_count: head.section_count + parts.len() as u16,
        optional_size: head.optional_size,
        initialized_size: head.initialized_size + total(parts) as u32,
        section_alignment: head.section_alignment,
        file_alignment: head.file_alignment,
        image_size: up(end, head.section_alignment) as u32,
        header_size: head.header_size,
        directory_count: head.directory_count,
        certificate_size: head.certificate_size,
        table_place: head.table_place,
    }
}

// Where the stub's `.sbat` stands, that is replaced by one of that length.
fn sbat_place(stub: &Pe, sbat_in_place: Option<u32>) -> Option<SbatPlace>
    requires sbat { MayReplace (headers_of stub.now) sbat_in_place }
    requires small { (headers_of stub.now).head.table_place + 40 * length (headers_of stub.now).sections ≤ file_limit }
    ensures { result ≡ sbat_place (headers_of stub.now) sbat_in_place }
{
    let length = sbat_in_place?;
    let index = sbat_index(stub);
    let section = stub.sections()[index];
    Some(SbatPlace {
        size_place: stub.head().table_place + 40 * index as u32 + 8,
        raw_place: section.raw_place,
        raw_size: section.raw_size,
        length,
    })
}
