//! The new sections of an image.

ghost use Rattle.std.specs.Prelude.{◌≡◌, ◌+◌, ◌*◌, ◌<◌, ◌≤◌, ◌^◌, [], ◌∷◌, ◌++◌, length, IfOk};
ghost use Rattle.pe_builder.specs.Layout.{section_for, sections_for, raw_end, virtual_end, length_after, address_after};

use crate::extent::up;
use crate::size::PartSize;
use pe_reader::{Head, Section};
use std::alloc::{AllocError, Global};

// A part as a section behind a file of that length and an address.
fn section_for(head: &Head, file_length: u32, address: u32, part: &PartSize) -> Section
    requires file_unit { 0 < head.now.file_alignment }
    requires memory_unit { 0 < head.now.section_alignment }
    requires file { raw_end (section_for head.now file_length address part.now) < 2 ^ 32 }
    requires memory { virtual_end (section_for head.now file_length address part.now) < 2 ^ 32 }
    ensures exact { result ≡ section_for head.now file_length address part.now }
    ensures file { raw_end result < 2 ^ 32 }
    ensures memory { virtual_end result < 2 ^ 32 }
{
    Section {
        name: part.name.padded_bytes(),
        virtual_size: part.length as u32,
        virtual_address: up(address as u64, head.section_alignment) as u32,
        raw_size: up(part.length, head.file_alignment) as u32,
        raw_place: up(file_length as u64, head.file_alignment) as u32,
        flags: part.flags,
    }
}

/// The sections of parts, one behind the other.
pub fn sections_for(
    alloc: Global,
    head: &Head,
    stub_length: u32,
    start: u32,
    parts: &[PartSize],
) -> Result<Vec<Section>, AllocError>
    requires file_unit { 0 < head.now.file_alignment }
    requires memory_unit { 0 < head.now.section_alignment }
    requires file { length_after head.now stub_length parts.now < 2 ^ 32 }
    requires memory { address_after head.now start parts.now < 2 ^ 32 }
    ensures { IfOk result (λ v. v.items ≡ sections_for head.now stub_length start parts.now) }
{
    let mut sections = Vec::new(alloc);
    let mut file_length = stub_length;
    let mut address = start;
    for part in parts {
        let section = section_for(head, file_length, address, part);
        file_length = section.raw_place + section.raw_size;
        address = section.virtual_address + section.virtual_size;
        sections.push(section)?;
    }
    Ok(sections)
}
