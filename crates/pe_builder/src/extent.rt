//! How far a stub and parts reach, in the file and in memory.

ghost use Rattle.std.specs.Prelude.{◌≡◌, ◌+◌, ◌*◌, ◌<◌, ◌≤◌, ◌^◌, length, set, sum_by};
ghost use Rattle.std.specs.Int.{next_multiple_of};
ghost use Rattle.pe_reader.specs.Prelude.{headers_of, section_at_index};
ghost use Rattle.pe_builder.specs.Layout.{virtual_end, end_after, length_after, address_after};
ghost use Rattle.pe_builder.specs.Replaced.{sbat_index, with_sbat_size, MayReplace};
ghost use Rattle.pe_builder.specs.Sizes.{part_limit};

use crate::size::PartSize;
use pe_reader::{Head, Pe, Section};

/// The index of the stub's first `.sbat`, or the number of its sections where it has none.
pub fn sbat_index(stub: &Pe) -> usize
    ensures { result ≡ sbat_index (headers_of stub.now) }
{
    stub.find(b".sbat").unwrap_or(stub.sections().len())
}

/// The address behind the stub's headers and sections, with a new `.sbat` of that length where it is given.
pub fn stub_end(stub: &Pe, sbat_in_place: Option<u32>) -> u64
    requires { MayReplace (headers_of stub.now) sbat_in_place }
    ensures exact { result ≡ end_after (headers_of stub.now).head.header_size
        (with_sbat_size (headers_of stub.now) sbat_in_place).sections }
    ensures small { result < 2 ^ 33 }
{
    let start = stub.head().header_size as u64;
    match sbat_in_place {
        None => end_after(start, stub.sections()),
        Some(length) => end_resized(start, stub.sections(), sbat_index(stub), length),
    }
}

// The greatest of an address and the ends of sections, one of which has another VirtualSize.
fn end_resized(address: u64, sections: &[Section], index: usize, size: u32) -> u64
    requires small { address < 2 ^ 33 }
    requires inside { index < length sections.now }
    ensures exact { result ≡ end_after address
        (set sections.now index (record (section_at_index sections.now index) { virtual_size = size })) }
    ensures small { result < 2 ^ 33 }
{
    let before = end_after(address, &sections[..index]);
    let here = sections[index].virtual_address as u64 + size as u64;
    end_after(before.max(here), &sections[index + 1..])
}

// The greatest of an address and the ends of sections.
#[tactic(auto, unfolding(crate::specs::Layout::end_after))]
fn end_after(address: u64, sections: &[Section]) -> u64
    requires { address < 2 ^ 33 }
    ensures exact { result ≡ end_after address sections.now }
    ensures small { result < 2 ^ 33 }
{
    let mut end = address;
    for section in sections {
        end = end.max(section.virtual_address as u64 + section.virtual_size as u64);
    }
    end
}

/// The least multiple of a unit that isn't below a number.
pub fn up(x: u64, unit: u32) -> u64
    requires unit { 0 < unit }
    requires small { x < 2 ^ 63 }
    ensures { result ≡ next_multiple_of x unit }
{
    let unit = unit as u64;
    x + (unit - x % unit) % unit
}

/// The length of the file behind parts.
#[tactic(auto, unfolding(crate::specs::Layout::length_after))]
pub fn length_after(head: &Head, stub_length: u32, parts: &[PartSize]) -> u64
    requires unit { 0 < head.now.file_alignment }
    requires small_unit { head.now.file_alignment ≤ 65536 }
    requires few { length parts.now ≤ part_limit }
    requires total { sum_by (λ p. p.length) parts.now ≤ 2 ^ 62 }
    ensures { result ≡ length_after head.now stub_length parts.now }
{
    let mut end = stub_length as u64;
    for part in parts {
        end = up(end, head.file_alignment) + up(part.length, head.file_alignment);
    }
    end
}

/// The address behind parts.
#[tactic(auto, unfolding(crate::specs::Layout::address_after))]
pub fn address_after(head: &Head, address: u64, parts: &[PartSize]) -> u64
    requires unit { 0 < head.now.section_alignment }
    requires small_unit { head.now.section_alignment ≤ 65536 }
    requires few { length parts.now ≤ part_limit }
    requires total { sum_by (λ p. p.length) parts.now ≤ 2 ^ 62 }
    requires small { address < 2 ^ 33 }
    ensures exact { result ≡ address_after head.now address parts.now }
    ensures small { result < 2 ^ 63 }
{
    let mut end = address;
    for part in parts {
        end = up(end, head.section_alignment) + part.length;
    }
    end
}

/// The bytes of parts.
pub fn total(parts: &[PartSize]) -> u64
    requires { sum_by (λ p. p.length) parts.now ≤ 2 ^ 62 }
    ensures { result ≡ sum_by (λ p. p.length) parts.now }
{
    let mut sum = 0;
    for part in parts {
        sum += part.length;
    }
    sum
}
