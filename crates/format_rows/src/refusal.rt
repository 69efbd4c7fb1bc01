//! Why there is no image.
ghost use Rattle.std.specs.Prelude.{◌≡◌, ◌≤◌, ◌^◌, length, sum_by, option_map, IfOk};
ghost use Rattle.pe_reader.specs.Prelude.{headers_of};
ghost use Rattle.pe_builder.specs.Replaced.{MayReplace};
ghost use Rattle.pe_builder.specs.Planned.{sbat_if_in_place};
ghost use Rattle.pe_builder.specs.Layout.{FitsPart};
ghost use Rattle.pe_builder.specs.Sizes.{part_limit};
ghost use Rattle.std.specs.List.{AllByRecursion};

use crate::case::Case;
use crate::fault::RowFault;
use crate::words::{number, quote_bytes, split_at_mark};
use pe_builder::{ImageLayout, LayoutFault, PartSize};
use pe_reader::Pe;
use std::alloc::{AllocError, Global};
use uki_parts::{PartKind, SectionName};

/// More parts than a row has.
const PART_LIMIT: usize = 16;

/// More bytes than a part of a row has.
const LENGTH_LIMIT: u64 = 1_099_511_627_776;

/// The name of a part.
pub(crate) fn part_name(text: &str) -> Result<SectionName, RowFault> {
    let name = if text == ".sbat" {
        SectionName::of(PartKind::Sbat)
    } else {
        SectionName::read(text)
    };
    name.ok_or(RowFault::Unclear)
}

/// The size of a part of a row.
pub(crate) fn part_size(name: SectionName, length: u64) -> Result<PartSize, RowFault>
    ensures length { IfOk result (λ size. size.length ≡ length) }
    ensures small { IfOk result (λ size. size.length ≤ 2 ^ 40) }
    ensures fits { IfOk result FitsPart }
{
    if length > LENGTH_LIMIT {
        return Err(RowFault::Unclear);
    }
    Ok(PartSize::with_name(name, length))
}

// The size of a part by its name and its length.
fn size_of_word(word: &str) -> Result<PartSize, RowFault>
    ensures small { IfOk result (λ size. size.length ≤ 2 ^ 40) }
    ensures fits { IfOk result FitsPart }
{
    let (name, length) = split_at_mark(word, ':')?;
    part_size(part_name(name)?, number(length)?)
}

// The sizes of at most sixteen parts.
fn part_sizes(alloc: Global, rest: &str) -> Result<Vec<PartSize>, RowFault>
    ensures few { IfOk result (λ sizes. length sizes.items ≤ part_limit) }
    ensures total { IfOk result (λ sizes. sum_by (λ p. p.length) sizes.items ≤ 2 ^ 62) }
    ensures fit { IfOk result (λ sizes. AllByRecursion FitsPart sizes.items) }
{
    let mut sizes = Vec::new(alloc);
    for word in rest.split_whitespace() {
        if sizes.len() >= PART_LIMIT {
            return Err(RowFault::Unclear);
        }
        sizes.push(size_of_word(word)?)?;
    }
    Ok(sizes)
}

/// The length of a new `.sbat`, if there is one and the stub has one.
pub(crate) fn in_place(stub: &Pe, sbat: &[u8]) -> Option<u32>
    ensures may { MayReplace (headers_of stub.now) result }
    ensures length { option_map length (sbat_if_in_place result sbat.now) ≡ result }
{
    if sbat.is_empty() || stub.find(b".sbat").is_none() {
        return None;
    }
    u32::try_from(sbat.len()).ok()
}

/// The fault, with the name of a section that is there twice.
pub(crate) fn fault_text(alloc: Global, fault: LayoutFault) -> Result<String, AllocError> {
    let LayoutFault::SectionTwice { name } = fault else {
        return format!(in alloc; "{fault}");
    };
    let name = quote_bytes(alloc, name.bytes())?;
    format!(in alloc; "{fault}: {name}")
}

/// Why there is no image of the file and parts with these names and lengths.
pub(crate) fn refusal_text(alloc: Global, case: &Case, rest: &str) -> Result<String, RowFault> {
    let stub = case.file();
    let pe = Pe::read(alloc, stub)?;
    let sizes = part_sizes(alloc, rest)?;
    let sbat = in_place(&pe, &case.sbat);
    match ImageLayout::make(alloc, &pe, stub.len() as u32, &sizes, sbat) {
        Ok(_) => Ok(String::from_str(alloc, "none")?),
        Err(fault) => Ok(fault_text(alloc, fault)?),
    }
}
