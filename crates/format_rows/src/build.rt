//! Images that are built in memory.
ghost use Rattle.std.specs.Prelude.{◌≡◌, ◌≤◌, ◌^◌, length, map, sum_by, IfOk};
ghost use Rattle.std.specs.List.{AllByRecursion};
ghost use Rattle.pe_builder.specs.Layout.{FitsPart};

use crate::case::Case;
use crate::fault::RowFault;
use crate::refusal::{fault_text, in_place, part_name, part_size};
use crate::words::{bytes_of, split_at_mark};
use pe_builder::{ImageLayout, PartSize, image_bytes};
use pe_reader::Pe;
use std::alloc::Global;
use uki_parts::SectionName;

/// More parts than a row has.
const PART_LIMIT: usize = 16;

/// The names of parts, and their bytes.
#[derive(Drop)]
struct Parts {
    names: Vec<SectionName>,
    contents: Vec<Vec<u8>>,
}

// The part of a word that is a name and bytes.
fn part_of(alloc: Global, word: &str) -> Result<(SectionName, Vec<u8>), RowFault> {
    let (name, bytes) = split_at_mark(word, '=')?;
    Ok((part_name(name)?, bytes_of(alloc, bytes)?))
}

fn parts_of(alloc: Global, rest: &str) -> Result<Parts, RowFault> {
    let mut names = Vec::new(alloc);
    let mut contents = Vec::new(alloc);
    for word in rest.split_whitespace() {
        let (name, bytes) = part_of(alloc, word)?;
        names.push(name)?;
        contents.push(bytes)?;
    }
    Ok(Parts { names, contents })
}

// The sizes of contents with these names.
fn sizes_of(
    alloc: Global,
    names: &[SectionName],
    contents: &[Vec<u8>],
) -> Result<Vec<PartSize>, RowFault>
    requires { length contents.now ≤ 16 }
    ensures exact { IfOk result (λ sizes. map length (map (λ c. c.items) contents.now)
        ≡ map (λ p. p.length) sizes.items) }
    ensures total { IfOk result (λ sizes. sum_by (λ p. p.length) sizes.items ≤ 2 ^ 62) }
    ensures fit { IfOk result (λ sizes. AllByRecursion FitsPart sizes.items) }
{
    let mut sizes = Vec::new(alloc);
    for i in 0..contents.len() {
        let name = names.get(i).copied().ok_or(RowFault::Unclear)?;
        sizes.push(part_size(name, contents[i].len() as u64)?)?;
    }
    Ok(sizes)
}

// An image, and how long it is by its plan.
#[derive(Drop)]
struct PlannedImage {
    planned: u64,
    image: Vec<u8>,
}

// The image of the file and these parts.
fn image_of(alloc: Global, case: &Case, parts: &Parts) -> Result<PlannedImage, RowFault> {
    if parts.contents.len() > PART_LIMIT {
        return Err(RowFault::Unclear);
    }
    let sizes = sizes_of(alloc, &parts.names, &parts.contents)?;
    let stub = case.file();
    let pe = Pe::read(alloc, stub)?;
    let sbat = in_place(&pe, &case.sbat);
    let plan = ImageLayout::make(alloc, &pe, stub.len() as u32, &sizes, sbat)?;
    let image = image_bytes(alloc, &plan, stub, &parts.contents, &case.sbat)?;
    let planned = plan.image_length();
    Ok(PlannedImage { planned, image })
}

// Makes an image the file, and says how long it is by its plan and by its bytes.
fn take_image(alloc: Global, case: &mut Case, planned: PlannedImage) -> Result<String, RowFault> {
    let PlannedImage { planned, image } = planned;
    let made = image.len();
    case.set_file(image)?;
    Ok(format!(in alloc; "{planned} bytes are planned, {made} are made")?)
}

/// Makes the image of the file and these parts the file, and says how long it is by its plan and by its bytes; or says
/// why there is none.
pub(crate) fn build(alloc: Global, case: &mut Case, rest: &str) -> Result<String, RowFault> {
    let parts = parts_of(alloc, rest)?;
    match image_of(alloc, case, &parts) {
        Ok(planned) => take_image(alloc, case, planned),
        Err(RowFault::Layout(fault)) => Ok(fault_text(alloc, fault)?),
        Err(fault) => Err(fault),
    }
}
