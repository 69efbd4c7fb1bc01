//! What a build reads of the machine, before the image is planned.
ghost use Rattle.std.specs.Prelude.{◌≡◌, ◌≤◌, ◌<◌, ◌+◌, ◌-◌, ◌^◌, ◌++◌, ◌∷◌, [], All, IfOk, IsTrue, List, Ok, OnOk, drop, length, map, min, sum_by, ℕ};
ghost use Rattle.std.specs.List.{AllZip};
ghost use Rattle.boot_machine.specs.Prelude.{Looks, TakesAtMost, contents, seen};
ghost use Rattle.pe_builder.specs.Replaced.{sbat_name};
ghost use Rattle.pe_reader.specs.Prelude.{pe_of, part, head_limit, loaded_bytes, headers_of};
ghost use Rattle.uki_parts.specs.Pieces.{HasSizes, Reading, bytes_of, piece_bytes, piece_length, total_length};
ghost use Rattle.uki_parts.specs.Sbat.{sbat_entries};
ghost use Rattle.image_build.specs.Building.{contents_of, given_sbat, material_of, named_as, part_bytes, part_named, sbat_of, source_bytes};
ghost use Rattle.boot_base.specs.Limits.{file_limit};
ghost use Rattle.command_plans.specs.Prelude.{CountsReadError, Says, bytes_at, each};
ghost use Rattle.image_build.specs.Reads.{BuiltFrom, BuiltHasSizes, FilesFrom, FilesHaveSizes, IsKernel, PartFrom, PartHasSizes, contents_as, loaded_sbat_length, material_as, part_as, reading_length, source_file_length, source_limit};

use crate::source::{BuildSources, PartSources, Source};
use boot_base::BootPath;
use boot_machine::Machine;
use command_plans::{ReadError, file_bytes, file_part, head_of_size, readable_size, sized_head};
use pe_reader::{HeadFault, LoadedRange, Pe};
use std::alloc::{AllocError, Global};
use uki_parts::{
    Part, PartKind, Piece, SectionName, join_initrds, joined_bytes_of_initrds, merge_sbat,
    pieces_length,
};

/// What an image is built of.
#[derive(Debug, Drop)]
pub struct BuildParts {
    /// The path of the stub.
    pub stub: BootPath,
    /// How many bytes the stub has.
    pub stub_length: u64,
    /// What the stub reads as.
    pub head: Pe,
    /// The kernel.
    pub linux: Part,
    /// The other parts but for the SBAT text, in append order.
    pub parts: Vec<Part>,
    /// The image's SBAT text.
    pub sbat: Vec<u8>,
    /// Where the image is to stand.
    pub output: BootPath,
}

// The files that a build reads, with their sizes, and the text of `--sbat`.
#[derive(Drop)]
struct BuildFiles {
    stub: BootPath,
    stub_length: u64,
    linux: BootPath,
    linux_length: u64,
    parts: Vec<Part>,
    sbat: Vec<u8>,
    output: BootPath,
}

// The piece that a source gives, or its refusal.
fn source_piece<M: Machine>(
    alloc: Global,
    source: Source,
    machine: &mut M,
) -> Result<Piece, ReadError>
    ensures says { IsTrue M.tells → Says (piece_bytes (contents (seen (M.state machine.old)))) result
        (source_bytes (seen (M.state machine.old)) source) }
    ensures size { IfOk result (λ piece. IsTrue M.tells
        → length (piece_bytes (contents (seen (M.state machine.old))) piece) ≡ piece_length piece) }
    ensures limit { IfOk result (λ piece. piece_length piece ≤ source_limit source) }
    ensures looks { Looks M.tells M.time M.state M.counts (CountsReadError result) machine.old machine.new }
    ensures taken { IsTrue M.tells → TakesAtMost 0 (M.taken machine.old) (M.taken machine.new) }
{
    match source {
        Source::Said(bytes) => Ok(Piece::Bytes(bytes)),
        Source::At(path) => {
            let size = readable_size(alloc, &path, machine)?;
            Ok(Piece::File { path, size })
        }
    }
}

// The pieces that sources give, one behind the other, or the first refusal.
fn source_pieces<M: Machine>(
    alloc: Global,
    sources: Vec<Source>,
    machine: &mut M,
) -> Result<Vec<Piece>, ReadError>
    ensures says { IsTrue M.tells
        → Says (λ pieces. map (piece_bytes (contents (seen (M.state machine.old)))) pieces.items) result
        (each (source_bytes (seen (M.state machine.old))) sources.items) }
    ensures sizes { IfOk result (λ pieces. IsTrue M.tells
        → HasSizes (contents (seen (M.state machine.old))) pieces.items) }
    ensures limit { IfOk result (λ pieces. total_length pieces.items ≤ sum_by source_limit sources.items) }
    ensures count { IfOk result (λ pieces. length pieces.items ≡ length sources.items) }
    ensures looks { Looks M.tells M.time M.state M.counts (CountsReadError result) machine.old machine.new }
    ensures taken { IsTrue M.tells → TakesAtMost 0 (M.taken machine.old) (M.taken machine.new) }
{
    let mut pieces = Vec::new(alloc);
    for source in sources {
        let piece = source_piece(alloc, source, machine)?;
        pieces.push(piece)?;
    }
    Ok(pieces)
}

// The part that these sources give, or the first refusal of one.
fn part_of_sources<M: Machine>(
    alloc: Global,
    sources: PartSources,
    machine: &mut M,
) -> Result<Part, ReadError>
    ensures says { IsTrue M.tells → Says (part_as (contents (seen (M.state machine.old)))) result
        (part_bytes (seen (M.state machine.old)) (part_named sources)) }
    ensures sizes { IfOk result (λ part. IsTrue M.tells → PartHasSizes (contents (seen (M.state machine.old))) part) }
    ensures from { IfOk result (PartFrom sources) }
    ensures looks { Looks M.tells M.time M.state M.counts (CountsReadError result) machine.old machine.new }
    ensures taken { IsTrue M.tells → TakesAtMost 0 (M.taken machine.old) (M.taken machine.new) }
{
    let PartSources {
        kind,
        name,
        sources,
    } = sources;
    let initrds = source_pieces(alloc, sources, machine)?;
    let pieces = join_initrds(alloc, initrds)?;
    joined_bytes_of_initrds();
    let length = pieces_length(&pieces);
    Ok(Part {
        kind,
        name,
        pieces,
        length,
    })
}

// The parts that these sources give, in order, or the first refusal of one.
fn parts_of_sources<M: Machine>(
    alloc: Global,
    sources: Vec<PartSources>,
    machine: &mut M,
) -> Result<Vec<Part>, ReadError>
    ensures says { IsTrue M.tells
        → Says (λ parts. map (part_as (contents (seen (M.state machine.old)))) parts.items) result
        (each (part_bytes (seen (M.state machine.old))) (map part_named sources.items)) }
    ensures sizes { IfOk result (λ parts. IsTrue M.tells
        → All (PartHasSizes (contents (seen (M.state machine.old)))) parts.items) }
    ensures from { IfOk result (λ parts. AllZip PartFrom sources.items parts.items) }
    ensures looks { Looks M.tells M.time M.state M.counts (CountsReadError result) machine.old machine.new }
    ensures taken { IsTrue M.tells → TakesAtMost 0 (M.taken machine.old) (M.taken machine.new) }
{
    let mut parts = Vec::new(alloc);
    for source in sources {
        let part = part_of_sources(alloc, source, machine)?;
        parts.push(part)?;
    }
    Ok(parts)
}

// The bytes of a file that a range has, without the zeros behind them.
fn raw_bytes<M: Machine>(
    alloc: Global,
    path: &BootPath,
    range: LoadedRange,
    machine: &mut M,
) -> Result<Vec<u8>, ReadError>
    requires place { range.place < 2 ^ 32 }
    requires size { range.length < 2 ^ 32 }
    ensures says { IsTrue M.tells → range.length
        ≤ length (drop range.place (contents (seen (M.state machine.old)) path.now))
        → Says (λ content. content.items) result
        (Ok (part (contents (seen (M.state machine.old)) path.now) range.place range.length)) }
    ensures looks { Looks M.tells M.time M.state M.counts (CountsReadError result) machine.old machine.new }
    ensures taken { IsTrue M.tells → TakesAtMost range.length (M.taken machine.old) (M.taken machine.new) }
{
    file_part(alloc, path, range.place, range.length, machine)
}

// Bytes with the entries of the `.sbat` that the file at a path has loaded, by what it reads as. Entries stand before the
// first NUL, so these bytes are the raw data alone, however many zeros are loaded behind them.
fn loaded_sbat<M: Machine>(
    alloc: Global,
    path: &BootPath,
    head: &Pe,
    machine: &mut M,
) -> Result<Vec<u8>, ReadError>
    requires { IsTrue M.tells → pe_of (contents (seen (M.state machine.old)) path.now) ≡ Ok (headers_of head.now) }
    ensures says { IsTrue M.tells → Says (λ content. sbat_entries content.items) result
        (Ok (sbat_entries (loaded_bytes (contents (seen (M.state machine.old)) path.now) sbat_name))) }
    ensures looks { Looks M.tells M.time M.state M.counts (CountsReadError result) machine.old machine.new }
    ensures taken { IsTrue M.tells → TakesAtMost
        (loaded_sbat_length (contents (seen (M.state machine.old))) path.now)
        (M.taken machine.old) (M.taken machine.new) }
{
    match head.find(b".sbat") {
        None => Ok(Vec::new(alloc)),
        Some(index) => raw_bytes(alloc, path, head.loaded_range(index), machine),
    }
}

// Bytes with the entries of the `.sbat` that a kernel of that size has loaded. There are none if it is no PE32+ file.
fn kernel_sbat<M: Machine>(
    alloc: Global,
    path: &BootPath,
    size: u64,
    machine: &mut M,
) -> Result<Vec<u8>, ReadError>
    requires small { size ≤ file_limit }
    requires size { IsTrue M.tells → size ≡ length (contents (seen (M.state machine.old)) path.now) }
    ensures says { IsTrue M.tells → Says (λ content. sbat_entries content.items) result
        (Ok (sbat_entries (loaded_bytes (contents (seen (M.state machine.old)) path.now) sbat_name))) }
    ensures looks { Looks M.tells M.time M.state M.counts (CountsReadError result) machine.old machine.new }
    ensures taken { IsTrue M.tells → TakesAtMost
        (head_limit + loaded_sbat_length (contents (seen (M.state machine.old))) path.now)
        (M.taken machine.old) (M.taken machine.new) }
{
    match head_of_size(alloc, path, size, machine) {
        Ok(head) => loaded_sbat(alloc, path, &head, machine),
        Err(HeadFault::NotPe { .. }) => Ok(Vec::new(alloc)),
        Err(HeadFault::Memory) => Err(ReadError::Memory),
        Err(HeadFault::Disk) => Err(ReadError::Disk),
    }
}

// The text of `--sbat`, which is empty where it isn't given.
fn given_sbat<M: Machine>(
    alloc: Global,
    source: Option<Source>,
    machine: &mut M,
) -> Result<Vec<u8>, ReadError>
    ensures says { IsTrue M.tells → Says (λ text. text.items) result (given_sbat (seen (M.state machine.old)) source) }
    ensures looks { Looks M.tells M.time M.state M.counts (CountsReadError result) machine.old machine.new }
    ensures taken { IsTrue M.tells → TakesAtMost
        (source_file_length (contents (seen (M.state machine.old))) source)
        (M.taken machine.old) (M.taken machine.new) }
{
    match source {
        None => Ok(Vec::new(alloc)),
        Some(Source::Said(text)) => Ok(text.into_vec()),
        Some(Source::At(path)) => file_bytes(alloc, &path, machine),
    }
}

// The files that the words of a build name, or the first refusal of one.
fn build_files<M: Machine>(
    alloc: Global,
    sources: BuildSources,
    machine: &mut M,
) -> Result<BuildFiles, ReadError>
    ensures says { IsTrue M.tells → Says (contents_as (contents (seen (M.state machine.old)))) result
        (contents_of (seen (M.state machine.old)) (named_as sources)) }
    ensures sizes { IfOk result (λ found. IsTrue M.tells
        → FilesHaveSizes (contents (seen (M.state machine.old))) found) }
    ensures from { IfOk result (FilesFrom sources) }
    ensures looks { Looks M.tells M.time M.state M.counts (CountsReadError result) machine.old machine.new }
    ensures taken { IsTrue M.tells → TakesAtMost
        (source_file_length (contents (seen (M.state machine.old))) sources.sbat)
        (M.taken machine.old) (M.taken machine.new) }
{
    let BuildSources {
        stub,
        linux,
        parts,
        sbat,
        output,
    } = sources;
    let stub_length = readable_size(alloc, &stub, machine)?;
    let linux_length = readable_size(alloc, &linux, machine)?;
    let parts = parts_of_sources(alloc, parts, machine)?;
    let sbat = given_sbat(alloc, sbat, machine)?;
    Ok(BuildFiles {
        stub,
        stub_length,
        linux,
        linux_length,
        parts,
        sbat,
        output,
    })
}

// The SBAT text of the image: the entries of the stub, of the kernel and of the given text.
fn image_sbat<M: Machine>(
    alloc: Global,
    found: &BuildFiles,
    head: &Pe,
    machine: &mut M,
) -> Result<Vec<u8>, ReadError>
    requires small { found.now.linux_length ≤ file_limit }
    requires size { IsTrue M.tells → found.now.linux_length
        ≡ length (contents (seen (M.state machine.old)) found.now.linux) }
    requires head { IsTrue M.tells → pe_of (contents (seen (M.state machine.old)) found.now.stub)
        ≡ Ok (headers_of head.now) }
    ensures says { IsTrue M.tells → Says (λ text. text.items) result
        (Ok (sbat_of (contents_as (contents (seen (M.state machine.old))) found.now))) }
    ensures looks { Looks M.tells M.time M.state M.counts (CountsReadError result) machine.old machine.new }
    ensures taken { IsTrue M.tells → TakesAtMost
        (loaded_sbat_length (contents (seen (M.state machine.old))) found.now.stub
        + (head_limit + loaded_sbat_length (contents (seen (M.state machine.old))) found.now.linux))
        (M.taken machine.old) (M.taken machine.new) }
{
    let stub = loaded_sbat(alloc, &found.stub, head, machine)?;
    let kernel = kernel_sbat(alloc, &found.linux, found.linux_length, machine)?;
    Ok(merge_sbat(alloc, &stub, &kernel, &found.sbat)?)
}

// The kernel of that size as a part.
fn kernel_part(alloc: Global, path: BootPath, size: u64) -> Result<Part, AllocError>
    requires { size ≤ file_limit }
    ensures kernel { IfOk result IsKernel }
    ensures bytes { IfOk result (λ part. (files : Reading) → bytes_of files part.pieces.items ≡ files path) }
    ensures sizes { IfOk result (λ part. (files : Reading) → length (files path) ≡ size → PartHasSizes files part) }
{
    let name = SectionName::of(PartKind::Linux).unwrap();
    let mut pieces = Vec::new(alloc);
    pieces.push(Piece::File { path, size })?;
    Ok(Part {
        kind: PartKind::Linux,
        name,
        pieces,
        length: size,
    })
}

/// What an image is built of, by what the words of a build name: each file is found, and then the stub's headers and
/// the SBAT texts are read, no byte of them twice. Of the files of the other parts only the sizes are asked for.
///
/// # Errors
///
/// The refusals in this order: of the stub, the kernel, the files of the parts and that of the SBAT text each that it
/// isn't there or is too large, and then that the stub is no PE32+ file.
pub fn read_build<M: Machine>(
    alloc: Global,
    sources: BuildSources,
    machine: &mut M,
) -> Result<BuildParts, ReadError>
    ensures says { IsTrue M.tells → Says (material_as (contents (seen (M.state machine.old)))) result
        (material_of (seen (M.state machine.old)) (named_as sources)) }
    ensures sizes { IfOk result (λ built. IsTrue M.tells
        → BuiltHasSizes (contents (seen (M.state machine.old))) built) }
    ensures from { IfOk result (BuiltFrom sources) }
    ensures looks { Looks M.tells M.time M.state M.counts (CountsReadError result) machine.old machine.new }
    ensures taken { IsTrue M.tells → TakesAtMost
        (reading_length (contents (seen (M.state machine.old))) (named_as sources))
        (M.taken machine.old) (M.taken machine.new) }
{
    let found = build_files(alloc, sources, machine)?;
    let head = sized_head(alloc, &found.stub, found.stub_length, machine)?;
    let sbat = image_sbat(alloc, &found, &head, machine)?;
    let linux = kernel_part(alloc, found.linux, found.linux_length)?;
    Ok(BuildParts {
        stub: found.stub,
        stub_length: found.stub_length,
        head,
        linux,
        parts: found.parts,
        sbat,
        output: found.output,
    })
}
