//! The headers of a machine's file, read in their four stages: each stage reads its own bytes, and no other.

ghost use Rattle.std.specs.Prelude.{◌≡◌, ◌+◌, ◌*◌, ◌≤◌, ◌<◌, [], length, IfOk, IsTrue};
ghost use Rattle.boot_base.specs.Limits.{file_limit};
ghost use Rattle.boot_machine.specs.Prelude.{Looks, TakesAtMost, contents};
ghost use Rattle.pe_reader.specs.Prelude.{part, head_of, pe_place_of, coff_of, optional_of, sections_of, FromBytes, GivesFrom, CountsHead, HeadFrom};
ghost use Rattle.pe_reader.specs.Grammar.{section_limit};

use crate::fault::HeadFault;
use crate::head::{Coff, Head, coff_header, optional_header, pe_place};
use crate::section::Section;
use crate::table::sections;
use boot_base::BootPath;
use boot_machine::{Machine, read_part, zeros};
use std::alloc::Global;

/// What the headers before the section table say.
#[tactic(auto, unfolding(crate::specs::Grammar::head_of))]
pub fn head_in<M: Machine>(
    alloc: Global,
    machine: &mut M,
    path: &BootPath,
    size: u64,
) -> Result<Head, HeadFault>
    requires small { size ≤ file_limit }
    ensures exact { IsTrue M.tells → size ≡ length (contents (M.state machine.old).files path.now)
        → GivesFrom (λ head. head) result (head_of (contents (M.state machine.old).files path.now)) }
    ensures read { IfOk result (λ head. HeadFrom head size) }
    ensures inside { IfOk result (λ head. head.table_place + 40 * head.section_count ≤ size) }
    ensures few { IfOk result (λ head. head.section_count ≤ section_limit) }
    ensures looks { Looks M.tells M.time M.state M.counts (CountsHead result) machine.old machine.new }
    ensures taken { IsTrue M.tells → TakesAtMost (64 + 24 + 65535) (M.taken machine.old) (M.taken machine.new) }
{
    let place = place_in(machine, path, size)?;
    let coff = coff_in(machine, path, size, place)?;
    optional_in(alloc, machine, path, size, place, coff)
}

// The place of the PE header.
fn place_in<M: Machine>(machine: &mut M, path: &BootPath, size: u64) -> Result<u32, HeadFault>
    ensures exact { IsTrue M.tells → size ≡ length (contents (M.state machine.old).files path.now)
        → GivesFrom (λ place. place) result (pe_place_of size
        (part (contents (M.state machine.old).files path.now) 0 64)) }
    ensures read { IfOk result (FromBytes 64 (pe_place_of size)) }
    ensures looks { Looks M.tells M.time M.state M.counts (CountsHead result) machine.old machine.new }
    ensures taken { IsTrue M.tells → TakesAtMost 64 (M.taken machine.old) (M.taken machine.new) }
{
    let mut front = [0; 64];
    read_part(machine, path.file(), 0, &mut front)?;
    Ok(pe_place(size, &front)?)
}

// The COFF header at that place.
fn coff_in<M: Machine>(
    machine: &mut M,
    path: &BootPath,
    size: u64,
    place: u32,
) -> Result<Coff, HeadFault>
    ensures exact { IsTrue M.tells → size ≡ length (contents (M.state machine.old).files path.now)
        → GivesFrom (λ coff. coff) result (coff_of size place
        (part (contents (M.state machine.old).files path.now) place 24)) }
    ensures read { IfOk result (FromBytes 24 (coff_of size place)) }
    ensures long { IfOk result (λ coff. 112 ≤ coff.optional_size) }
    ensures inside { IfOk result (λ coff. place + 24 + coff.optional_size ≤ size) }
    ensures few { IfOk result (λ coff. coff.section_count ≤ section_limit) }
    ensures looks { Looks M.tells M.time M.state M.counts (CountsHead result) machine.old machine.new }
    ensures taken { IsTrue M.tells → TakesAtMost 24 (M.taken machine.old) (M.taken machine.new) }
{
    let mut header = [0; 24];
    read_part(machine, path.file(), place as u64, &mut header)?;
    Ok(coff_header(size, place, &header)?)
}

// The optional header right behind the COFF header.
fn optional_in<M: Machine>(
    alloc: Global,
    machine: &mut M,
    path: &BootPath,
    size: u64,
    place: u32,
    coff: Coff,
) -> Result<Head, HeadFault>
    requires small { size ≤ file_limit }
    requires long { 112 ≤ coff.optional_size }
    requires inside { place + 24 + coff.optional_size ≤ size }
    ensures exact { IsTrue M.tells → size ≡ length (contents (M.state machine.old).files path.now)
        → GivesFrom (λ head. head) result (optional_of size place coff
        (part (contents (M.state machine.old).files path.now) (place + 24) coff.optional_size)) }
    ensures read { IfOk result (FromBytes coff.optional_size (optional_of size place coff)) }
    ensures inside { IfOk result (λ head. head.table_place + 40 * head.section_count ≤ size) }
    ensures count { IfOk result (λ head. head.section_count ≡ coff.section_count) }
    ensures looks { Looks M.tells M.time M.state M.counts (CountsHead result) machine.old machine.new }
    ensures taken { IsTrue M.tells → TakesAtMost coff.optional_size (M.taken machine.old) (M.taken machine.new) }
{
    let mut optional = zeros(alloc, coff.optional_size as usize)?;
    read_part(machine, path.file(), place as u64 + 24, &mut optional)?;
    Ok(optional_header(size, place, coff, &optional)?)
}

/// The sections of the table that the head tells of.
pub fn sections_in<M: Machine>(
    alloc: Global,
    machine: &mut M,
    path: &BootPath,
    size: u64,
    head: &Head,
) -> Result<Vec<Section>, HeadFault>
    requires small { size ≤ file_limit }
    requires inside { head.now.table_place + 40 * head.now.section_count ≤ size }
    ensures exact { IsTrue M.tells → size ≡ length (contents (M.state machine.old).files path.now)
        → GivesFrom (λ sections. sections.items) result
        (sections_of size head.now.header_size head.now.section_count head.now.table_place []
        (part (contents (M.state machine.old).files path.now) head.now.table_place (40 * head.now.section_count))) }
    ensures read { IfOk result (λ sections. FromBytes (40 * head.now.section_count)
        (sections_of size head.now.header_size head.now.section_count head.now.table_place []) sections.items) }
    ensures looks { Looks M.tells M.time M.state M.counts (CountsHead result) machine.old machine.new }
    ensures taken { IsTrue M.tells → TakesAtMost (40 * head.now.section_count) (M.taken machine.old)
        (M.taken machine.new) }
{
    let mut table = zeros(alloc, 40 * head.section_count as usize)?;
    read_part(machine, path.file(), head.table_place as u64, &mut table)?;
    Ok(sections(
        alloc,
        size,
        head.header_size,
        head.section_count,
        head.table_place,
        &table,
    )?)
}
