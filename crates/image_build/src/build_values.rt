//! PCR 11 of a planned image, by what its sections are going to hold (systemd's TPM2 PCR document, PCR 11).
ghost use Rattle.std.specs.Prelude.{◌≡◌, ◌≤◌, All, IfOk, IfSome, IsTrue, Ok, bytes_eq, map, find, option_copied};
ghost use Rattle.boot_machine.specs.Prelude.{Files, Looks, TakesAtMost, contents, seen};
ghost use Rattle.pcr_values.specs.Prelude.{value_lines, default_phase_paths, all_banks, fold_pcr, pcr_bank, pcr_value};
ghost use Rattle.image_writer.specs.Sourced.{planned_image};
ghost use Rattle.stub_replay.specs.Parts.{HaveSizes, IsPlaced, files_length, items_of, named_bytes};
ghost use Rattle.pe_reader.specs.Prelude.{pe_of, loaded_bytes, headers_of};
ghost use Rattle.stub_replay.specs.Measured.{measured_length, measured_list, stub_pcr};
ghost use Rattle.uki_parts.specs.Names.{name_bytes};
ghost use Rattle.uki_parts.specs.Pieces.{Reading};
ghost use Rattle.command_plans.specs.Prelude.{CountsReadError, Says};
ghost use Rattle.image_build.specs.Planning.{IsContent, IsPlannedOn, kept_bytes, section_bytes};

use crate::planned::PlannedBuild;
use boot_base::{BootPath, PIECE_SIZE};
use boot_machine::Machine;
use command_plans::{ReadError, banks_of, paths_of};
use pcr_values::{Bank, Pcr, result_lines};
use pe_reader::Pe;
use std::alloc::{AllocError, Global};
use stub_replay::{Content, Measurable, measured_names, predict, push_part};
use uki_parts::Part;

// The first part of that name.
fn part_named<'a>(parts: &'a [Part], name: &[u8]) -> Option<&'a Part>
    ensures { option_copied result ≡ find (λ part. bytes_eq (name_bytes part.name) name.now) parts.now }
{
    parts.iter().find(|part| part.name.bytes() == name)
}

// What the stub at a path has loaded of that name, by what it reads as.
fn stub_content<'a>(head: &Pe, stub: &'a BootPath, name: &[u8]) -> Option<Content<'a>>
    ensures holds { (files : Reading) → pe_of (files stub.now) ≡ Ok (headers_of head.now)
        → IsContent files result (loaded_bytes (files stub.now) name.now) }
    ensures placed { IfSome result IsPlaced }
{
    let index = head.find(name)?;
    let range = head.loaded_range(index);
    Some(Content::Loaded { path: stub, range })
}

// What the section of that name holds where no part has the name: the new `.sbat`, or what the stub has.
fn kept_content<'a>(plan: &'a PlannedBuild, name: &[u8]) -> Option<Content<'a>>
    ensures holds { (view : Files) (on : IsPlannedOn view plan.now)
        → IsContent (contents view) result (kept_bytes view plan.now on.own.in_place name.now) }
    ensures placed { IfSome result IsPlaced }
{
    let sources = &plan.image.sources;
    if b".sbat".as_slice() == name && plan.image.plan.sbat_place().is_some() {
        return Some(Content::Bytes(sources.sbat()));
    }
    stub_content(&plan.head, sources.stub(), name)
}

// What the section of that name is going to hold.
fn section_content<'a>(plan: &'a PlannedBuild, name: &[u8]) -> Option<Content<'a>>
    ensures holds { (view : Files) (on : IsPlannedOn view plan.now)
        → IsContent (contents view) result (section_bytes view plan.now on.own.in_place name.now) }
    ensures placed { IfSome result IsPlaced }
{
    match part_named(plan.image.sources.parts(), name) {
        Some(part) => Some(Content::Pieces(&part.pieces)),
        None => kept_content(plan, name),
    }
}

// The measured sections of the image, in the order in which they are measured.
fn measured_parts<'a>(
    alloc: Global,
    plan: &'a PlannedBuild,
) -> Result<Vec<Measurable<'a>>, AllocError>
    ensures items { IfOk result (λ parts. (view : Files) → IsPlannedOn view plan.now
        → items_of (map (named_bytes (contents view)) parts.items)
        ≡ measured_list (planned_image plan.now.image.plan plan.now.image.sources view)) }
    ensures whole { IfOk result (λ parts. (view : Files) → IsPlannedOn view plan.now
        → HaveSizes (contents view) parts.items) }
    ensures placed { IfOk result (λ parts. All (λ part. IsPlaced part.content) parts.items) }
    ensures short { IfOk result (λ parts. (view : Files) → IsPlannedOn view plan.now
        → files_length parts.items ≤ measured_length (planned_image plan.now.image.plan plan.now.image.sources view)) }
{
    let mut parts = Vec::new(alloc);
    for name in measured_names() {
        push_part(&mut parts, name, section_content(plan, name))?;
    }
    Ok(parts)
}

// The register of each bank after the image's stub has measured it.
fn registers<M: Machine>(
    alloc: Global,
    plan: &PlannedBuild,
    banks: &[Bank],
    machine: &mut M,
) -> Result<Vec<Pcr>, ReadError>
    ensures banks { IfOk result (λ registers. map pcr_bank registers.items ≡ banks.now) }
    ensures says { IsTrue M.tells → IsPlannedOn (seen (M.state machine.old)) plan.now
        → Says (λ registers. map pcr_value registers.items) result
        (Ok (map (fold_pcr
        (measured_list (planned_image plan.now.image.plan plan.now.image.sources (seen (M.state machine.old)))))
        banks.now)) }
    ensures looks { Looks M.tells M.time M.state M.counts (CountsReadError result) machine.old machine.new }
    ensures taken { IsTrue M.tells → IsPlannedOn (seen (M.state machine.old)) plan.now → TakesAtMost
        (measured_length (planned_image plan.now.image.plan plan.now.image.sources (seen (M.state machine.old))))
        (M.taken machine.old) (M.taken machine.new) }
{
    let mut buffer = [0; PIECE_SIZE];
    let parts = measured_parts(alloc, plan)?;
    Ok(predict(alloc, machine, &parts, banks, &mut buffer)?)
}

/// The lines of what a stub comes to that measures the planned image, in all banks and after the usual phase paths.
/// Each file is read once.
pub(crate) fn planned_values<M: Machine>(
    alloc: Global,
    plan: &PlannedBuild,
    machine: &mut M,
) -> Result<Vec<u8>, ReadError>
    ensures says { IsTrue M.tells → IsPlannedOn (seen (M.state machine.old)) plan.now → Says (λ text. text.items) result
        (Ok (value_lines
        (stub_pcr (planned_image plan.now.image.plan plan.now.image.sources (seen (M.state machine.old))))
        all_banks default_phase_paths)) }
    ensures looks { Looks M.tells M.time M.state M.counts (CountsReadError result) machine.old machine.new }
    ensures taken { IsTrue M.tells → IsPlannedOn (seen (M.state machine.old)) plan.now → TakesAtMost
        (measured_length (planned_image plan.now.image.plan plan.now.image.sources (seen (M.state machine.old))))
        (M.taken machine.old) (M.taken machine.new) }
{
    let banks = banks_of(alloc, &[])?;
    let paths = paths_of(alloc, &[])?;
    let registers = registers(alloc, plan, &banks, machine)?;
    Ok(result_lines(alloc, &registers, &paths)?)
}
