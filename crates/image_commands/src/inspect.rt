//! `ukify inspect`: the sections of an image.
ghost use Rattle.std.specs.Prelude.{◌≡◌, ◌≤◌, ◌+◌, All, IfOk, IsTrue, Ok, drop, length, map, sum_by};
ghost use Rattle.boot_machine.specs.Prelude.{Looks, TakesAtMost, contents, seen};
ghost use Rattle.pcr_values.specs.Prelude.{bank_of};
ghost use Rattle.pcr_values.specs.declared.bank.Bank.TheVariants as banks;
ghost use Rattle.pe_reader.specs.Prelude.{pe_of, range_of, head_limit, headers_of};
ghost use Rattle.list_json.specs.Sections.{facts_of};
ghost use Rattle.command_plans.specs.Prelude.{CountsRunError, CountsReadError, DeclinesWords, Plans, RefusesWords, Says, answer_of_read, bytes_at, path_in};
ghost use Rattle.command_plans.specs.declared.plan.Change.TheVariants.{Nothing};
ghost use Rattle.image_commands.specs.Said.{inspect_result, inspection_at, section_facts};
ghost use Rattle.stub_replay.specs.Measured.{raw_length};
ghost use Rattle.image_commands.specs.Taking.{all_raw_length, found_bytes, named_content};

use crate::told::told_sections;
use boot_base::{BootPath, Buffer, Bytes, PIECE_SIZE, short_name};
use boot_machine::Machine;
use command_plans::{Plan, ReadError, RunError, image_head, path_in, push, text_or_refusal};
use list_json::Inspected;
use pcr_values::Bank;
use pe_reader::{Pe, Section};
use std::alloc::Global;
use stub_replay::range_digest;

// What an inspection tells of a section.
fn inspected_section<M: Machine>(
    alloc: Global,
    section: &Section,
    path: &BootPath,
    buffer: &mut Buffer,
    machine: &mut M,
) -> Result<Inspected, ReadError>
    ensures sha256 { IfOk result (λ found. bank_of found.digest ≡ banks.Sha256) }
    ensures says { IsTrue M.tells
        → (range_of section.now).length
        ≤ length (drop (range_of section.now).place (contents (M.state machine.old).files path.now))
        → Says facts_of result (Ok (section_facts (contents (M.state machine.old).files path.now) section.now)) }
    ensures looks { Looks M.tells M.time M.state M.counts (CountsReadError result) machine.old machine.new }
    ensures taken { IsTrue M.tells → TakesAtMost (raw_length section.now) (M.taken machine.old) (M.taken machine.new) }
{
    let range = section.loaded_range();
    let digest = range_digest(Bank::Sha256, machine, path, range, buffer)?;
    let name = Bytes::of(alloc, short_name(&section.name))?;
    Ok(Inspected {
        name,
        size: range.length + range.zeros,
        digest,
    })
}

// What an inspection tells of all sections, in the table's order.
fn inspected_sections<M: Machine>(
    alloc: Global,
    path: &BootPath,
    head: &Pe,
    buffer: &mut Buffer,
    machine: &mut M,
) -> Result<Vec<Inspected>, ReadError>
    requires head { IsTrue M.tells → pe_of (contents (M.state machine.old).files path.now) ≡ Ok (headers_of head.now) }
    ensures sha256 { IfOk result (λ found. All (λ section. bank_of section.digest ≡ banks.Sha256) found.items) }
    ensures says { IsTrue M.tells → Says (λ found. map facts_of found.items) result
        (Ok (map (section_facts (contents (M.state machine.old).files path.now)) (headers_of head.now).sections)) }
    ensures looks { Looks M.tells M.time M.state M.counts (CountsReadError result) machine.old machine.new }
    ensures taken { IsTrue M.tells
        → TakesAtMost (sum_by raw_length (headers_of head.now).sections) (M.taken machine.old) (M.taken machine.new) }
{
    let mut found = Vec::new(alloc);
    for section in head.sections() {
        let section = inspected_section(alloc, section, path, buffer, machine)?;
        push(&mut found, section)?;
    }
    Ok(found)
}

// The sections of the image at a path, in lines or as JSON.
fn inspection<M: Machine>(
    alloc: Global,
    path: &BootPath,
    json: bool,
    machine: &mut M,
) -> Result<Vec<u8>, ReadError>
    ensures says { IsTrue M.tells → Says (λ text. text.items) result
        (inspection_at (seen (M.state machine.old)) json path.now) }
    ensures looks { Looks M.tells M.time M.state M.counts (CountsReadError result) machine.old machine.new }
    ensures taken { IsTrue M.tells → TakesAtMost
        (head_limit + all_raw_length (pe_of (found_bytes (bytes_at (seen (M.state machine.old)) path.now))))
        (M.taken machine.old) (M.taken machine.new) }
{
    let head = image_head(alloc, path, machine)?;
    let mut buffer = [0; PIECE_SIZE];
    let found = inspected_sections(alloc, path, &head, &mut buffer, machine)?;
    Ok(told_sections(alloc, path, &found, json)?)
}

// The sections of the image that a word names, in lines or as JSON.
fn inspect_result<M: Machine>(
    alloc: Global,
    file: &str,
    json: bool,
    machine: &mut M,
) -> Result<Vec<u8>, ReadError>
    ensures says { IsTrue M.tells → Says (λ text. text.items) result
        (inspect_result (seen (M.state machine.old)) file.now json) }
    ensures looks { Looks M.tells M.time M.state M.counts (CountsReadError result) machine.old machine.new }
    ensures words { DeclinesWords (path_in file.now) result }
    ensures taken { IsTrue M.tells → TakesAtMost
        (head_limit + all_raw_length (pe_of (named_content (seen (M.state machine.old)) file.now)))
        (M.taken machine.old) (M.taken machine.new) }
{
    let path = path_in(alloc, file)?;
    inspection(alloc, &path, json, machine)
}

/// What is going to be said of an image: how many sections it has, and of each its name, and the number and
/// the SHA-256 digest of its loaded bytes. With the flag it is the JSON of these, one line. The headers are read, and
/// each section's raw data once.
pub fn plan_inspect<M: Machine>(
    alloc: Global,
    file: &str,
    json: bool,
    machine: &mut M,
) -> Result<Plan, RunError>
    ensures plans { IfOk result (λ plan. IsTrue M.tells → Plans (M.state machine.old) plan
        (answer_of_read (seen (M.state machine.old)) (inspect_result (seen (M.state machine.old)) file.now json))) }
    ensures idle { IfOk result (λ plan. plan.change ≡ Nothing) }
    ensures looks { Looks M.tells M.time M.state M.counts (CountsRunError result) machine.old machine.new }
    ensures words { RefusesWords (path_in file.now) result }
    ensures taken { IsTrue M.tells → TakesAtMost
        (head_limit + all_raw_length (pe_of (named_content (seen (M.state machine.old)) file.now)))
        (M.taken machine.old) (M.taken machine.new) }
{
    let text = inspect_result(alloc, file, json, machine);
    text_or_refusal(alloc, text)
}
