//! `bootctl kernel-identify`.
ghost use Rattle.std.specs.Prelude.{◌≡◌, IfOk, IsTrue, List, Ok, ℕ};
ghost use Rattle.boot_machine.specs.Prelude.{Looks, TakesAtMost, seen};
ghost use Rattle.pe_reader.specs.Prelude.{pe_of, head_limit, headers_of};
ghost use Rattle.command_plans.specs.Prelude.{CountsRunError, CountsReadError, DeclinesWords, Plans, RefusesWords, Says, answer_of_read, path_in};
ghost use Rattle.command_plans.specs.declared.plan.Change.TheVariants.{Nothing};
ghost use Rattle.image_commands.specs.Said.{has_loaded, identify_result, kind_at, kind_of};

use boot_base::BootPath;
use boot_machine::Machine;
use command_plans::{Plan, ReadError, RunError, path_in, readable_size, text_or_refusal};
use pe_reader::{HeadFault, Pe};
use std::alloc::Global;

// Whether the first section of that name has loaded bytes.
fn has_loaded(head: &Pe, name: &[u8]) -> bool
    ensures { (bytes : List ℕ) → pe_of bytes ≡ Ok (headers_of head.now) → result ≡ has_loaded bytes name.now }
{
    match head.find(name) {
        None => false,
        Some(index) => {
            let range = head.loaded_range(index);
            range.length + range.zeros != 0
        }
    }
}

// What a PE32+ file with these headers is told to be.
fn pe_kind(head: &Pe) -> &'static str
    ensures { (bytes : List ℕ) → pe_of bytes ≡ Ok (headers_of head.now) → result.now ≡ kind_of bytes (pe_of bytes) }
{
    if has_loaded(head, b".linux") && has_loaded(head, b".osrel") {
        return "uki\n";
    }
    "pe\n"
}

// What the file at a path is told to be.
fn kind<M: Machine>(
    alloc: Global,
    path: &BootPath,
    machine: &mut M,
) -> Result<&'static str, ReadError>
    ensures kind { IsTrue M.tells → Says (λ text. text.now) result (kind_at (seen (M.state machine.old)) path.now) }
    ensures looks { Looks M.tells M.time M.state M.counts (CountsReadError result) machine.old machine.new }
    ensures taken { IsTrue M.tells → TakesAtMost head_limit (M.taken machine.old) (M.taken machine.new) }
{
    let size = readable_size(alloc, path, machine)?;
    match Pe::read_head(alloc, machine, path, size) {
        Ok(head) => Ok(pe_kind(&head)),
        Err(HeadFault::NotPe { .. }) => Ok("unknown\n"),
        Err(HeadFault::Memory) => Err(ReadError::Memory),
        Err(HeadFault::Disk) => Err(ReadError::Disk),
    }
}

// What is told of the file that a word names.
fn identify_result<M: Machine>(
    alloc: Global,
    file: &str,
    machine: &mut M,
) -> Result<Vec<u8>, ReadError>
    ensures says { IsTrue M.tells → Says (λ text. text.items) result
        (identify_result (seen (M.state machine.old)) file.now) }
    ensures looks { Looks M.tells M.time M.state M.counts (CountsReadError result) machine.old machine.new }
    ensures words { DeclinesWords (path_in file.now) result }
    ensures taken { IsTrue M.tells → TakesAtMost head_limit (M.taken machine.old) (M.taken machine.new) }
{
    let path = path_in(alloc, file)?;
    let kind = kind(alloc, &path, machine)?;
    Ok(Vec::from_slice(alloc, kind.as_bytes())?)
}

/// What is going to be told of a file: `uki` of a unified kernel image, `pe` of any other PE32+ file, and
/// `unknown` of the rest. Its headers alone are read, which are at most 69,463 bytes.
pub fn plan_identify<M: Machine>(
    alloc: Global,
    file: &str,
    machine: &mut M,
) -> Result<Plan, RunError>
    ensures plans { IfOk result (λ plan. IsTrue M.tells → Plans (M.state machine.old) plan
        (answer_of_read (seen (M.state machine.old)) (identify_result (seen (M.state machine.old)) file.now))) }
    ensures idle { IfOk result (λ plan. plan.change ≡ Nothing) }
    ensures looks { Looks M.tells M.time M.state M.counts (CountsRunError result) machine.old machine.new }
    ensures words { RefusesWords (path_in file.now) result }
    ensures taken { IsTrue M.tells → TakesAtMost head_limit (M.taken machine.old) (M.taken machine.new) }
{
    let text = identify_result(alloc, file, machine);
    text_or_refusal(alloc, text)
}
