//! `measure image`: the value of PCR 11 that an image's stub comes to.
ghost use Rattle.std.specs.Prelude.{◌≡◌, ◌+◌, IfOk, IsTrue, Ok, map};
ghost use Rattle.boot_machine.specs.Prelude.{Looks, TakesAtMost, contents, seen};
ghost use Rattle.pcr_values.specs.Prelude.{fold_pcr, pcr_bank, pcr_value};
ghost use Rattle.pe_reader.specs.Prelude.{pe_of, head_limit, headers_of};
ghost use Rattle.stub_replay.specs.Measured.{measured_raw_length, measured_list};
ghost use Rattle.command_plans.specs.Prelude.{CountsRunError, CountsReadError, DeclinesWords, Plans, RefusesWords, Says, answer_of_read, bytes_at, path_in};
ghost use Rattle.command_plans.specs.declared.plan.Change.TheVariants.{Nothing};
ghost use Rattle.image_commands.specs.Said.{measure_result, values_at};
ghost use Rattle.image_commands.specs.Taking.{found_bytes, named_content};

use crate::told::told_values;
use boot_base::{BootPath, PIECE_SIZE, Text};
use boot_machine::Machine;
use command_plans::{
    Plan, ReadError, RunError, banks_of, image_head, path_in, paths_of, text_or_refusal,
};
use pcr_values::{Bank, Pcr};
use pe_reader::Pe;
use std::alloc::Global;
use stub_replay::replay_all;

// The register of each bank after the image's stub has measured it.
fn registers<M: Machine>(
    alloc: Global,
    path: &BootPath,
    head: &Pe,
    banks: &[Bank],
    machine: &mut M,
) -> Result<Vec<Pcr>, ReadError>
    requires { IsTrue M.tells → pe_of (contents (M.state machine.old).files path.now) ≡ Ok (headers_of head.now) }
    ensures banks { IfOk result (λ registers. map pcr_bank registers.items ≡ banks.now) }
    ensures says { IsTrue M.tells → Says (λ registers. map pcr_value registers.items) result
        (Ok (map (fold_pcr (measured_list (contents (M.state machine.old).files path.now))) banks.now)) }
    ensures looks { Looks M.tells M.time M.state M.counts (CountsReadError result) machine.old machine.new }
    ensures taken { IsTrue M.tells
        → TakesAtMost (measured_raw_length (contents (M.state machine.old).files path.now))
        (M.taken machine.old) (M.taken machine.new) }
{
    let mut buffer = [0; PIECE_SIZE];
    Ok(replay_all(alloc, machine, path, head, banks, &mut buffer)?)
}

// The lines of the image at a path.
fn values<M: Machine>(
    alloc: Global,
    path: &BootPath,
    banks: &[Text],
    phases: &[Text],
    json: bool,
    machine: &mut M,
) -> Result<Vec<u8>, ReadError>
    ensures says { IsTrue M.tells → Says (λ text. text.items) result
        (values_at (seen (M.state machine.old)) banks.now phases.now json path.now) }
    ensures looks { Looks M.tells M.time M.state M.counts (CountsReadError result) machine.old machine.new }
    ensures taken { IsTrue M.tells → TakesAtMost
        (head_limit + measured_raw_length (found_bytes (bytes_at (seen (M.state machine.old)) path.now)))
        (M.taken machine.old) (M.taken machine.new) }
{
    let head = image_head(alloc, path, machine)?;
    let banks = banks_of(alloc, banks)?;
    let paths = paths_of(alloc, phases)?;
    let registers = registers(alloc, path, &head, banks.as_slice(), machine)?;
    Ok(told_values(alloc, registers.as_slice(), paths.as_slice(), json)?)
}

// The lines of the image that a word names.
fn measure_result<M: Machine>(
    alloc: Global,
    file: &str,
    banks: &[Text],
    phases: &[Text],
    json: bool,
    machine: &mut M,
) -> Result<Vec<u8>, ReadError>
    ensures says { IsTrue M.tells → Says (λ text. text.items) result
        (measure_result (seen (M.state machine.old)) file.now banks.now phases.now json) }
    ensures looks { Looks M.tells M.time M.state M.counts (CountsReadError result) machine.old machine.new }
    ensures words { DeclinesWords (path_in file.now) result }
    ensures taken { IsTrue M.tells → TakesAtMost
        (head_limit + measured_raw_length (named_content (seen (M.state machine.old)) file.now))
        (M.taken machine.old) (M.taken machine.new) }
{
    let path = path_in(alloc, file)?;
    values(alloc, &path, banks, phases, json, machine)
}

/// What is going to be said of an image: for each phase path the value of PCR 11, in each bank, after the
/// image's stub has measured it and the path's words have followed. The headers are read, and the raw data
/// of the measured sections, once for all banks.
pub fn plan_image<M: Machine>(
    alloc: Global,
    file: &str,
    banks: &[Text],
    phases: &[Text],
    json: bool,
    machine: &mut M,
) -> Result<Plan, RunError>
    ensures plans { IfOk result (λ plan. IsTrue M.tells → Plans (M.state machine.old) plan
        (answer_of_read (seen (M.state machine.old))
        (measure_result (seen (M.state machine.old)) file.now banks.now phases.now json))) }
    ensures idle { IfOk result (λ plan. plan.change ≡ Nothing) }
    ensures looks { Looks M.tells M.time M.state M.counts (CountsRunError result) machine.old machine.new }
    ensures words { RefusesWords (path_in file.now) result }
    ensures taken { IsTrue M.tells → TakesAtMost
        (head_limit + measured_raw_length (named_content (seen (M.state machine.old)) file.now))
        (M.taken machine.old) (M.taken machine.new) }
{
    let text = measure_result(alloc, file, banks, phases, json, machine);
    text_or_refusal(alloc, text)
}
