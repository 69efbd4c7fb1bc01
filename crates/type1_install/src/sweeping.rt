//! The temporary files beside payloads that a stopped installation leaves, and a cleanup takes away.
ghost use Rattle.std.specs.Prelude.{◌≡◌, ◌-◌, All, IfErr, IfOk, IsTrue, bytes_eq, length, take, true};
ghost use Rattle.std.specs.List.{IsDistinct};
ghost use Rattle.boot_machine.specs.Prelude.{Looks, TakesAtMost, has};
ghost use Rattle.boot_texts.specs.EntryText.{is_payload_name};
ghost use Rattle.command_plans.specs.Prelude.{CountsReadError, ReadErrorFor};
ghost use Rattle.type1_install.specs.Unnamed.{IsNoRefusal};
ghost use Rattle.type1_install.specs.Sweeping.{FindsBeside, HasPayloadTemps, IsBesidePayload, StandsBeside, payload_esp, temps_beside};

use crate::cleanup::names_in;
use crate::place::payload_folder;
use boot_base::{BootPath, FileName, TEMP_SUFFIX, TempPath};
use boot_machine::Machine;
use boot_texts::is_payload_name;
use command_plans::{ReadError, each_once, path_in};
use std::alloc::{AllocError, Global};

// Whether a payload's name stands before the last four bytes.
fn begins_as_payload(name: &str) -> bool
    ensures { result ≡ is_payload_name (take (length name.now - 4) name.now) }
{
    let name = name.as_bytes();
    is_payload_name(&name[..name.len().saturating_sub(TEMP_SUFFIX.len())])
}

// The paths of the temporary files beside payloads among these names of their folder.
fn temps_beside(
    alloc: Global,
    folder: &BootPath,
    names: &[FileName],
) -> Result<Vec<TempPath>, AllocError>
    ensures { IfOk result (λ temps. temps.items ≡ temps_beside folder.now names.now) }
{
    let mut temps = Vec::new(alloc);
    for name in names {
        if begins_as_payload(name.as_str())
            && let Some(temp) = TempPath::leftover(alloc, folder, name)?
        {
            temps.push(temp)?;
        }
    }
    Ok(temps)
}

// The temporary files beside payloads of an ESP, by the names in their folder.
fn leftovers_of<M: Machine>(
    alloc: Global,
    folder: &BootPath,
    machine: &mut M,
) -> Result<Vec<TempPath>, ReadError>
    ensures distinct { IfOk result (λ temps. IsDistinct bytes_eq temps.items) }
    ensures there { IfOk result (λ temps. IsTrue M.tells
        → All (λ temp. has (M.state machine.old).files temp ≡ true) temps.items) }
    ensures all { IfOk result (λ temps. IsTrue M.tells
        → HasPayloadTemps (M.state machine.old).files folder.now temps.items) }
    ensures within { IfOk result (λ temps. All (IsBesidePayload folder.now) temps.items) }
    ensures faults { IfErr result IsNoRefusal }
    ensures looks { Looks M.tells M.time M.state M.counts (CountsReadError result) machine.old machine.new }
    ensures taken { IsTrue M.tells → TakesAtMost 0 (M.taken machine.old) (M.taken machine.new) }
{
    let names = names_in(alloc, folder, machine)?;
    Ok(each_once(temps_beside(alloc, folder, names.as_slice())?))
}

/// The temporary files beside payloads of the ESP that a word names. No file is read.
pub fn payload_leftovers<M: Machine>(
    alloc: Global,
    esp: &str,
    machine: &mut M,
) -> Result<Vec<TempPath>, ReadError>
    ensures distinct { IfOk result (λ temps. IsDistinct bytes_eq temps.items) }
    ensures there { IfOk result (λ temps. IsTrue M.tells
        → All (λ temp. has (M.state machine.old).files temp ≡ true) temps.items) }
    ensures all { IfOk result (λ temps. IsTrue M.tells
        → FindsBeside (payload_esp esp.now) (M.state machine.old).files temps.items) }
    ensures within { IfOk result (λ temps. All (StandsBeside (payload_esp esp.now)) temps.items) }
    ensures refused { IfErr result (λ read_error. ReadErrorFor read_error (payload_esp esp.now)) }
    ensures looks { Looks M.tells M.time M.state M.counts (CountsReadError result) machine.old machine.new }
    ensures taken { IsTrue M.tells → TakesAtMost 0 (M.taken machine.old) (M.taken machine.new) }
{
    let esp = path_in(alloc, esp)?;
    let folder = payload_folder(alloc, &esp)?;
    leftovers_of(alloc, &folder, machine)
}
