//! The payloads that files are, found by reads in pieces.
ghost use Rattle.std.specs.Prelude.{◌≡◌, true, length, sum_by, All, IfOk, IsTrue};
ghost use Rattle.hex.specs.Hex.{encode_lower};
ghost use Rattle.boot_machine.specs.Prelude.{Looks, TakesAtMost, seen};
ghost use Rattle.boot_texts.specs.EntryText.{is_payload_name};
ghost use Rattle.pcr_values.specs.Prelude.{bank_of, bytes_of_digest};
ghost use Rattle.pcr_values.specs.declared.bank.Bank.TheVariants.{Sha256};
ghost use Rattle.command_plans.specs.Prelude.{CountsReadError, Says, bytes_at, each};
ghost use Rattle.type1_install.specs.Installing.{digesting_length};
ghost use Rattle.type1_install.specs.Shown.{HasPayloadName, payload_at};

use crate::whole::file_digest;
use boot_base::{BootPath, Buffer, Text};
use boot_machine::Machine;
use command_plans::{ReadError, push, readable_size};
use pcr_values::{Bank, Digest};
use std::alloc::{AllocError, Global};

/// A file with the name of its payload.
#[derive(Drop)]
pub(crate) struct Payload {
    pub(crate) file: BootPath,
    pub(crate) name: Text,
}

// The digest in digits.
fn name_of(alloc: Global, digest: &Digest) -> Result<Text, AllocError>
    requires { bank_of digest.now ≡ Sha256 }
    ensures digits { IfOk result (λ name. name ≡ encode_lower (bytes_of_digest digest.now)) }
    ensures name { IfOk result (λ name. is_payload_name name ≡ true) }
{
    digits(alloc, digest.bytes())
}

fn digits(alloc: Global, bytes: &[u8]) -> Result<Text, AllocError>
    requires { length bytes.now ≡ 32 }
    ensures digits { IfOk result (λ name. name ≡ encode_lower bytes.now) }
    ensures name { IfOk result (λ name. is_payload_name name ≡ true) }
{
    Ok(Text::from(hex::encode(alloc, bytes)?))
}

/// The payload that the file at a path is, or the refusal of the file.
pub(crate) fn payload_at<M: Machine>(
    alloc: Global,
    file: &BootPath,
    machine: &mut M,
    buffer: &mut Buffer,
) -> Result<Payload, ReadError>
    ensures says { IsTrue M.tells
        → Says (λ payload. payload) result (payload_at (seen (M.state machine.old)) file.now) }
    ensures name { IfOk result HasPayloadName }
    ensures looks { Looks M.tells M.time M.state M.counts (CountsReadError result) machine.old machine.new }
    ensures taken { IsTrue M.tells → TakesAtMost
        (digesting_length (bytes_at (seen (M.state machine.old)) file.now)) (M.taken machine.old)
        (M.taken machine.new) }
{
    let size = readable_size(alloc, file, machine)?;
    let digest = file_digest(Bank::Sha256, machine, file, size, buffer)?;
    let name = name_of(alloc, &digest)?;
    let file = file.copy(alloc)?;
    Ok(Payload { file, name })
}

/// The payloads that the files at these paths are, or the refusal of the first that is none.
pub(crate) fn payloads_at<M: Machine>(
    alloc: Global,
    files: &[BootPath],
    machine: &mut M,
    buffer: &mut Buffer,
) -> Result<Vec<Payload>, ReadError>
    ensures says { IsTrue M.tells → Says (λ payloads. payloads.items) result
        (each (payload_at (seen (M.state machine.old))) files.now) }
    ensures names { IfOk result (λ payloads. All HasPayloadName payloads.items) }
    ensures count { IfOk result (λ payloads. length payloads.items ≡ length files.now) }
    ensures looks { Looks M.tells M.time M.state M.counts (CountsReadError result) machine.old machine.new }
    ensures taken { IsTrue M.tells → TakesAtMost
        (sum_by (λ file. digesting_length (bytes_at (seen (M.state machine.old)) file)) files.now)
        (M.taken machine.old) (M.taken machine.new) }
{
    let mut payloads = Vec::new(alloc);
    for file in files {
        let payload = payload_at(alloc, file, machine, buffer)?;
        push(&mut payloads, payload)?;
    }
    Ok(payloads)
}
