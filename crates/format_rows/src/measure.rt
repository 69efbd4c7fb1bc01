//! Registers after a stub has measured an image, and what reads of a machine give.
use crate::case::{Case, file_path};
use crate::fault::RowFault;
use crate::read::{head_there, machine_head_text};
use crate::words::bank_of;
use boot_base::{BootPath, Buffer, PIECE_SIZE};
use memory_machine::{MemMachine, ReadSeen};
use pcr_values::{Bank, Pcr};
use pe_reader::{HeadFault, Pe};
use std::alloc::{AllocError, Global};
use stub_replay::{replay, replay_bytes};

/// The register of a bank after the image with the file's bytes.
pub(crate) fn replay_text(alloc: Global, case: &Case, bank: &str) -> Result<String, RowFault> {
    let bank = bank_of(bank)?;
    let file = case.file();
    let head = Pe::read(alloc, file)?;
    let pcr = replay_bytes(alloc, file, &head, bank)?;
    Ok(hex::encode(alloc, pcr.bytes())?)
}

// A buffer of one piece. No proof sees what it holds.
fn piece_buffer() -> Buffer {
    [1; PIECE_SIZE]
}

// The register of SHA-256 after that file.
fn replay_file(alloc: Global, machine: &mut MemMachine, path: &BootPath) -> Result<Pcr, HeadFault> {
    let head = head_there(alloc, machine, path)?;
    let pcr = replay(machine, path, &head, Bank::Sha256, &mut piece_buffer())?;
    Ok(pcr)
}

// The register after the image by reads of a machine.
fn machine_replay_text(
    alloc: Global,
    machine: &mut MemMachine,
    path: &BootPath,
) -> Result<String, AllocError> {
    match replay_file(alloc, machine, path) {
        Ok(pcr) => hex::encode(alloc, pcr.bytes()),
        Err(fault) => format!(in alloc; "{fault}"),
    }
}

// What comes of the headers, or of all that is measured.
fn machine_answer(
    alloc: Global,
    verb: &str,
    machine: &mut MemMachine,
    path: &BootPath,
) -> Result<String, AllocError> {
    match verb {
        "head" => machine_head_text(alloc, machine, path),
        _ => machine_replay_text(alloc, machine, path),
    }
}

// The places and lengths of the reads.
fn reads_text(alloc: Global, reads: &[ReadSeen]) -> Result<String, AllocError> {
    let mut text = String::from_str(alloc, "reads")?;
    for read in reads {
        let place = read.at;
        let length = read.length;
        write!(text, " {place}+{length}")?;
    }
    Ok(text)
}

// What comes of it, and below it the reads.
fn answer_and_reads(
    alloc: Global,
    verb: &str,
    machine: &mut MemMachine,
) -> Result<String, RowFault> {
    let path = file_path(alloc)?;
    let told = machine_answer(alloc, verb, machine, &path)?;
    let reads = reads_text(alloc, machine.reads())?;
    Ok(format!(in alloc; "{told}\n{reads}")?)
}

/// What comes of the file by reads of a machine, and these reads: how many sections it has, or the register after it.
pub(crate) fn machine_text(alloc: Global, verb: &str, case: &mut Case) -> Result<String, RowFault> {
    let mut machine = case.machine(alloc)?;
    let told = answer_and_reads(alloc, verb, &mut machine);
    drop(machine);
    told
}
