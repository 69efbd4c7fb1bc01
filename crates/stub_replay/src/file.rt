//! What a stub measures of the image in a machine's file, read in pieces.
ghost use Rattle.std.specs.Prelude.{◌≡◌, ◌+◌, ◌<◌, ◌≤◌, ◌^◌, Ok, length, drop, map, IfOk, IsTrue, OnOk};
ghost use Rattle.boot_machine.specs.Prelude.{CountsDisk, Looks, TakesAtMost, contents, CountsRead};
ghost use Rattle.pe_reader.specs.Prelude.{pe_of, loaded_bytes, bytes_in, headers_of};
ghost use Rattle.pcr_values.specs.Prelude.{digest_of, fold_of, fold_pcr, bank_of, bytes_of_digest, pcr_bank, pcr_bytes, pcr_value};
ghost use Rattle.stub_replay.specs.Measured.{measured_list, measured_raw_length, named_raw_length, section_items};
ghost use Rattle.stub_replay.specs.Taking.{AreBetween, ExtendsWhere};

use crate::measurable::{Content, Measurable};
use crate::measured::measured_names;
use crate::pieces::take_loaded;
use crate::prediction::measure_part;
use crate::register::{Register, begin_all, values};
use boot_base::{BootPath, Buffer};
use boot_machine::{DiskFault, Machine, ReadFault};
use pcr_values::{Bank, Digest, Pcr};
use pe_reader::{LoadedRange, Pe};
use std::alloc::Global;
use std::slice;

/// No command calls it: the register after a stub has measured the image in that file, before any word of a phase path.
/// It is one of those of `replay_all`, and takes no memory. `head` is what the file's bytes read as. Only the raw data of
/// the measured sections are read, through the buffer, and nothing is changed; afterwards the buffer holds anything.
///
/// # Errors
///
/// Only if the machine has counted a fault of the disk.
pub fn replay<M: Machine>(
    machine: &mut M,
    path: &BootPath,
    head: &Pe,
    bank: Bank,
    buffer: &mut Buffer,
) -> Result<Pcr, DiskFault>
    requires { IsTrue M.tells → pe_of (contents (M.state machine.old).files path.now) ≡ Ok (headers_of head.now) }
    ensures bank { IfOk result (λ pcr. pcr_bank pcr ≡ bank) }
    ensures value { IfOk result (λ pcr. IsTrue M.tells
        → pcr_bytes pcr ≡ fold_of bank (measured_list (contents (M.state machine.old).files path.now))) }
    ensures looks { Looks M.tells M.time M.state M.counts (CountsDisk result) machine.old machine.new }
    ensures taken { IsTrue M.tells
        → TakesAtMost (measured_raw_length (contents (M.state machine.old).files path.now)) (M.taken machine.old)
        (M.taken machine.new) }
{
    let mut register = Register::new(bank);
    let registers = slice::from_mut(&mut register);
    measure_sections(registers, machine, path, head, buffer)?;
    Ok(register.pcr)
}

/// The register of each bank, in the order of the banks, after a stub has measured the image in that file, before any
/// word of a phase path. `head` is what the file's bytes read as. The raw data of the measured sections alone are read,
/// through the buffer and once for all banks, and nothing is changed; afterwards the buffer holds anything.
///
/// # Errors
///
/// `Disk` only where the machine has counted a fault of its disk, and `Memory` where there is none for the registers.
pub fn replay_all<M: Machine>(
    alloc: Global,
    machine: &mut M,
    path: &BootPath,
    head: &Pe,
    banks: &[Bank],
    buffer: &mut Buffer,
) -> Result<Vec<Pcr>, ReadFault>
    requires { IsTrue M.tells → pe_of (contents (M.state machine.old).files path.now) ≡ Ok (headers_of head.now) }
    ensures banks { IfOk result (λ pcrs. map pcr_bank pcrs.items ≡ banks.now) }
    ensures value { IfOk result (λ pcrs. IsTrue M.tells
        → map pcr_value pcrs.items
        ≡ map (fold_pcr (measured_list (contents (M.state machine.old).files path.now))) banks.now) }
    ensures looks { Looks M.tells M.time M.state M.counts (CountsRead result) machine.old machine.new }
    ensures taken { IsTrue M.tells
        → TakesAtMost (measured_raw_length (contents (M.state machine.old).files path.now)) (M.taken machine.old)
        (M.taken machine.new) }
{
    let mut registers = begin_all(alloc, banks)?;
    measure_sections(&mut registers, machine, path, head, buffer)?;
    Ok(values(alloc, &registers)?)
}

// Measures the first section of each measured name.
#[tactic(auto, unfolding(crate::specs::Measured::measured_by))]
fn measure_sections<M: Machine>(
    registers: &mut [Register],
    machine: &mut M,
    path: &BootPath,
    head: &Pe,
    buffer: &mut Buffer,
) -> Result<(), DiskFault>
    requires between { AreBetween registers.old }
    requires head { IsTrue M.tells → pe_of (contents (M.state machine.old).files path.now) ≡ Ok (headers_of head.now) }
    ensures value { OnOk result (ExtendsWhere (IsTrue M.tells)
        (measured_list (contents (M.state machine.old).files path.now)) registers.old registers.new) }
    ensures looks { Looks M.tells M.time M.state M.counts (CountsDisk result) machine.old machine.new }
    ensures taken { IsTrue M.tells
        → TakesAtMost (measured_raw_length (contents (M.state machine.old).files path.now)) (M.taken machine.old)
        (M.taken machine.new) }
{
    for name in measured_names() {
        measure_section(registers, machine, path, head, name, buffer)?;
    }
    Ok(())
}

// Measures the first section of that name.
fn measure_section<M: Machine>(
    registers: &mut [Register],
    machine: &mut M,
    path: &BootPath,
    head: &Pe,
    name: &[u8],
    buffer: &mut Buffer,
) -> Result<(), DiskFault>
    requires between { AreBetween registers.old }
    requires head { IsTrue M.tells → pe_of (contents (M.state machine.old).files path.now) ≡ Ok (headers_of head.now) }
    ensures value { OnOk result (ExtendsWhere (IsTrue M.tells)
        (section_items name.now (loaded_bytes (contents (M.state machine.old).files path.now) name.now)) registers.old
        registers.new) }
    ensures looks { Looks M.tells M.time M.state M.counts (CountsDisk result) machine.old machine.new }
    ensures taken { IsTrue M.tells → TakesAtMost
        (named_raw_length name.now (pe_of (contents (M.state machine.old).files path.now))) (M.taken machine.old)
        (M.taken machine.new) }
{
    match head.find(name) {
        None => Ok(()),
        Some(index) => {
            path.know();
            let range = head.loaded_range(index);
            let content = Content::Loaded { path, range };
            measure_part(registers, machine, &Measurable { name, content }, buffer)?;
            Ok(())
        }
    }
}

/// The digest of a range of the file with its zeros, as they are loaded. The file is read through the buffer,
/// and each of its bytes once; afterwards the buffer holds anything.
///
/// # Errors
///
/// Only where the machine has counted a fault of the disk.
pub fn range_digest<M: Machine>(
    bank: Bank,
    machine: &mut M,
    path: &BootPath,
    range: LoadedRange,
    buffer: &mut Buffer,
) -> Result<Digest, DiskFault>
    requires place { range.place < 2 ^ 32 }
    requires size { range.length + range.zeros < 2 ^ 32 }
    ensures bank { IfOk result (λ digest. bank_of digest ≡ bank) }
    ensures value { IfOk result (λ digest. IsTrue M.tells
        → range.length ≤ length (drop range.place (contents (M.state machine.old).files path.now))
        → bytes_of_digest digest ≡ digest_of bank (bytes_in (contents (M.state machine.old).files path.now) range)) }
    ensures looks { Looks M.tells M.time M.state M.counts (CountsDisk result) machine.old machine.new }
    ensures taken { IsTrue M.tells → TakesAtMost range.length (M.taken machine.old) (M.taken machine.new) }
{
    path.know();
    let mut register = Register::new(bank);
    take_loaded(slice::from_mut(&mut register), machine, path, range, buffer)?;
    Ok(register.hash.finish())
}
