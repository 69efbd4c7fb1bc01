//! The values that registers come to.
ghost use Rattle.std.specs.Prelude.{◌≡◌, map, All, IfOk, OnOk, IsTrue};
ghost use Rattle.boot_machine.specs.Prelude.{CountsDisk, Looks, TakesAtMost, contents, seen, CountsRead};
ghost use Rattle.pcr_values.specs.Prelude.{fold_pcr, pcr_bank, pcr_value};
ghost use Rattle.stub_replay.specs.Measured.{section_items};
ghost use Rattle.stub_replay.specs.Parts.{IsPlaced, IsWhole, content_bytes, named_bytes, items_of, HaveSizes, read_length, files_length};
ghost use Rattle.stub_replay.specs.Taking.{ExtendsWhere, AreBetween};

use crate::measurable::{Measurable, content_length};
use crate::pieces::take_content;
use crate::register::{Register, begin_all, close_all, values};
use boot_base::Buffer;
use boot_machine::{DiskFault, Machine, ReadFault};
use pcr_values::{Bank, Pcr};
use std::alloc::Global;

/// PCR 11 of each bank, in the order of the banks, after a stub has measured these parts in their order and before
/// any word of a phase path: each part by its name with one NUL and then by its bytes, and nothing of an empty part
/// (systemd's TPM2 PCR document, PCR 11). What stands in files is read once for all banks, through the buffer; nothing
/// is changed, and afterwards the buffer holds anything. Zeros stand for bytes that the machine doesn't give.
///
/// # Errors
///
/// `Disk` only where the machine has counted a fault of its disk, and `Memory` where there is none for the registers.
pub fn predict<M: Machine>(
    alloc: Global,
    machine: &mut M,
    parts: &[Measurable],
    banks: &[Bank],
    buffer: &mut Buffer,
) -> Result<Vec<Pcr>, ReadFault>
    requires ranges { All (λ part. IsPlaced part.content) parts.now }
    ensures banks { IfOk result (λ pcrs. map pcr_bank pcrs.items ≡ banks.now) }
    ensures value { IfOk result (λ pcrs. IsTrue M.tells → HaveSizes (contents (seen (M.state machine.old))) parts.now
        → map pcr_value pcrs.items
        ≡ map (fold_pcr (items_of (map (named_bytes (contents (seen (M.state machine.old)))) parts.now))) banks.now) }
    ensures looks { Looks M.tells M.time M.state M.counts (CountsRead result) machine.old machine.new }
    ensures taken { IsTrue M.tells → TakesAtMost (files_length parts.now) (M.taken machine.old) (M.taken machine.new) }
{
    let mut registers = begin_all(alloc, banks)?;
    measure_all(&mut registers, machine, parts, buffer)?;
    Ok(values(alloc, &registers)?)
}

// Measures the parts in their order.
fn measure_all<M: Machine>(
    registers: &mut [Register],
    machine: &mut M,
    parts: &[Measurable],
    buffer: &mut Buffer,
) -> Result<(), DiskFault>
    requires between { AreBetween registers.old }
    requires ranges { All (λ part. IsPlaced part.content) parts.now }
    ensures value { OnOk result (ExtendsWhere
        (IsTrue M.tells × HaveSizes (contents (seen (M.state machine.old))) parts.now)
        (items_of (map (named_bytes (contents (seen (M.state machine.old)))) parts.now)) registers.old registers.new) }
    ensures looks { Looks M.tells M.time M.state M.counts (CountsDisk result) machine.old machine.new }
    ensures taken { IsTrue M.tells → TakesAtMost (files_length parts.now) (M.taken machine.old) (M.taken machine.new) }
{
    for part in parts {
        measure_part(registers, machine, part, buffer)?;
    }
    Ok(())
}

/// Measures one part: nothing of an empty one.
pub(crate) fn measure_part<M: Machine>(
    registers: &mut [Register],
    machine: &mut M,
    part: &Measurable,
    buffer: &mut Buffer,
) -> Result<(), DiskFault>
    requires between { AreBetween registers.old }
    requires range { IsPlaced part.now.content }
    ensures value { OnOk result (ExtendsWhere
        (IsTrue M.tells × IsWhole (contents (seen (M.state machine.old))) part.now.content)
        (section_items part.now.name.now (content_bytes (contents (seen (M.state machine.old))) part.now.content))
        registers.old registers.new) }
    ensures looks { Looks M.tells M.time M.state M.counts (CountsDisk result) machine.old machine.new }
    ensures taken { IsTrue M.tells → TakesAtMost (read_length part.now.content) (M.taken machine.old)
        (M.taken machine.new) }
{
    if content_length(&part.content) == 0 {
        return Ok(());
    }
    take_content(registers, machine, &part.content, buffer)?;
    close_all(registers, part.name);
    Ok(())
}
