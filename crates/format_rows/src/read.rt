//! Headers of files.
ghost use Rattle.std.specs.Prelude.{◌≡◌, Ok, IfOk};
ghost use Rattle.boot_machine.specs.Prelude.{contents};
ghost use Rattle.memory_machine.specs.Memory.{mem_state};
ghost use Rattle.pe_reader.specs.Prelude.{pe_of, headers_of};

use crate::case::Case;
use crate::fault::RowFault;
use boot_base::{BootPath, FILE_LIMIT};
use boot_machine::Machine;
use memory_machine::MemMachine;
use pe_reader::{HeadFault, LoadedRange, Pe};
use std::alloc::{AllocError, Global};

// How many sections there are.
fn count_text(alloc: Global, pe: &Pe) -> Result<String, AllocError> {
    let count = pe.sections().len();
    format!(in alloc; "sections: {count}")
}

/// What the headers before the section table say.
pub(crate) fn headers_text(alloc: Global, case: &Case) -> Result<String, RowFault> {
    let pe = Pe::read(alloc, case.file())?;
    let head = pe.head();
    Ok(format!(in alloc; "{head:?}")?)
}

/// How many sections the file has, or the first check that fails.
pub(crate) fn read_text(alloc: Global, case: &Case) -> Result<String, RowFault> {
    match Pe::read(alloc, case.file()) {
        Ok(pe) => Ok(count_text(alloc, &pe)?),
        Err(fault) => Ok(format!(in alloc; "{fault}")?),
    }
}

/// Where the loaded bytes of the first section of that name stand.
pub(crate) fn range_text(alloc: Global, case: &Case, name: &str) -> Result<String, RowFault> {
    let pe = Pe::read(alloc, case.file())?;
    let Some(index) = pe.find(name.as_bytes()) else {
        return Ok(String::from_str(alloc, "none")?);
    };
    let LoadedRange {
        place,
        length,
        zeros,
    } = pe.loaded_range(index);
    Ok(format!(in alloc; "{length} bytes at {place}, and {zeros} zeros")?)
}

/// The headers of a file that is there. A file that isn't counts as a fault of the disk.
pub(crate) fn head_there(
    alloc: Global,
    machine: &mut MemMachine,
    path: &BootPath,
) -> Result<Pe, HeadFault>
    ensures { IfOk result (λ head. pe_of (contents (mem_state machine.new).files path.now) ≡ Ok (headers_of head)) }
{
    match machine.size(path.file())? {
        Some(size) if size <= FILE_LIMIT => Pe::read_head(alloc, machine, path, size),
        _ => Err(HeadFault::Disk),
    }
}

/// How many sections a file has or the first check that fails, by reads of a machine.
pub(crate) fn machine_head_text(
    alloc: Global,
    machine: &mut MemMachine,
    path: &BootPath,
) -> Result<String, AllocError> {
    match head_there(alloc, machine, path) {
        Ok(pe) => count_text(alloc, &pe),
        Err(fault) => format!(in alloc; "{fault}"),
    }
}
