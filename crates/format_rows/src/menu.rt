//! The menu of a partition.
use crate::fault::RowFault;
use crate::words::bytes_of;
use boot_base::BootPath;
use boot_entries::{ScanFault, scan};
use memory_machine::{MemFile, MemMachine};
use menu_order::MenuItem;
use std::alloc::{AllocError, Global};
use std::str;

// A machine with one entry of type 1, in the partition `efi`.
fn machine_with_entry(alloc: Global) -> Result<MemMachine, RowFault> {
    let path = BootPath::read(alloc, "efi/loader/entries/a.conf")?.into_file();
    let bytes = b"linux /k\n".to_vec(alloc)?;
    Ok(MemMachine::new(alloc, vec![in alloc; MemFile { path, bytes }]?)?)
}

// The paths of the entries, or that there are none.
fn paths_text(alloc: Global, items: &[MenuItem]) -> Result<String, AllocError> {
    let mut text = String::new(alloc);
    for item in items {
        text.push_str(item.path.as_str())?;
    }
    if text.is_empty() {
        text.push_str("no entries")?;
    }
    Ok(text)
}

/// The paths of the menu of that partition on a machine with one entry in `efi`, or the name of the fault.
pub(crate) fn scan_text(alloc: Global, rest: &str) -> Result<String, RowFault> {
    let bytes = bytes_of(alloc, rest)?;
    let Ok(text) = str::from_utf8(bytes.as_slice()) else {
        return Err(RowFault::Unclear);
    };
    let esp = BootPath::read(alloc, text)?;
    let mut machine = machine_with_entry(alloc)?;
    match scan(alloc, &mut machine, &esp) {
        Ok(items) => Ok(paths_text(alloc, items.as_slice())?),
        Err(ScanFault::Memory) => Err(RowFault::Memory),
        Err(fault) => Ok(format!(in alloc; "{fault:?}")?),
    }
}
