//! Appends zeros to a temporary file.

ghost use Rattle.std.specs.Prelude.{◌≡◌, true, length, replicate, IsTrue, OnOk};
ghost use Rattle.boot_machine.specs.Prelude.{CountsDisk, TakesNone, has};
ghost use Rattle.install_steps.specs.Appends.{Appends, IsGrown};

use boot_base::{Buffer, TempPath};
use boot_machine::{DiskFault, Machine};
use install_steps::append;

/// Appends so many zeros. Afterwards the buffer holds zeros.
pub fn write_zeros<M: Machine>(
    machine: &mut M,
    temp: &TempPath,
    count: u64,
    buffer: &mut Buffer,
) -> Result<(), DiskFault>
    requires there { IsTrue M.tells → has (M.state machine.old).files temp.now ≡ true }
    ensures appends { Appends M.tells M.time M.state M.counts (CountsDisk result) temp.now machine.old machine.new }
    ensures grows { OnOk result (IsTrue M.tells
        → IsGrown temp.now (replicate count 0) (M.state machine.old) (M.state machine.new)) }
    ensures taken { IsTrue M.tells → TakesNone (M.taken machine.old) (M.taken machine.new) }
{
    buffer.fill(0);
    append_zeros(machine, temp, count, buffer)
}

// Appends so many zeros from a buffer of zeros.
fn append_zeros<M: Machine>(
    machine: &mut M,
    temp: &TempPath,
    count: u64,
    zeros: &Buffer,
) -> Result<(), DiskFault>
    requires there { IsTrue M.tells → has (M.state machine.old).files temp.now ≡ true }
    requires zeros { zeros.now ≡ replicate (length zeros.now) 0 }
    ensures appends { Appends M.tells M.time M.state M.counts (CountsDisk result) temp.now machine.old machine.new }
    ensures grows { OnOk result (IsTrue M.tells
        → IsGrown temp.now (replicate count 0) (M.state machine.old) (M.state machine.new)) }
    ensures taken { IsTrue M.tells → TakesNone (M.taken machine.old) (M.taken machine.new) }
{
    let mut done = 0;
    while done < count {
        let room = zeros.len().min((count - done) as usize);
        append(machine, temp, &zeros[..room])?;
        done += room as u64;
    }
    Ok(())
}
