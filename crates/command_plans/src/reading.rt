//! Calls that only read.
ghost use Rattle.std.specs.Prelude.{◌≡◌, length, IfOk, IsTrue, option_map};
ghost use Rattle.std.specs.FinMap.{get};
ghost use Rattle.boot_machine.specs.Prelude.{CountsDisk, Looks, TakesAtMost, seen};

use boot_base::BootPath;
use boot_machine::{DiskFault, Machine};

/// The length of a boot file in bytes, and None where none is there. None of its bytes are read.
pub fn seen_size<M: Machine>(path: &BootPath, machine: &mut M) -> Result<Option<u64>, DiskFault>
    ensures size { IfOk result (λ size. IsTrue M.tells
        → option_map length (get (seen (M.state machine.old)) path.now) ≡ size) }
    ensures looks { Looks M.tells M.time M.state M.counts (CountsDisk result) machine.old machine.new }
    ensures taken { IsTrue M.tells → TakesAtMost 0 (M.taken machine.old) (M.taken machine.new) }
{
    machine.size(path.file())
}
