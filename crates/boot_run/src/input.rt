//! Standard input, read to its end.
ghost use Rattle.std.specs.Prelude.{◌≡◌, ◌+◌, ◌≤◌, ℕ, drop, take, IfOk, OnOk, IsErrOf, IsTrue};
ghost use Rattle.boot_machine.specs.Prelude.{EachSince, IsImage, SameButInput};
ghost use Rattle.command_plans.specs.Prelude.{CountsRunError};
ghost use Rattle.boot_run.specs.Lines.{script_limit};

use boot_machine::Machine;
use command_plans::RunError;
use std::alloc::Global;

/// The most bytes of a script.
pub const SCRIPT_LIMIT: usize = 1_048_576;

/// How many bytes are asked for at a time.
const PIECE: usize = 4_096;

/// Standard input to its end, or one byte more than a script may have. No more is taken.
pub fn read_all<M: Machine>(alloc: Global, machine: &mut M) -> Result<Vec<u8>, RunError>
    ensures bytes { IfOk result (λ bytes. IsTrue M.tells
        → bytes.items ≡ take (script_limit + 1) (M.state machine.old).input) }
    ensures rest { OnOk result (IsTrue M.tells
        → (M.state machine.new).input ≡ drop (script_limit + 1) (M.state machine.old).input) }
    ensures taken { IsTrue M.tells
        → (k : ℕ) × (k ≤ script_limit + 1) × ((M.state machine.new).input ≡ drop k (M.state machine.old).input) }
    ensures same { IsTrue M.tells → SameButInput (M.state machine.old) (M.state machine.new) }
    ensures moments { IsTrue M.tells → EachSince M.time machine.old machine.new
        (λ m o. IsImage (M.state machine.old) m × (o ≡ (M.state machine.old).printed)) }
    ensures no_disk { IsErrOf result RunError.Disk → ⊥ }
    ensures counts { CountsRunError result (M.counts machine.old) (M.counts machine.new) }
{
    let mut bytes = Vec::new(alloc);
    let mut buffer = [0u8; PIECE];
    while bytes.len() <= SCRIPT_LIMIT {
        let room = PIECE.min(SCRIPT_LIMIT + 1 - bytes.len());
        let count = machine.input(&mut buffer[..room])?;
        if count == 0 {
            return Ok(bytes);
        }
        bytes.extend_from_slice(&buffer[..count])?;
    }
    Ok(bytes)
}
