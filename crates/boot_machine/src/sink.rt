//! What takes bytes that are streamed.
ghost use Rattle.std.specs.Prelude.{◌≡◌, ◌++◌, false, List, [], ℕ, OnOk, OnErr, IsTrue};
ghost use Rattle.boot_base.specs.Paths.{Path, is_temp};
ghost use Rattle.boot_machine.specs.Prelude.{CountsDisk, OnlyReads, contents, TakesNone, TookSome};

use crate::machine::{DiskFault, Machine};

/// What takes bytes, piece after piece. It may change the machine that they come from, but no bytes of a boot file.
///
/// The laws say what an implementation means by `took`: a machine that only reads meanwhile gives nothing, and pieces
/// that are taken one behind the other are their bytes together. Whoever may take bytes may go on.
pub trait ByteSink<M: Machine> {
    /// It may take bytes while that is the machine.
    ghost can_take: { Self → M → Type 0 };

    /// These bytes were taken, which led from the first sink and machine to the last.
    ghost took: { List ℕ → Self → M → Self → M → Type 0 };

    /// Takes the bytes of a piece. After a fault of the disk it has taken some bytes.
    fn take(&mut self, piece: &[u8], machine: &mut M) -> Result<(), DiskFault>
        requires { can_take self.old machine.old }
        ensures took { OnOk result (took piece.now self.old machine.old self.new machine.new) }
        ensures some { OnErr result (IsTrue M.tells → TookSome took self.old machine.old self.new machine.new) }
        ensures counts { CountsDisk result (M.counts machine.old) (M.counts machine.new) }
        ensures taken { IsTrue M.tells → TakesNone (M.taken machine.old) (M.taken machine.new) };

    /// While a machine only reads, nothing is taken.
    ghost reads: { (s : Self) (m n : M) → (IsTrue M.tells → OnlyReads M.time M.state m n) → took [] s m s n };

    /// Bytes that are taken one behind the other are the bytes together.
    ghost more: { (a b : List ℕ) (s t u : Self) (m n o : M) → took a s m t n → took b t n u o → took (a ++ b) s m u o };

    /// Whoever may take bytes may go on afterwards.
    ghost goes_on: { (bytes : List ℕ) (s t : Self) (m n : M) → can_take s m → took bytes s m t n → can_take t n };

    /// The boot files keep their bytes.
    ghost keeps: { (bytes : List ℕ) (s t : Self) (m n : M) (path : Path) → can_take s m → took bytes s m t n
        → IsTrue M.tells → is_temp path ≡ false → contents (M.state n).files path ≡ contents (M.state m).files path };
}
