//! A whole file, streamed through a hash.
ghost use Rattle.std.specs.Prelude.{◌≡◌, length, IfOk, IsTrue};
ghost use Rattle.boot_machine.specs.Prelude.{CountsDisk, Looks, TakesAtMost, contents};
ghost use Rattle.pcr_values.specs.Prelude.{bank_of, bytes_of_digest, digest_of};

use boot_base::{BootPath, Buffer};
use boot_machine::{ByteSink, DiskFault, Machine, stream_range};
use pcr_values::{Bank, DataHash, Digest};

/// A hash that takes bytes that are streamed.
#[derive(Drop)]
pub(crate) struct FileHash {
    pub(crate) hash: DataHash,
}

impl<M: Machine> ByteSink<M> for FileHash {
    ghost use Rattle.std.proofs.Common.{ap};
    ghost use Rattle.boot_machine.specs.Prelude.{contents};
    ghost use Rattle.boot_machine.proofs.Reading.{reads_on};
    ghost use Rattle.type1_install.specs.Hashing.{HashesReading};
    ghost use Rattle.type1_install.specs.proofs.HashingLaws.{hashes_none, hashes_more};

    ghost can_take = { λ s m. Unit {0} };

    ghost took = { λ bytes s m t n. HashesReading M.tells M.time M.state bytes s.hash m t.hash n };

    ghost reads = { λ s m n reads. (hashes_none s.hash, reads) };

    ghost more = { λ a b s t u m n o first second. (
      hashes_more a b s.hash t.hash u.hash first.0 second.0,
      λ told. reads_on M.time M.state m n o (first.1 told) (second.1 told),
    ) };

    ghost goes_on = { λ bytes s t m n can took. tt };

    ghost keeps = { λ bytes s t m n path can took told shown. ap (λ v. contents v.files path) (took.1 told).same };

    fn take(&mut self, piece: &[u8], _machine: &mut M) -> Result<(), DiskFault> {
        self.hash.update(piece);
        Ok(())
    }
}

/// The bank's digest of the file of `size` bytes at a path. Each of its bytes is read once and through the buffer,
/// which holds anything afterwards. Nothing is changed.
///
/// # Errors
///
/// Only where the machine has counted a fault of the disk.
pub(crate) fn file_digest<M: Machine>(
    bank: Bank,
    machine: &mut M,
    path: &BootPath,
    size: u64,
    buffer: &mut Buffer,
) -> Result<Digest, DiskFault>
    ensures bank { IfOk result (λ digest. bank_of digest ≡ bank) }
    ensures value { IfOk result (λ digest. IsTrue M.tells
        → length (contents (M.state machine.old).files path.now) ≡ size
        → bytes_of_digest digest ≡ digest_of bank (contents (M.state machine.old).files path.now)) }
    ensures looks { Looks M.tells M.time M.state M.counts (CountsDisk result) machine.old machine.new }
    ensures taken { IsTrue M.tells → TakesAtMost size (M.taken machine.old) (M.taken machine.new) }
{
    let mut sink = FileHash {
        hash: DataHash::new(bank),
    };
    stream_range(machine, path, 0, size, &mut sink, buffer)?;
    Ok(sink.hash.finish())
}
