//! Appends to a temporary file: bytes at hand, and some of a file's bytes.
ghost use Rattle.std.specs.Prelude.{◌≡◌, ◌-◌, true, IsTrue, OnOk};
ghost use Rattle.boot_machine.specs.Prelude.{CountsDisk, TakesAtMost, TakesNone, bytes_between, contents, has};
ghost use Rattle.install_steps.specs.Appends.{Appends, IsGrown};

use boot_base::{BootPath, Buffer, TempPath};
use boot_machine::{ByteSink, DiskFault, Machine, stream_range};

/// A temporary file that grows by the bytes that it takes.
#[derive(Drop)]
struct Growing<'a> {
    temp: &'a TempPath,
}

impl<M: Machine> ByteSink<M> for Growing<'_> {
    ghost use Rattle.install_steps.specs.Appends.{CanGrow, GrowsAlone};
    ghost use Rattle.install_steps.specs.proofs.GrowingLaws.{grows_reads, grows_more, grows_on, grows_source};

    ghost can_take = { λ s m. CanGrow M.tells M.state s.temp.now m };

    ghost took = { λ bytes s m t n. GrowsAlone M.tells M.time M.state bytes s.temp.now m t.temp.now n };

    ghost reads = { λ s m n reads. grows_reads M.tells M.time M.state s.temp.now m n reads };

    ghost more = { λ a b s t u m n o first second.
        grows_more M.tells M.time M.state a b s.temp.now t.temp.now u.temp.now m n o first second };

    ghost goes_on = { λ bytes s t m n can took. grows_on M.tells M.time M.state bytes s.temp.now t.temp.now m
        n can took };

    ghost keeps = { λ bytes s t m n path can took told shown.
        grows_source M.tells M.time M.state bytes s.temp.now t.temp.now m n path can took told shown };

    fn take(&mut self, piece: &[u8], machine: &mut M) -> Result<(), DiskFault> {
        append(machine, self.temp, piece)?;
        Ok(())
    }
}

/// Appends these bytes.
pub fn append<M: Machine>(machine: &mut M, temp: &TempPath, bytes: &[u8]) -> Result<(), DiskFault>
    requires there { IsTrue M.tells → has (M.state machine.old).files temp.now ≡ true }
    ensures appends { Appends M.tells M.time M.state M.counts (CountsDisk result) temp.now machine.old machine.new }
    ensures grows { OnOk result (IsTrue M.tells
        → IsGrown temp.now bytes.now (M.state machine.old) (M.state machine.new)) }
    ensures taken { IsTrue M.tells → TakesNone (M.taken machine.old) (M.taken machine.new) }
{
    machine.append(temp, bytes)?;
    Ok(())
}

/// Appends a file's bytes from a place up to another, in pieces that go through the buffer. Zeros stand for bytes that
/// the machine doesn't give.
pub fn copy_part<M: Machine>(
    machine: &mut M,
    temp: &TempPath,
    file: &BootPath,
    from: u64,
    to: u64,
    buffer: &mut Buffer,
) -> Result<(), DiskFault>
    requires there { IsTrue M.tells → has (M.state machine.old).files temp.now ≡ true }
    ensures appends { Appends M.tells M.time M.state M.counts (CountsDisk result) temp.now machine.old machine.new }
    ensures grows { OnOk result (IsTrue M.tells
        → IsGrown temp.now (bytes_between (contents (M.state machine.old).files file.now) from to) (M.state machine.old)
        (M.state machine.new)) }
    ensures taken { IsTrue M.tells → TakesAtMost (to - from) (M.taken machine.old) (M.taken machine.new) }
{
    file.know();
    temp.know();
    let mut growing = Growing { temp };
    stream_range(
        machine,
        file,
        from,
        to.saturating_sub(from),
        &mut growing,
        buffer,
    )?;
    Ok(())
}
