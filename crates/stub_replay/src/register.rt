//! Registers of several banks that the same data extends.
ghost use Rattle.std.specs.Prelude.{◌≡◌, [], IfOk, map};
ghost use Rattle.std.specs.List.{AllZip};
ghost use Rattle.stub_replay.specs.Registers.{Holds, AllHold, IsHeld, AreHeld, Takes, Closes};

use crate::measured::after_name;
use boot_machine::{ByteSink, DiskFault, Machine};
use pcr_values::{Bank, DataHash, Pcr};
use std::alloc::{AllocError, Global};
use std::mem;

/// A register, and the hash of the data that is to extend it.
#[derive(Drop)]
pub(crate) struct Register {
    pub(crate) pcr: Pcr,
    pub(crate) hash: DataHash,
}

impl Register {
    ghost use Rattle.std.specs.Prelude.{[]};
    ghost use Rattle.stub_replay.specs.Registers.{Holds, IsHeld, Takes, Closes};

    /// The register of the bank at the start.
    pub(crate) fn new(bank: Bank) -> Register
        ensures { Holds result bank [] [] }
    {
        Register {
            pcr: Pcr::zero(bank),
            hash: DataHash::new(bank),
        }
    }

    // Takes the bytes into the hash.
    fn update(&mut self, bytes: &[u8])
        ensures { Takes bytes.now self.old self.new }
    {
        self.hash.update(bytes);
    }

    // Extends the register by the name with one NUL, and by what the hash has taken.
    fn close(&mut self, name: &[u8])
        requires { IsHeld self.old }
        ensures { Closes name.now self.old self.new }
    {
        let next = DataHash::new(self.pcr.bank());
        let hash = mem::replace(&mut self.hash, next);
        self.pcr = after_name(self.pcr, name).extend_digest(&hash.finish());
    }
}

/// Registers whose hashes take bytes that are streamed.
#[derive(Drop)]
pub(crate) struct Hashes<'a> {
    pub(crate) registers: &'a mut [Register],
}

impl<M: Machine> ByteSink<M> for Hashes<'_> {
    ghost use Rattle.std.specs.Prelude.{◌≡◌, refl};
    ghost use Rattle.std.proofs.Common.{ap, ◌∙◌};
    ghost use Rattle.boot_machine.specs.Prelude.{contents};
    ghost use Rattle.boot_machine.proofs.Reading.{reads_on};
    ghost use Rattle.stub_replay.specs.Taking.{TakesReading};
    ghost use Rattle.stub_replay.specs.proofs.TakingLaws.{takes_none, takes_more};

    ghost can_take = { λ s m. Unit {0} };

    ghost took = { λ bytes s m t n.
        TakesReading M.tells M.time M.state bytes s.registers.now m t.registers.now n
        × (t.registers.ghost_name ≡ s.registers.ghost_name) };

    ghost reads = { λ s m n reads. ((takes_none s.registers.now, reads), refl) };

    ghost more = { λ a b s t u m n o first second. (
      (
        takes_more a b s.registers.now t.registers.now u.registers.now first.0.0 second.0.0,
        λ told. reads_on M.time M.state m n o (first.0.1 told) (second.0.1 told),
      ),
      second.1 ∙ first.1,
    ) };

    ghost goes_on = { λ bytes s t m n can took. tt };

    ghost keeps = { λ bytes s t m n path can took told shown. ap (λ v. contents v.files path) (took.0.1 told).same };

    fn take(&mut self, piece: &[u8], _machine: &mut M) -> Result<(), DiskFault> {
        update_all(self.registers, piece);
        Ok(())
    }
}

/// The registers of the banks at the start, in their order.
pub(crate) fn begin_all(alloc: Global, banks: &[Bank]) -> Result<Vec<Register>, AllocError>
    ensures { IfOk result (λ registers. AllHold registers.items banks.now [] []) }
{
    let mut registers = Vec::new(alloc);
    for bank in banks {
        registers.push(Register::new(*bank))?;
    }
    Ok(registers)
}

/// Takes the bytes into the hash of each register.
pub(crate) fn update_all(registers: &mut [Register], bytes: &[u8])
    ensures { AllZip (Takes bytes.now) registers.old registers.new }
{
    for register in registers.iter_mut() {
        register.update(bytes);
    }
}

/// Extends each register by the name with one NUL, and by what its hash has taken.
pub(crate) fn close_all(registers: &mut [Register], name: &[u8])
    requires { AreHeld registers.old }
    ensures { AllZip (Closes name.now) registers.old registers.new }
{
    for register in registers.iter_mut() {
        register.close(name);
    }
}

/// The values of the registers, in their order.
pub(crate) fn values(alloc: Global, registers: &[Register]) -> Result<Vec<Pcr>, AllocError>
    ensures { IfOk result (λ values. values.items ≡ map (λ register. register.pcr) registers.now) }
{
    let mut values = Vec::new(alloc);
    for register in registers {
        values.push(register.pcr)?;
    }
    Ok(values)
}
