//! Files that a command names.
ghost use Rattle.std.specs.Prelude.{◌≡◌, ◌≤◌, ◌<◌, ◌+◌, ◌^◌, IfOk, IsTrue, OnOk, Ok, Result, drop, length, true};
ghost use Rattle.boot_machine.specs.Prelude.{Counts, Looks, TakesAtMost, contents, fill_with_zeros, has, seen};
ghost use Rattle.pe_reader.specs.Prelude.{Headers, pe_of, CountsHead, FailsFrom, GivesFrom, ReadFrom, head_counts, head_limit, headers_of, pe_reason_text};
ghost use Rattle.pe_reader.specs.declared.fault.FailedCheck.{FailedCheck};
ghost use Rattle.command_plans.specs.Prelude.{printed_path, bytes_at, headers_or, image_at, CountsReadError, Says, ReadErrorFor, read_error_counts};
ghost use Rattle.boot_base.specs.Limits.{file_limit};

use crate::read_error::ReadError;
use crate::reading::seen_size;
use crate::word_error::{not_there, printed_path};
use boot_base::{BootPath, FILE_LIMIT, PeText, Refusal};
use boot_machine::{Machine, read_part, zeros};
use pe_reader::{HeadFault, Pe, PeReason};
use std::alloc::{AllocError, Global};

/// The refusal of a file of so many bytes, or of an image that would have so many: they are too many.
pub fn too_large(alloc: Global, path: &BootPath, size: u64) -> Result<Refusal, AllocError>
    ensures { IfOk result (λ why. why ≡ Refusal.TooLarge (printed_path path.now) size) }
{
    let path = printed_path(alloc, path)?;
    Ok(Refusal::TooLarge { path, size })
}

/// The size in bytes of the file at a path, which is refused unless it is there and has no more than are read. None of
/// its bytes are read.
pub fn readable_size<M: Machine>(
    alloc: Global,
    path: &BootPath,
    machine: &mut M,
) -> Result<u64, ReadError>
    ensures file { IsTrue M.tells → Says (λ _. contents (M.state machine.old).files path.now) result
        (bytes_at (seen (M.state machine.old)) path.now) }
    ensures size { IfOk result (λ size. IsTrue M.tells
        → length (contents (M.state machine.old).files path.now) ≡ size) }
    ensures there { OnOk result (IsTrue M.tells → has (M.state machine.old).files path.now ≡ true) }
    ensures small { OnOk result (IsTrue M.tells → length (contents (M.state machine.old).files path.now) ≤ file_limit) }
    ensures limit { IfOk result (λ size. size ≤ file_limit) }
    ensures held { OnOk result (IsTrue M.tells
        → contents (seen (M.state machine.old)) path.now ≡ contents (M.state machine.old).files path.now) }
    ensures looks { Looks M.tells M.time M.state M.counts (CountsReadError result) machine.old machine.new }
    ensures taken { IsTrue M.tells → TakesAtMost 0 (M.taken machine.old) (M.taken machine.new) }
{
    path.know();
    match seen_size(path, machine)? {
        None => Err(ReadError::Refused(not_there(alloc, path)?)),
        Some(size) if size > FILE_LIMIT => Err(ReadError::Refused(too_large(alloc, path, size)?)),
        Some(size) => Ok(size),
    }
}

/// The refusal of a file that is no PE32+ file: what the first failing check is about, and its place in bytes.
pub fn not_pe(alloc: Global, reason: PeReason, offset: u64) -> Result<Refusal, AllocError>
    ensures { IfOk result (λ why. why ≡ Refusal.NotPe (pe_reason_text reason) offset) }
{
    let reason = PeText::of(alloc, reason.text())?;
    Ok(Refusal::NotPe { reason, offset })
}

// What the failure to read headers comes to.
fn head_read_error(alloc: Global, fault: HeadFault) -> ReadError
    ensures meant { (read : Result Headers FailedCheck) → FailsFrom fault read → ReadErrorFor result (headers_or read) }
    ensures counts { (old new : Counts) → head_counts fault old new → read_error_counts result old new }
{
    match fault {
        HeadFault::Memory => ReadError::Memory,
        HeadFault::Disk => ReadError::Disk,
        HeadFault::NotPe { reason, offset } => match not_pe(alloc, reason, offset) {
            Ok(why) => ReadError::Refused(why),
            Err(AllocError) => ReadError::Memory,
        },
    }
}

/// The headers of the image at a path: of its bytes they alone are read, which are at most 69,463.
pub fn image_head<M: Machine>(
    alloc: Global,
    path: &BootPath,
    machine: &mut M,
) -> Result<Pe, ReadError>
    ensures image { IsTrue M.tells
        → Says (λ head. (contents (M.state machine.old).files path.now, headers_of head)) result
        (image_at (seen (M.state machine.old)) path.now) }
    ensures head { IfOk result (λ head. IsTrue M.tells
        → pe_of (contents (M.state machine.old).files path.now) ≡ Ok (headers_of head)) }
    ensures looks { Looks M.tells M.time M.state M.counts (CountsReadError result) machine.old machine.new }
    ensures taken { IsTrue M.tells → TakesAtMost head_limit (M.taken machine.old) (M.taken machine.new) }
{
    let size = readable_size(alloc, path, machine)?;
    sized_head(alloc, path, size, machine)
}

/// The headers of the file of `size` bytes at a path: of its bytes they alone are read, which are at most 69,463.
pub fn head_of_size<M: Machine>(
    alloc: Global,
    path: &BootPath,
    size: u64,
    machine: &mut M,
) -> Result<Pe, HeadFault>
    requires small { size ≤ file_limit }
    requires size { IsTrue M.tells → size ≡ length (contents (seen (M.state machine.old)) path.now) }
    ensures exact { IsTrue M.tells → GivesFrom headers_of result
        (pe_of (contents (seen (M.state machine.old)) path.now)) }
    ensures read { IfOk result (λ head. ReadFrom head size) }
    ensures looks { Looks M.tells M.time M.state M.counts (CountsHead result) machine.old machine.new }
    ensures taken { IsTrue M.tells → TakesAtMost head_limit (M.taken machine.old) (M.taken machine.new) }
{
    path.know();
    Pe::read_head(alloc, machine, path, size)
}

/// The headers of the image of `size` bytes at a path: of its bytes they alone are read, which are at most 69,463.
pub fn sized_head<M: Machine>(
    alloc: Global,
    path: &BootPath,
    size: u64,
    machine: &mut M,
) -> Result<Pe, ReadError>
    requires small { size ≤ file_limit }
    requires size { IsTrue M.tells → size ≡ length (contents (seen (M.state machine.old)) path.now) }
    ensures says { IsTrue M.tells → Says headers_of result
        (headers_or (pe_of (contents (seen (M.state machine.old)) path.now))) }
    ensures head { IfOk result (λ head. IsTrue M.tells
        → pe_of (contents (seen (M.state machine.old)) path.now) ≡ Ok (headers_of head)) }
    ensures read { IfOk result (λ head. ReadFrom head size) }
    ensures looks { Looks M.tells M.time M.state M.counts (CountsReadError result) machine.old machine.new }
    ensures taken { IsTrue M.tells → TakesAtMost head_limit (M.taken machine.old) (M.taken machine.new) }
{
    match head_of_size(alloc, path, size, machine) {
        Ok(head) => Ok(head),
        Err(fault) => Err(head_read_error(alloc, fault)),
    }
}

/// So many bytes of the file from that place on, and zeros for those that aren't there.
pub fn file_part<M: Machine>(
    alloc: Global,
    path: &BootPath,
    place: u64,
    count: u64,
    machine: &mut M,
) -> Result<Vec<u8>, ReadError>
    requires { place + count < 2 ^ 64 }
    ensures says { IsTrue M.tells → Says (λ bytes. bytes.items) result
        (Ok (fill_with_zeros (drop place (contents (seen (M.state machine.old)) path.now)) count)) }
    ensures looks { Looks M.tells M.time M.state M.counts (CountsReadError result) machine.old machine.new }
    ensures taken { IsTrue M.tells → TakesAtMost count (M.taken machine.old) (M.taken machine.new) }
{
    path.know();
    let mut bytes = zeros(alloc, count as usize)?;
    read_part(machine, path.file(), place, &mut bytes)?;
    Ok(bytes)
}

/// The bytes of the file at a path, each of them read once.
pub fn file_bytes<M: Machine>(
    alloc: Global,
    path: &BootPath,
    machine: &mut M,
) -> Result<Vec<u8>, ReadError>
    ensures says { IsTrue M.tells → Says (λ bytes. bytes.items) result
        (bytes_at (seen (M.state machine.old)) path.now) }
    ensures looks { Looks M.tells M.time M.state M.counts (CountsReadError result) machine.old machine.new }
    ensures taken { IsTrue M.tells
        → TakesAtMost (length (contents (seen (M.state machine.old)) path.now)) (M.taken machine.old)
        (M.taken machine.new) }
{
    let size = readable_size(alloc, path, machine)?;
    file_part(alloc, path, 0, size, machine)
}
