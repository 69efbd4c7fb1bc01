//! The folders of boot entries that a word names, and their menu.
ghost use Rattle.std.specs.Prelude.{◌≡◌, IfOk, IsTrue};
ghost use Rattle.boot_entries.specs.Entries.{IsEntry};
ghost use Rattle.boot_entries.specs.Scanning.{scan_limit};
ghost use Rattle.boot_machine.specs.Prelude.{Looks, TakesAtMost, seen};
ghost use Rattle.command_plans.specs.Prelude.{CountsReadError, Says, Means, folders_of, menu_at, menu_read_error};
ghost use Rattle.menu_order.specs.Menu.{IsMenu};

use crate::read_error::ReadError;
use crate::word_error::{WordError, path_in, path_under};
use boot_base::{ENTRIES, IMAGES, Refusal};
use boot_entries::{Folders, MenuFault, scan_folders};
use boot_machine::Machine;
use menu_order::MenuItem;
use std::alloc::Global;

/// The folders of the EFI system partition that a word names, or the first refusal.
pub fn folders_in(alloc: Global, esp: &str) -> Result<Folders, WordError>
    ensures { Means (λ folders. folders) result (folders_of esp.now) }
{
    let esp = path_in(alloc, esp)?;
    let entries = path_under(alloc, &esp, ENTRIES)?;
    let images = path_under(alloc, &esp, IMAGES)?;
    Ok(Folders { entries, images })
}

// Why nothing is said of folders that have no menu.
fn menu_read_error(fault: MenuFault) -> ReadError
    ensures { result ≡ menu_read_error fault }
{
    match fault {
        MenuFault::Memory => ReadError::Memory,
        MenuFault::Disk => ReadError::Disk,
        MenuFault::TooMany { count } => ReadError::Refused(Refusal::TooMany { count }),
    }
}

/// The menu of two folders, unless they have more than 4,096 entry files. Only headers and texts are read.
pub fn menu_at<M: Machine>(
    alloc: Global,
    folders: &Folders,
    machine: &mut M,
) -> Result<Vec<MenuItem>, ReadError>
    ensures says { IsTrue M.tells
        → Says (λ menu. menu.items) result (menu_at (seen (M.state machine.old)) folders.now) }
    ensures menu { IfOk result (λ menu. IsTrue M.tells
        → IsMenu (IsEntry (M.state machine.old).files folders.now) menu.items) }
    ensures looks { Looks M.tells M.time M.state M.counts (CountsReadError result) machine.old machine.new }
    ensures taken { IsTrue M.tells → TakesAtMost
        (scan_limit (M.state machine.old).files folders.now) (M.taken machine.old) (M.taken machine.new) }
{
    match scan_folders(alloc, machine, folders) {
        Ok(menu) => Ok(menu),
        Err(fault) => Err(menu_read_error(fault)),
    }
}
