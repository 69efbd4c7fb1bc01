//! Where payloads stand.
ghost use Rattle.std.specs.Prelude.{◌≡◌, replicate, IfOk, true};
ghost use Rattle.boot_base.specs.Paths.{under};
ghost use Rattle.boot_texts.specs.EntryText.{is_payload_name};
ghost use Rattle.command_plans.specs.Prelude.{Means, path_under};
ghost use Rattle.type1_install.specs.Installing.{payload_probe};
ghost use Rattle.type1_install.specs.Payloads.{HasRoom, payload_folder};

use boot_base::{BootPath, PAYLOADS, PathFault};
use command_plans::{WordError, file_under};
use std::alloc::{AllocError, Global};

/// A name as long as that of each payload.
const PROBE_NAME: &str = "0000000000000000000000000000000000000000000000000000000000000000";

/// The folder of an ESP's payloads, or the refusal of the longest path in it.
pub(crate) fn payload_folder(alloc: Global, esp: &BootPath) -> Result<BootPath, WordError>
    ensures means { Means (λ folder. under folder (replicate 64 48)) result (path_under esp.now payload_probe) }
    ensures folder { IfOk result (λ folder. folder ≡ payload_folder esp.now) }
    ensures room { IfOk result (λ folder. HasRoom folder) }
{
    esp.know_normal();
    let probe = file_under(alloc, esp, PAYLOADS, PROBE_NAME)?;
    drop(probe);
    Ok(folder_below(alloc, esp)?)
}

// The folder of an ESP's payloads, in which each of them has a path.
fn folder_below(alloc: Global, esp: &BootPath) -> Result<BootPath, AllocError>
    requires { HasRoom (payload_folder esp.now) }
    ensures { IfOk result (λ folder. folder ≡ payload_folder esp.now) }
{
    esp.know_normal();
    match BootPath::under(alloc, esp, PAYLOADS) {
        Ok(folder) => Ok(folder),
        Err(PathFault::Memory) => Err(AllocError),
        Err(PathFault::BadPath) => unreachable!(),
    }
}

/// The path of the payload of that name.
pub(crate) fn payload_path(
    alloc: Global,
    folder: &BootPath,
    name: &str,
) -> Result<BootPath, AllocError>
    requires room { HasRoom folder.now }
    requires name { is_payload_name name.now ≡ true }
    ensures { IfOk result (λ path. path ≡ under folder.now name.now) }
{
    folder.know_normal();
    match BootPath::under(alloc, folder, name) {
        Ok(path) => Ok(path),
        Err(PathFault::Memory) => Err(AllocError),
        Err(PathFault::BadPath) => unreachable!(),
    }
}
