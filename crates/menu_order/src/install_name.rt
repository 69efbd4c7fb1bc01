//! Names that an entry may be installed under.
ghost use Rattle.std.specs.Prelude.{◌≡◌, IfOk};
ghost use Rattle.std.specs.List.{list_all};
ghost use Rattle.menu_order.specs.InstallNames.{is_entry_name_byte, is_install_name, is_name_text};

use crate::counted::{Counted, Suffix};
use std::alloc::{AllocError, Global};

/// The most bytes of a name.
const NAME_LIMIT: usize = 128;

/// The name is one that an entry of this suffix may be installed under: with the suffix it has no boot counter.
pub fn is_install_name(alloc: Global, name: &str, suffix: Suffix) -> Result<bool, AllocError>
    ensures { IfOk result (λ is. is ≡ is_install_name suffix name.now) }
{
    if !is_name_text(name) {
        return Ok(false);
    }
    let suffix = suffix.as_str();
    let file = format!(in alloc; "{name}{suffix}")?;
    Ok(Counted::split(file.as_str()).is_none())
}

fn is_name_text(name: &str) -> bool
    ensures { result ≡ is_name_text name.now }
{
    !name.is_empty()
        && name.len() <= NAME_LIMIT
        && has_name_bytes(name)
        && !name.as_bytes().starts_with(b".")
}

fn has_name_bytes(name: &str) -> bool
    ensures { result ≡ list_all is_entry_name_byte name.now }
{
    name.bytes().all(|byte| byte.is_ascii_alphanumeric() || b"._~^+-".contains(&byte))
}
