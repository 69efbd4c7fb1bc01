//! Names of files.
ghost use Rattle.std.specs.Prelude.{◌≡◌, false, true, IfOk};
ghost use Rattle.boot_base.specs.Paths.{is_file_name};

use crate::components::{has_nul, is_one_component};
use crate::path::PathFault;
use std::alloc::Global;
use std::marker::Model;

/// The most bytes of a file's name.
const NAME_LIMIT: usize = 255;

/// The name of a file directly in a folder, temporary or not.
#[derive(Debug, Drop)]
pub struct FileName {
    text: String,
}

impl Model for FileName {
    ghost use Rattle.std.specs.Prelude.{◌≡◌, true, List, ℕ, string_bytes};
    ghost use Rattle.boot_base.specs.Paths.{is_file_name};

    ghost Value = { List ℕ };

    ghost view = { λ n. string_bytes n.text };

    ghost invariant = { λ n. is_file_name (string_bytes n.text) ≡ true };
}

impl FileName {
    /// The name with this text.
    ///
    /// # Errors
    ///
    /// `BadPath` exactly if the text is empty, `.` or `..`, holds `/` or NUL, or has more than 255 bytes; `Memory` if
    /// there is no memory.
    pub fn read(alloc: Global, text: &str) -> Result<FileName, PathFault>
        ensures ok { IfOk result (λ name. (is_file_name text.now ≡ true) × (name ≡ text.now)) }
        ensures bad { result ≡ Err PathFault.BadPath → is_file_name text.now ≡ false }
    {
        if !is_name(text) {
            return Err(PathFault::BadPath);
        }
        let text = String::from_str(alloc, text)?;
        Ok(FileName { text })
    }

    /// The name's text.
    pub fn as_str(&self) -> &str
        ensures text { result.now ≡ self.now }
        ensures name { is_file_name self.now ≡ true }
    {
        self.text.as_str()
    }
}

// The text is a name of a file.
#[tactic(auto, unfolding(crate::specs::Paths::is_file_name))]
fn is_name(text: &str) -> bool
    ensures { result ≡ is_file_name text.now }
{
    is_one_component(text) && text != ".." && !has_nul(text) && text.len() <= NAME_LIMIT
}
