//! Paths of files that aren't temporary.
ghost use Rattle.std.specs.Prelude.{◌≡◌, false, true, IfOk, string_bytes};
ghost use Rattle.std.specs.Str.{is_utf8};
ghost use Rattle.boot_base.specs.Paths.{intent, is_normal, is_temp};

use std::alloc::{AllocError, Global};
use std::marker::Model;

/// The path of the file that names a rename while it is made.
pub const INTENT: &str = "boot_tools.intent";

/// The path of a boot file or of the intent, below the folder that the machine stands on: components with a `/`
/// between each two, none of them `.` or `..`. It doesn't end in `.tmp`.
#[derive(Debug, Drop)]
pub struct FilePath {
    text: String,
}

impl Model for FilePath {
    ghost use Rattle.std.specs.Prelude.{◌≡◌, true, List, ℕ, string_bytes};
    ghost use Rattle.boot_base.specs.Paths.{is_normal};

    ghost Value = { List ℕ };

    ghost view = { λ p. string_bytes p.text };

    ghost invariant = { λ p. is_normal (string_bytes p.text) ≡ true };
}

impl FilePath {
    // The path of this text in normal form.
    pub(crate) fn of(text: String) -> FilePath
        requires { is_normal (string_bytes text) ≡ true }
        ensures { result ≡ string_bytes text }
    {
        FilePath { text }
    }

    /// `boot_tools.intent`, the path of the file that names a rename while it is made. No word names it.
    pub fn intent(alloc: Global) -> Result<FilePath, AllocError>
        ensures { IfOk result (λ path. path ≡ intent) }
    {
        let text = String::from_str(alloc, INTENT)?;
        Ok(FilePath { text })
    }

    /// The path's text, without a leading `/`.
    pub fn as_str(&self) -> &str
        ensures text { result.now ≡ self.now }
        ensures lasting { is_temp self.now ≡ false }
    {
        self.text.as_str()
    }

    /// A copy of the path.
    pub fn copy(&self, alloc: Global) -> Result<FilePath, AllocError>
        ensures { IfOk result (λ path. path ≡ self.now) }
    {
        let text = String::from_str(alloc, self.text.as_str())?;
        Ok(FilePath { text })
    }

    /// It says that the path isn't that of a temporary file, and does nothing.
    pub fn know(&self)
        ensures { is_temp self.now ≡ false }
    {
        let _ = &self.text;
    }

    /// It says that the path is a text in normal form, and does nothing.
    pub fn know_normal(&self)
        ensures normal { is_normal self.now ≡ true }
        ensures text { is_utf8 self.now ≡ true }
    {
        let _ = &self.text;
    }
}
