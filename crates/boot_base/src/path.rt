//! Paths of boot files.
ghost use Rattle.std.specs.Prelude.{◌≡◌, false, true, Some, None, IfOk, string_bytes, if◌then◌else◌};
ghost use Rattle.std.specs.Str.{is_utf8};
ghost use Rattle.boot_base.specs.Paths.{IsFree, is_nameable, is_normal, is_temp, components, is_path_text, path_of, path_below, file_name_of, beside, sibling_of};

use crate::append::{AppendText, append_displayed};
use crate::components::{
    has_component, has_nul, has_refused_component, is_one_component, joined_with, normal_text,
};
use crate::file_path::{FilePath, INTENT};
use crate::temp_path::ends_as_temp;
use std::alloc::{AllocError, Global};
use std::cmp::Ordering;
use std::marker::Model;
use std::{fmt, str};
use thiserror::Error;

/// The most bytes of a path.
const PATH_LIMIT: usize = 1024;

/// Why there is no path or name.
#[derive(Clone, Copy, Debug, PartialEq, Eq, Error)]
pub enum PathFault {
    /// There was no memory for it.
    #[error("out of memory")]
    Memory,
    /// The text is no path, or no name.
    #[error("not a path")]
    BadPath,
}

impl From<AllocError> for PathFault {
    ghost use Rattle.std.specs.Prelude.{◌≡◌};
    ghost use Rattle.boot_base.specs.declared.path.PathFault.TheVariants.{Memory};

    ghost from_gives = { λ _ fault. fault ≡ Memory };

    fn from(_error: AllocError) -> PathFault {
        PathFault::Memory
    }
}

/// A path that a command may name: that of a file or folder below the folder that the machine stands on, and not the
/// intent's. It doesn't end in `.tmp`.
#[derive(Debug, Drop)]
pub struct BootPath {
    file: FilePath,
}

impl Model for BootPath {
    ghost use Rattle.std.specs.Prelude.{List, ℕ};
    ghost use Rattle.boot_base.specs.Paths.{IsFree};

    ghost Value = { List ℕ };

    ghost view = { λ p. p.file };

    ghost invariant = { λ p. IsFree p.file };
}

impl BootPath {
    /// The path that a word names: its components without the empty ones and `.`, joined by `/`.
    ///
    /// # Errors
    ///
    /// `BadPath` exactly if a component is `..` or has more than 251 bytes, a NUL is there, or what is left is empty,
    /// has more than 1,024 bytes, ends in `.tmp` or is `boot_tools.intent`; `Memory` if there is no memory.
    pub fn read(alloc: Global, text: &str) -> Result<BootPath, PathFault>
        ensures ok { IfOk result (λ path. path_of text.now ≡ Some path) }
        ensures bad { result ≡ Err PathFault.BadPath → path_of text.now ≡ None }
    {
        if has_nul(text) || has_refused_component(text) {
            return Err(PathFault::BadPath);
        }
        let text = normal_text(alloc, text)?;
        if !is_boot_text(text.as_str()) {
            return Err(PathFault::BadPath);
        }
        Ok(BootPath {
            file: FilePath::of(text),
        })
    }

    /// The path whose text these bytes are, and None if they aren't the normal form of a path that a word may name.
    /// An intent's names are read by it.
    pub fn from_bytes(alloc: Global, bytes: &[u8]) -> Result<Option<BootPath>, AllocError>
        ensures { IfOk result (λ path. path ≡ (if is_nameable bytes.now then Some bytes.now else None)) }
    {
        let Ok(text) = str::from_utf8(bytes) else {
            return Ok(None);
        };
        match BootPath::read(alloc, text) {
            Ok(path) => {
                if path.as_str() == text {
                    return Ok(Some(path));
                }
                Ok(None)
            }
            Err(PathFault::BadPath) => Ok(None),
            Err(PathFault::Memory) => Err(AllocError),
        }
    }

    /// The path as a machine's calls take it. It is neither that of a temporary file nor the intent's.
    pub fn file(&self) -> &FilePath
        ensures path { result.now ≡ self.now }
        ensures lasting { is_temp self.now ≡ false }
        ensures free { IsFree self.now }
    {
        self.file.know();
        &self.file
    }

    /// Turns the path into the `FilePath` that a machine's calls take.
    pub fn into_file(self) -> FilePath
        ensures { result ≡ self }
    {
        self.file
    }

    /// The path's text, without a leading `/`.
    pub fn as_str(&self) -> &str
        ensures text { result.now ≡ self.now }
        ensures lasting { is_temp self.now ≡ false }
    {
        self.file.as_str()
    }

    /// The last component.
    pub fn file_name(&self) -> &str
        ensures { result.now ≡ file_name_of self.now }
    {
        let text = self.file.as_str();
        match text.rsplit_once('/') {
            Some((_, name)) => name,
            None => text,
        }
    }

    /// The path that `read` gives for the folder's text, `/` and what is below it.
    ///
    /// # Errors
    ///
    /// As of `read`; a `below` without a component is no path.
    pub fn under(alloc: Global, folder: &BootPath, below: &str) -> Result<BootPath, PathFault>
        ensures ok { IfOk result (λ path. path_below folder.now below.now ≡ Some path) }
        ensures bad { result ≡ Err PathFault.BadPath → path_below folder.now below.now ≡ None }
    {
        if !has_component(below) {
            return Err(PathFault::BadPath);
        }
        let joined = joined_with(alloc, folder.as_str(), "/", below)?;
        BootPath::read(alloc, joined.as_str())
    }

    /// The path of the file of that name in the same folder: the last component replaced by `name`.
    ///
    /// # Errors
    ///
    /// `BadPath` exactly if `name` is empty, is `.` or holds `/`, or the new text is no path by `read`.
    pub fn sibling(&self, alloc: Global, name: &str) -> Result<BootPath, PathFault>
        ensures ok { IfOk result (λ path. sibling_of self.now name.now ≡ Some path) }
        ensures bad { result ≡ Err PathFault.BadPath → sibling_of self.now name.now ≡ None }
    {
        if !is_one_component(name) {
            return Err(PathFault::BadPath);
        }
        let text = self.beside(alloc, name)?;
        BootPath::read(alloc, text.as_str())
    }

    // The path's text with its last component replaced.
    fn beside(&self, alloc: Global, name: &str) -> Result<String, AllocError>
        ensures { IfOk result (λ text. string_bytes text ≡ beside self.now name.now) }
    {
        match self.file.as_str().rsplit_once('/') {
            Some((folder, _)) => joined_with(alloc, folder, "/", name),
            None => String::from_str(alloc, name),
        }
    }

    /// A copy of the path.
    pub fn copy(&self, alloc: Global) -> Result<BootPath, AllocError>
        ensures { IfOk result (λ path. path ≡ self.now) }
    {
        let file = self.file.copy(alloc)?;
        Ok(BootPath { file })
    }

    /// It says that the path is neither that of a temporary file nor the intent's, and does nothing.
    pub fn know(&self)
        ensures lasting { is_temp self.now ≡ false }
        ensures free { IsFree self.now }
    {
        self.file.know();
    }

    /// It says that the path is a text in normal form, and not the intent's, and does nothing.
    pub fn know_normal(&self)
        ensures normal { is_normal self.now ≡ true }
        ensures text { is_utf8 self.now ≡ true }
        ensures free { IsFree self.now }
    {
        self.file.know_normal();
    }
}

impl fmt::Display for BootPath {
    ghost use Rattle.std.specs.Prelude.{Some, ◌∷◌};

    ghost output = { λ path. Some (47 ∷ path) };

    fn fmt<W: fmt::Write>(&self, f: &mut fmt::Formatter<W>) -> fmt::Result {
        let text = self.as_str();
        write!(f, "/{text}")
    }
}

/// A path is printed with a leading `/`.
impl AppendText for BootPath {
    ghost use Rattle.std.specs.Prelude.{◌∷◌};

    ghost text = { λ path. 47 ∷ path };

    fn append_to(&self, out: &mut Vec<u8>) -> Result<(), AllocError> {
        append_displayed(self, out)
    }
}

/// Paths are ordered by the bytes of their texts.
impl Ord for BootPath {
    ghost use Rattle.std.specs.Ordering.{nat_cmp};
    ghost use Rattle.std.specs.Cmp.Lexicographic.{slice_cmp, nat_list_cmp_total};
    ghost use Rattle.std.specs.Prelude.{refl};

    ghost cmp = { slice_cmp nat_cmp };

    ghost total = { nat_list_cmp_total };

    ghost matches_partial_cmp = { λ _ _. refl };

    ghost matches_eq = { λ _ _. refl };

    fn cmp(&self, other: &BootPath) -> Ordering {
        self.as_str().cmp(other.as_str())
    }
}

impl PartialOrd for BootPath {
    ghost use Rattle.std.specs.Ordering.{nat_cmp, as_partial_cmp};
    ghost use Rattle.std.specs.Cmp.{partial_order_from_total};
    ghost use Rattle.std.specs.Cmp.Lexicographic.{slice_cmp, nat_list_cmp_total};

    ghost partial_cmp = { as_partial_cmp (slice_cmp nat_cmp) };

    ghost laws = { partial_order_from_total nat_list_cmp_total };

    fn partial_cmp(&self, other: &BootPath) -> Option<Ordering> {
        Some(self.cmp(other))
    }
}

impl PartialEq for BootPath {
    ghost use Rattle.std.specs.Ordering.{nat_cmp, eq_by_cmp};
    ghost use Rattle.std.specs.Cmp.{partial_equiv_from_equiv};
    ghost use Rattle.std.specs.Cmp.Lexicographic.{slice_cmp, nat_list_cmp_total};
    ghost use Rattle.std.proofs.lemmas.Cmp.{eq_by_cmp_equiv};

    ghost eq = { eq_by_cmp (slice_cmp nat_cmp) };

    ghost laws = { partial_equiv_from_equiv (eq_by_cmp_equiv nat_list_cmp_total) };

    fn eq(&self, other: &BootPath) -> bool {
        self.cmp(other) == Ordering::Equal
    }
}

impl Eq for BootPath {
    ghost use Rattle.std.specs.Cmp.Lexicographic.{nat_list_cmp_total};
    ghost use Rattle.std.proofs.lemmas.Cmp.{eq_by_cmp_equiv};

    ghost laws = { eq_by_cmp_equiv nat_list_cmp_total };
}

// The text is one that a path has.
fn is_boot_text(text: &str) -> bool
    ensures { result ≡ is_path_text text.now }
{
    !(text.is_empty() || text.len() > PATH_LIMIT || ends_as_temp(text)) && text != INTENT
}
