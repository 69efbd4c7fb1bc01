//! Paths of temporary files, and where a file is to stand.
ghost use Rattle.std.specs.Prelude.{◌≡◌, ◌++◌, true, IfOk};
ghost use Rattle.boot_base.specs.Paths.{IsFree, TempNamesAreFileNames, file_name_of, is_file_name, is_temp, leftover_of, temp_end};

use crate::components::joined_with;
use crate::file_name::FileName;
use crate::file_path::FilePath;
use crate::path::BootPath;
use std::alloc::{AllocError, Global};
use std::cmp::Ordering;
use std::marker::Model;

/// What the path of a temporary file has behind that of the file that it is for.
pub const TEMP_SUFFIX: &str = ".tmp";

/// The path of a temporary file. It ends in `.tmp`, and its last component is a file's name.
#[derive(Debug, Drop)]
pub struct TempPath {
    text: String,
}

impl Model for TempPath {
    ghost use Rattle.std.specs.Prelude.{◌≡◌, true, List, ℕ, string_bytes};
    ghost use Rattle.boot_base.specs.Paths.{is_temp_path};

    ghost Value = { List ℕ };

    ghost view = { λ p. string_bytes p.text };

    ghost invariant = { λ p. is_temp_path (string_bytes p.text) ≡ true };
}

impl TempPath {
    /// Where the file of that path is written first: its path with `.tmp` behind it.
    pub fn of(alloc: Global, path: &FilePath) -> Result<TempPath, AllocError>
        ensures { IfOk result (λ temp. temp ≡ path.now ++ temp_end) }
    {
        path.know_normal();
        let mut text = String::from_str(alloc, path.as_str())?;
        text.push_str(TEMP_SUFFIX)?;
        Ok(TempPath { text })
    }

    /// The path of a file of that name in the folder, where the name is that of a temporary file: None
    /// exactly where it doesn't end in `.tmp`.
    pub fn leftover(
        alloc: Global,
        folder: &BootPath,
        name: &FileName,
    ) -> Result<Option<TempPath>, AllocError>
        ensures { IfOk result (λ temp. temp ≡ leftover_of folder.now name.now) }
    {
        let name = name.as_str();
        if !ends_as_temp(name) {
            return Ok(None);
        }
        let text = joined_with(alloc, folder.as_str(), "/", name)?;
        Ok(Some(TempPath { text }))
    }

    /// The path's text, without a leading `/`.
    pub fn as_str(&self) -> &str
        ensures text { result.now ≡ self.now }
        ensures passing { is_temp self.now ≡ true }
        ensures named { is_file_name (file_name_of self.now) ≡ true }
    {
        self.text.as_str()
    }

    /// It says that the path is that of a temporary file, and does nothing.
    pub fn know(&self)
        ensures { is_temp self.now ≡ true }
    {
        let _ = &self.text;
    }
}

/// Paths are ordered by the bytes of their texts.
impl Ord for TempPath {
    ghost use Rattle.std.specs.Ordering.{nat_cmp};
    ghost use Rattle.std.specs.Cmp.Lexicographic.{slice_cmp, nat_list_cmp_total};
    ghost use Rattle.std.specs.Prelude.{refl};

    ghost cmp = { slice_cmp nat_cmp };

    ghost total = { nat_list_cmp_total };

    ghost matches_partial_cmp = { λ _ _. refl };

    ghost matches_eq = { λ _ _. refl };

    fn cmp(&self, other: &TempPath) -> Ordering {
        self.text.as_str().cmp(other.text.as_str())
    }
}

impl PartialOrd for TempPath {
    ghost use Rattle.std.specs.Ordering.{nat_cmp, as_partial_cmp};
    ghost use Rattle.std.specs.Cmp.{partial_order_from_total};
    ghost use Rattle.std.specs.Cmp.Lexicographic.{slice_cmp, nat_list_cmp_total};

    ghost partial_cmp = { as_partial_cmp (slice_cmp nat_cmp) };

    ghost laws = { partial_order_from_total nat_list_cmp_total };

    fn partial_cmp(&self, other: &TempPath) -> Option<Ordering> {
        Some(self.cmp(other))
    }
}

impl PartialEq for TempPath {
    ghost use Rattle.std.specs.Ordering.{nat_cmp, eq_by_cmp};
    ghost use Rattle.std.specs.Cmp.{partial_equiv_from_equiv};
    ghost use Rattle.std.specs.Cmp.Lexicographic.{slice_cmp, nat_list_cmp_total};
    ghost use Rattle.std.proofs.lemmas.Cmp.{eq_by_cmp_equiv};

    ghost eq = { eq_by_cmp (slice_cmp nat_cmp) };

    ghost laws = { partial_equiv_from_equiv (eq_by_cmp_equiv nat_list_cmp_total) };

    fn eq(&self, other: &TempPath) -> bool {
        self.cmp(other) == Ordering::Equal
    }
}

impl Eq for TempPath {
    ghost use Rattle.std.specs.Cmp.Lexicographic.{nat_list_cmp_total};
    ghost use Rattle.std.proofs.lemmas.Cmp.{eq_by_cmp_equiv};

    ghost laws = { eq_by_cmp_equiv nat_list_cmp_total };
}

/// The name of a target's temporary file is a file name, whatever path of a boot file the target has.
pub fn temp_names_are_file_names()
    ensures { TempNamesAreFileNames }
{}

/// Where a file is to stand, and where it is written first.
#[derive(Debug, Drop)]
pub struct Target {
    pub path: FilePath,
    /// The path with `.tmp` behind it.
    pub temp: TempPath,
    /// A command may name the path.
    pub ghost free: { IsFree path },
    /// The temporary file stands beside the path that it is for.
    pub ghost beside: { temp ≡ path ++ temp_end },
}

impl Target {
    /// The target at that path, and its temporary file beside it.
    pub fn of(alloc: Global, path: BootPath) -> Result<Target, AllocError>
        ensures path { IfOk result (λ target. target.path ≡ path) }
        ensures temp { IfOk result (λ target. target.temp ≡ path ++ temp_end) }
    {
        path.know();
        let path = path.into_file();
        let temp = TempPath::of(alloc, &path)?;
        Ok(Target { path, temp })
    }
}

/// Whether a path is that of a temporary file.
#[tactic(auto, unfolding(crate::specs::Paths::is_temp))]
pub fn ends_as_temp(text: &str) -> bool
    ensures { result ≡ is_temp text.now }
{
    text.as_bytes().ends_with(TEMP_SUFFIX.as_bytes())
}
