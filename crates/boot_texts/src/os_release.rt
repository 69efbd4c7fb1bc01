//! os-release texts.
ghost use Rattle.std.specs.Prelude.{◌≡◌, ◌==◌, IfOk, option_copied};
ghost use Rattle.std.specs.List.{before_first};
ghost use Rattle.boot_texts.specs.KeyValues.{last_value};
ghost use Rattle.boot_texts.specs.OsRelease.{filled_value, os_pairs, sort_key_of, title_of, version_of};

use crate::front::length_before;
use crate::os_line::read_line;
use crate::text_lines::TextLines;
use boot_base::Bytes;
use std::alloc::{AllocError, Global};
use std::marker::Model;

/// The assignments of an os-release text, by os-release(5). Contracts see the list of the keys and values
/// in order. Values are bytes, in any encoding.
#[derive(Debug, Drop)]
pub struct OsRelease {
    assignments: Vec<(Bytes, Bytes)>,
}

impl Model for OsRelease {
    ghost use Rattle.std.specs.Prelude.{List};
    ghost use Rattle.boot_texts.specs.KeyValues.{Pair};

    ghost Value = { List Pair };

    ghost view = { λ release. release.assignments.items };
}

impl OsRelease {
    /// The assignments of the text, which ends before its first NUL. Lines that are no assignment are passed over.
    pub fn read(alloc: Global, bytes: &[u8]) -> Result<OsRelease, AllocError>
        ensures { IfOk result (λ release. release ≡ os_pairs bytes.now) }
    {
        let mut assignments = Vec::new(alloc);
        for line in TextLines::of(before_nul(bytes)) {
            if let Some(assignment) = read_line(alloc, line)? {
                assignments.push(assignment)?;
            }
        }
        Ok(OsRelease { assignments })
    }

    /// The value of the last assignment of the key, which may be empty; None exactly where there is none.
    pub fn get(&self, key: &str) -> Option<&[u8]>
        ensures { option_copied result ≡ last_value key.now self.now }
    {
        last_assigned(self.assignments.as_slice(), key)
    }

    /// The title to show: the value of `PRETTY_NAME`, else `IMAGE_ID`, `NAME` or `ID`. An empty value counts
    /// as absent.
    pub fn title(&self) -> Option<&[u8]>
        ensures { option_copied result ≡ title_of self.now }
    {
        let name = self.filled_value("NAME").or(self.filled_value("ID"));
        self.filled_value("PRETTY_NAME")
            .or(self.filled_value("IMAGE_ID").or(name))
    }

    /// The version: the value of `IMAGE_VERSION`, else `VERSION`, `VERSION_ID` or `BUILD_ID`. An empty value
    /// counts as absent.
    pub fn version(&self) -> Option<&[u8]>
        ensures { option_copied result ≡ version_of self.now }
    {
        let version = self
            .filled_value("VERSION_ID")
            .or(self.filled_value("BUILD_ID"));
        self.filled_value("IMAGE_VERSION")
            .or(self.filled_value("VERSION").or(version))
    }

    /// What entries are ordered by: the value of `IMAGE_ID`, else `ID`. An empty value counts as absent.
    pub fn sort_key(&self) -> Option<&[u8]>
        ensures { option_copied result ≡ sort_key_of self.now }
    {
        self.filled_value("IMAGE_ID").or(self.filled_value("ID"))
    }

    // The value of the key, if it isn't empty.
    fn filled_value(&self, key: &str) -> Option<&[u8]>
        ensures { option_copied result ≡ filled_value key.now self.now }
    {
        match self.get(key) {
            Some(value) if !value.is_empty() => Some(value),
            _ => None,
        }
    }
}

// The bytes before the first NUL, or all.
fn before_nul(bytes: &[u8]) -> &[u8]
    ensures { result.now ≡ before_first (λ byte. byte == 0) bytes.now }
{
    &bytes[..length_before(bytes, 0)]
}

// The value of the last assignment of the key.
fn last_assigned<'a>(assignments: &'a [(Bytes, Bytes)], key: &str) -> Option<&'a [u8]>
    ensures { option_copied result ≡ last_value key.now assignments.now }
{
    let mut found = None;
    for (assigned, value) in assignments {
        if assigned.as_slice() == key.as_bytes() {
            found = Some(value.as_slice());
        }
    }
    found
}
