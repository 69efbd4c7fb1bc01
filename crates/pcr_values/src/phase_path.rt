//! Phase paths.
ghost use Rattle.std.specs.Prelude.{◌≡◌, ℕ, List, IfOk, Some, map, string_bytes};
ghost use Rattle.pcr_values.specs.Banks.{extend_all};
ghost use Rattle.pcr_values.specs.Values.{pcr_bank, pcr_bytes};
ghost use Rattle.pcr_values.specs.Phases.{HasDistinctPaths, default_phase_paths, path_text, phase_words};

use crate::pcr::Pcr;
use std::alloc::{AllocError, Global};
use std::cmp::Ordering;
use std::fmt;
use std::marker::Model;

/// The words of the phases that a boot has entered, in order; none of them is empty. Contracts see
/// the list of the words' bytes.
#[derive(Debug, Drop)]
pub struct PhasePath {
    words: Vec<String>,
}

impl Model for PhasePath {
    ghost use Rattle.std.specs.Prelude.{List, ℕ, map, string_bytes};

    ghost Value = { List (List ℕ) };

    ghost view = { λ path. map string_bytes path.words.items };
}

impl PhasePath {
    /// The words between the colons of the text, without the empty ones.
    pub fn read(alloc: Global, text: &str) -> Result<PhasePath, AllocError>
        ensures { IfOk result (λ path. path ≡ phase_words text.now) }
    {
        let mut words = Vec::new(alloc);
        for word in text.split(':') {
            if !word.is_empty() {
                words.push(String::from_str(alloc, word)?)?;
            }
        }
        Ok(PhasePath { words })
    }

    /// The words in order.
    pub fn words(&self) -> &[String]
        ensures { map string_bytes result.now ≡ self.now }
    {
        self.words.as_slice()
    }
}

impl PartialEq for PhasePath {
    ghost use Rattle.std.specs.Prelude.{bytes_eq};
    ghost use Rattle.std.specs.Cmp.Lexicographic.{pointwise};
    ghost use Rattle.std.specs.Cmp.{partial_equiv_from_equiv};
    ghost use Rattle.std.proofs.lemmas.Cmp.{lists_equiv, nat_list_eq_equiv};

    ghost eq = { pointwise bytes_eq };

    ghost laws = { partial_equiv_from_equiv (lists_equiv nat_list_eq_equiv) };

    fn eq(&self, other: &PhasePath) -> bool {
        self.words.as_slice() == other.words.as_slice()
    }
}

impl Eq for PhasePath {
    ghost use Rattle.std.proofs.lemmas.Cmp.{lists_equiv, nat_list_eq_equiv};

    ghost laws = { lists_equiv nat_list_eq_equiv };
}

impl PartialOrd for PhasePath {
    ghost use Rattle.std.specs.Ordering.{as_partial_cmp, nat_cmp};
    ghost use Rattle.std.specs.Cmp.Lexicographic.{lists_po, slice_cmp, slice_partial_cmp, texts_po};

    ghost partial_cmp = { slice_partial_cmp (as_partial_cmp (slice_cmp nat_cmp)) };

    ghost laws = { lists_po texts_po };

    fn partial_cmp(&self, other: &PhasePath) -> Option<Ordering> {
        self.words.as_slice().partial_cmp(&other.words.as_slice())
    }
}

/// Paths are ordered by the bytes of their words, word by word.
impl Ord for PhasePath {
    ghost use Rattle.std.specs.Prelude.{refl};
    ghost use Rattle.std.specs.Ordering.{nat_cmp};
    ghost use Rattle.std.specs.Cmp.Lexicographic.{lists_agrees, lists_ties, lists_total, nat_list_cmp_total, slice_cmp, texts_ties};

    ghost cmp = { slice_cmp (slice_cmp nat_cmp) };

    ghost total = { lists_total nat_list_cmp_total };

    ghost matches_partial_cmp = { λ one other. lists_agrees (λ _ _. refl) one other };

    ghost matches_eq = { λ one other. lists_ties (slice_cmp nat_cmp) texts_ties one other };

    fn cmp(&self, other: &PhasePath) -> Ordering {
        self.words.as_slice().cmp(&other.words.as_slice())
    }
}

/// The path as it is printed: its words joined by colons, and `:` for the path without words.
impl fmt::Display for PhasePath {
    ghost output = { λ path. Some (path_text path) };

    fn fmt<W: fmt::Write>(&self, f: &mut fmt::Formatter<W>) -> fmt::Result {
        let Some((first, rest)) = self.words.split_first() else {
            return f.write_str(":");
        };
        f.write_str(first.as_str())?;
        for word in rest {
            write!(f, ":{word}")?;
        }
        Ok(())
    }
}

/// The four paths that systemd predicts for where none is named, in order.
pub fn default_paths(alloc: Global) -> Result<Vec<PhasePath>, AllocError>
    ensures value { IfOk result (λ paths. paths.items ≡ default_phase_paths) }
    ensures distinct { IfOk result (λ paths. HasDistinctPaths paths.items) }
{
    let mut paths = Vec::new(alloc);
    paths.push(PhasePath::read(alloc, "enter-initrd")?)?;
    paths.push(PhasePath::read(alloc, "enter-initrd:leave-initrd")?)?;
    paths.push(PhasePath::read(alloc, "enter-initrd:leave-initrd:sysinit")?)?;
    paths.push(PhasePath::read(alloc, "enter-initrd:leave-initrd:sysinit:ready")?)?;
    Ok(paths)
}

/// A path that was read is the one that its printed text reads as, so two that print alike are one.
pub fn printed_paths_read_back()
    ensures { (text : List ℕ) → phase_words (path_text (phase_words text)) ≡ phase_words text }
{}

/// The register after each word of the path has extended it, without a NUL. It takes no memory.
pub fn after_phases(pcr: Pcr, path: &PhasePath) -> Pcr
    ensures bank { pcr_bank result ≡ pcr_bank pcr }
    ensures bytes { pcr_bytes result ≡ extend_all (pcr_bank pcr) (pcr_bytes pcr) path.now }
{
    let mut pcr = pcr;
    for word in path.words() {
        pcr = pcr.extend_data(word.as_bytes());
    }
    pcr
}
