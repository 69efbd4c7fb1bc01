//! The banks and the phase paths that a command's words choose.
ghost use Rattle.std.specs.Prelude.{◌≡◌, ◌≢◌, bytes_eq, false, map, IfOk, AllPairs, filter_map};
ghost use Rattle.std.specs.Cmp.Lexicographic.{pointwise};
ghost use Rattle.pcr_values.specs.Prelude.{bank_named, HasDistinctPaths, phase_words};
ghost use Rattle.pcr_values.specs.declared.bank.Bank.{Bank};
ghost use Rattle.command_plans.specs.Prelude.{banks_of, without_repeats, paths_of};

use boot_base::Text;
use pcr_values::{Bank, PhasePath, default_paths};
use std::alloc::{AllocError, Global};
use std::collections::BTreeSet;

// The items without repetitions: the first of those that are equal keeps its place. Each item is compared with those
// that are kept, which are few.
fn without_repeats<T: Eq + Drop>(alloc: Global, items: Vec<T>) -> Result<Vec<T>, AllocError>
    ensures value { IfOk result (λ kept. kept.items ≡ without_repeats T.eq items.items) }
    ensures distinct { IfOk result (λ kept. AllPairs (λ one other. T.eq other one ≡ false) kept.items) }
{
    let mut kept = Vec::new(alloc);
    for item in items {
        if !kept.contains(&item) {
            kept.push(item)?;
        }
    }
    Ok(kept)
}

// The banks of these names, in order. A name of no bank gives none.
fn banks_named(alloc: Global, names: &[Text]) -> Result<Vec<Bank>, AllocError>
    ensures { IfOk result (λ banks. banks.items ≡ filter_map bank_named names.now) }
{
    let mut banks = Vec::new(alloc);
    for name in names {
        if let Some(bank) = Bank::from_name(name.as_str()) {
            banks.push(bank)?;
        }
    }
    Ok(banks)
}

/// The banks of these names, each once; all where no name is given. A name of no bank gives none.
pub fn banks_of(alloc: Global, names: &[Text]) -> Result<Vec<Bank>, AllocError>
    ensures value { IfOk result (λ banks. banks.items ≡ banks_of names.now) }
    ensures distinct { IfOk result (λ banks. AllPairs (λ one other. one ≢ other) banks.items) }
{
    if names.is_empty() {
        return Vec::from_slice(alloc, &Bank::ALL);
    }
    let banks = banks_named(alloc, names)?;
    without_repeats(alloc, banks)
}

// The phase paths of these texts, each once: the first text of a path gives its place. A set tells which paths are
// there, so that many different ones take no time that grows with their square.
fn paths_named(alloc: Global, texts: &[Text]) -> Result<Vec<PhasePath>, AllocError>
    ensures value { IfOk result
        (λ paths. paths.items ≡ without_repeats (pointwise bytes_eq) (map phase_words texts.now)) }
    ensures distinct { IfOk result (λ paths. HasDistinctPaths paths.items) }
{
    let mut seen = BTreeSet::new(alloc);
    let mut paths = Vec::new(alloc);
    for text in texts {
        if seen.insert(PhasePath::read(alloc, text.as_str())?)? {
            paths.push(PhasePath::read(alloc, text.as_str())?)?;
        }
    }
    Ok(paths)
}

/// The phase paths of these texts, each once; the default ones where no text is given.
pub fn paths_of(alloc: Global, texts: &[Text]) -> Result<Vec<PhasePath>, AllocError>
    ensures value { IfOk result (λ paths. paths.items ≡ paths_of texts.now) }
    ensures distinct { IfOk result (λ paths. HasDistinctPaths paths.items) }
{
    if texts.is_empty() {
        return default_paths(alloc);
    }
    paths_named(alloc, texts)
}
