//! Names of one boot entry, and the moves between them.
ghost use Rattle.std.specs.Prelude.{◌≡◌, option_map};
ghost use Rattle.boot_base.specs.Intents.{names_of};
ghost use Rattle.menu_order.specs.Splits.{has_suffix, stem_of};
ghost use Rattle.fat_rules.specs.Entries.{entry_parts, first_there, folder_part, is_one_entry, is_own_move, parts_of_entry, same_entry, same_suffix, uncounted_as};

use boot_base::{BootPath, IntentNames};
use menu_order::{Counted, Suffix};

/// The name of an entry's file without its counter.
#[derive(Clone, Copy, Debug)]
pub struct EntryName<'a> {
    /// What stands before the counter and the suffix.
    pub base: &'a [u8],
    pub suffix: Suffix,
}

fn has_suffix(name: &[u8], suffix: Suffix) -> bool
    ensures { result ≡ has_suffix suffix name.now }
{
    name.ends_with(suffix.as_str().as_bytes())
}

fn stem_of(name: &[u8], suffix: Suffix) -> &[u8]
    ensures { result.now ≡ stem_of suffix name.now }
{
    &name[..name.len().saturating_sub(suffix.as_str().len())]
}

fn uncounted_as(name: &[u8], suffix: Suffix) -> Option<EntryName<'_>>
    ensures { option_map parts_of_entry result ≡ uncounted_as suffix name.now }
{
    if has_suffix(name, suffix) {
        let base = stem_of(name, suffix);
        Some(EntryName { base, suffix })
    } else {
        None
    }
}

fn uncounted(name: &[u8]) -> Option<EntryName<'_>>
    ensures { option_map parts_of_entry result
        ≡ first_there (uncounted_as Suffix.Efi name.now) (uncounted_as Suffix.Conf name.now) }
{
    match uncounted_as(name, Suffix::Efi) {
        Some(entry) => Some(entry),
        None => uncounted_as(name, Suffix::Conf),
    }
}

/// The name of an entry's file without its counter; None exactly where the name has neither suffix of an entry. It takes
/// no memory.
pub fn entry_parts(name: &str) -> Option<EntryName<'_>>
    ensures { option_map parts_of_entry result ≡ entry_parts name.now }
{
    match Counted::split(name) {
        Some(counted) => {
            let base = &name.as_bytes()[..counted.base_length];
            let suffix = counted.suffix;
            Some(EntryName { base, suffix })
        }
        None => uncounted(name.as_bytes()),
    }
}

pub(crate) fn is_same_suffix(one: Suffix, other: Suffix) -> bool
    ensures { result ≡ same_suffix one other }
{
    match (one, other) {
        (Suffix::Conf, Suffix::Conf) | (Suffix::Efi, Suffix::Efi) => true,
        _ => false,
    }
}

fn is_same_entry(one: Option<EntryName<'_>>, other: Option<EntryName<'_>>) -> bool
    ensures { result ≡ same_entry (option_map parts_of_entry one.entry) (option_map parts_of_entry other.entry) }
{
    match (one, other) {
        (Some(one), Some(other)) => {
            one.base == other.base && is_same_suffix(one.suffix, other.suffix)
        }
        _ => false,
    }
}

/// Whether two names are those of one entry, which differ in the counter alone. It takes no memory.
pub fn is_one_entry(name: &str, other: &str) -> bool
    ensures { result ≡ is_one_entry name.now other.now }
{
    is_same_entry(entry_parts(name), entry_parts(other))
}

// The folder of a path, with the slash behind it.
fn folder_part(path: &BootPath) -> &[u8]
    ensures { result.now ≡ folder_part path.now }
{
    let text = path.as_str().as_bytes();
    &text[..text.len().saturating_sub(path.file_name().len())]
}

/// Whether the move of an intent is one of this program: between two names of one entry in one folder. It takes no memory.
pub fn is_own_move(names: &IntentNames) -> bool
    ensures { result ≡ is_own_move (names_of names.now) }
{
    folder_part(&names.from) == folder_part(&names.to)
        && is_one_entry(names.from.file_name(), names.to.file_name())
}
