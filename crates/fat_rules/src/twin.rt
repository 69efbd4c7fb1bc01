//! Which two names of a folder may be those of one file after a rename that was cut.
ghost use Rattle.std.specs.Prelude.{◌≡◌, option_map};
ghost use Rattle.fat_rules.specs.Entries.{parts_of_entry};
ghost use Rattle.fat_rules.specs.Twins.{is_temp_of, may_be_of_one_file, same_in_any_case, same_letters};

use crate::alias::is_alias;
use crate::entry::{EntryName, entry_parts, is_same_suffix};
use boot_base::TEMP_SUFFIX;

// Whether the one name is the other with `.tmp` behind it.
fn is_temp_of(temp: &[u8], name: &[u8]) -> bool
    ensures { result ≡ is_temp_of temp.now name.now }
{
    let at = temp.len().saturating_sub(TEMP_SUFFIX.len());
    &temp[..at] == name && &temp[at..] == TEMP_SUFFIX.as_bytes()
}

fn has_same_letters(one: &[u8], other: &[u8]) -> bool
    ensures { result ≡ same_letters one.now other.now }
{
    one.eq_ignore_ascii_case(other)
}

// Whether two names are those of one entry in letters of either case, which FAT takes for one.
fn is_same_in_any_case(one: Option<EntryName<'_>>, other: Option<EntryName<'_>>) -> bool
    ensures { result ≡ same_in_any_case (option_map parts_of_entry one.entry) (option_map parts_of_entry other.entry) }
{
    match (one, other) {
        (Some(one), Some(other)) => {
            has_same_letters(one.base, other.base) && is_same_suffix(one.suffix, other.suffix)
        }
        _ => false,
    }
}

/// Whether two names in one folder may be those of one file after a rename that was cut: of a file and its temporary
/// file, of one entry with two counters, or a name and an alias. It takes no memory.
pub fn may_be_of_one_file(name: &str, other: &str) -> bool
    ensures { result ≡ may_be_of_one_file name.now other.now }
{
    is_alias(name)
        || is_alias(other)
        || is_temp_of(name.as_bytes(), other.as_bytes())
        || is_temp_of(other.as_bytes(), name.as_bytes())
        || is_same_in_any_case(entry_parts(name), entry_parts(other))
}
