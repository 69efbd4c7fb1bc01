//! What a recovery does with the names of a rename that was cut.
ghost use Rattle.std.specs.Prelude.{◌≡◌, position};
ghost use Rattle.fat_rules.specs.Recovery.{has_length, has_bytes_of, is_emptied, removal_of, step_of_none, step_of_one};

use crate::facts::Facts;

/// How the old name of a rename goes whose new name is there too.
#[derive(Clone, Copy, Debug, PartialEq, Eq)]
pub enum Removal {
    /// It is unlinked.
    Unlink,
    /// It is renamed over the new one, which a check of the file system has emptied.
    RenameOver,
}

/// What a recovery does before it forgets a rename of which one name is there, or none.
#[derive(Clone, Copy, Debug, PartialEq, Eq)]
pub enum Step {
    /// Nothing: the bytes stand under the one name, or the file is gone.
    Forget,
    /// The alias at that place among those with bytes is renamed to the name.
    TakeAlias { place: usize },
    /// Nothing, and it is a fault: the bytes are under no name that is known.
    AskForBytes,
    /// Nothing, and it is a fault: on FAT a check may have put the bytes into a file of its own.
    AskForCheck,
    /// Nothing, and it is a fault: the folder isn't there.
    AskForFolder,
    /// Nothing, and it is a fault: more than one alias may be the file's.
    AskForName,
}

fn has_length(found: Option<Facts>) -> bool
    ensures { result ≡ has_length found }
{
    match found {
        Some(found) => found.length > 0,
        None => false,
    }
}

fn is_emptied(found: Option<Facts>) -> bool
    ensures { result ≡ is_emptied found }
{
    match found {
        Some(found) => found.length == 0 && found.time.is_some(),
        None => false,
    }
}

/// How the old name goes, by what stands at both names. No other name may share its clusters. It takes no memory.
pub fn removal_of(old: Option<Facts>, new: Option<Facts>) -> Removal
    ensures { result ≡ removal_of old new }
{
    if has_length(old) && is_emptied(new) {
        Removal::RenameOver
    } else {
        Removal::Unlink
    }
}

// Whether an alias has bytes, and the time of a file.
fn has_bytes_of(found: &Facts, alias: &Facts) -> bool
    ensures { result ≡ has_bytes_of found.now alias.now }
{
    alias.length > 0 && alias.has_time_of(found)
}

fn place_of_bytes(found: &Facts, aliases: &[Facts]) -> Option<usize>
    ensures { result ≡ position (has_bytes_of found.now) aliases.now }
{
    aliases.iter().position(|alias| has_bytes_of(found, alias))
}

/// The step where one of the two names is there, beside these short aliases. It takes no memory.
pub fn step_of_one(found: &Facts, aliases: &[Facts]) -> Step
    ensures { result ≡ step_of_one found.now aliases.now }
{
    if found.length > 0 || found.time.is_none() {
        return Step::Forget;
    }
    match place_of_bytes(found, aliases) {
        Some(place) => Step::TakeAlias { place },
        None => Step::AskForBytes,
    }
}

/// The step where neither name is there, by whether their folder is, whether that may stand on FAT, and how many short
/// aliases with bytes that can be the file's are in it. It takes no memory.
pub fn step_of_none(has_folder: bool, is_fat: bool, alias_count: usize) -> Step
    ensures { result ≡ step_of_none has_folder is_fat alias_count }
{
    match alias_count {
        _ if !has_folder => Step::AskForFolder,
        0 if is_fat => Step::AskForCheck,
        0 => Step::Forget,
        1 => Step::TakeAlias { place: 0 },
        _ => Step::AskForName,
    }
}
