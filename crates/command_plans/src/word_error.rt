//! Words that are refused, and what refusals say of paths.
ghost use Rattle.std.specs.Prelude.{◌≡◌, IfOk};
ghost use Rattle.boot_base.specs.Paths.{under};
ghost use Rattle.command_plans.specs.Prelude.{Means, path_error, install_name, path_in, path_under, printed_path};

use boot_base::{BootPath, PathFault, Refusal, Text};
use menu_order::{Suffix, is_install_name};
use std::alloc::{AllocError, Global};

/// Why a command's words are declined before the boot files are looked at.
#[derive(Debug, Drop)]
pub enum WordError {
    /// There was no memory.
    Memory,
    /// They are refused.
    Refused(Refusal),
}

impl From<AllocError> for WordError {
    ghost use Rattle.std.specs.Prelude.{◌≡◌};
    ghost use Rattle.command_plans.specs.declared.word_error.WordError.TheVariants as word_errors;

    ghost from_gives = { λ _ word_error. word_error ≡ word_errors.Memory };

    fn from(_: AllocError) -> WordError {
        WordError::Memory
    }
}

/// The path of a word, or the refusal of the word.
pub fn path_in(alloc: Global, word: &str) -> Result<BootPath, WordError>
    ensures { Means (λ path. path) result (path_in word.now) }
{
    match BootPath::read(alloc, word) {
        Ok(path) => Ok(path),
        Err(fault) => Err(path_error(alloc, fault, word)?),
    }
}

// Why there is no path of this text: it is refused, unless memory ran out.
fn path_error(alloc: Global, fault: PathFault, text: &str) -> Result<WordError, AllocError>
    ensures { IfOk result (λ word_error. word_error ≡ path_error text.now fault) }
{
    match fault {
        PathFault::Memory => Ok(WordError::Memory),
        PathFault::BadPath => {
            let text = Text::of(alloc, text)?;
            Ok(WordError::Refused(Refusal::BadPath { text }))
        }
    }
}

/// The path of what is below a folder, or the refusal of the joined text.
pub fn path_under(alloc: Global, folder: &BootPath, below: &str) -> Result<BootPath, WordError>
    ensures { Means (λ path. path) result (path_under folder.now below.now) }
{
    match BootPath::under(alloc, folder, below) {
        Ok(path) => Ok(path),
        Err(fault) => {
            let folder = folder.as_str();
            let joined = format!(in alloc; "{folder}/{below}")?;
            Err(path_error(alloc, fault, joined.as_str())?)
        }
    }
}

/// The path of a file of that name in a folder below another one, or the refusal of the joined text.
pub fn file_under(
    alloc: Global,
    above: &BootPath,
    folder: &str,
    name: &str,
) -> Result<BootPath, WordError>
    ensures { Means (λ path. path) result (path_under above.now (under folder.now name.now)) }
{
    let below = format!(in alloc; "{folder}/{name}")?;
    path_under(alloc, above, below.as_str())
}

/// A path's text as it is printed, with a leading `/`.
pub fn printed_path(alloc: Global, path: &BootPath) -> Result<Text, AllocError>
    ensures { IfOk result (λ text. text ≡ printed_path path.now) }
{
    Ok(Text::from(path.to_string(alloc)?))
}

/// The refusal of a path at which no file is there.
pub fn not_there(alloc: Global, path: &BootPath) -> Result<Refusal, AllocError>
    ensures { IfOk result (λ why. why ≡ Refusal.NotFound (printed_path path.now)) }
{
    let path = printed_path(alloc, path)?;
    Ok(Refusal::NotFound { path })
}

/// The refusal of a name that no entry of this suffix may be installed under.
pub fn check_name(alloc: Global, name: &str, suffix: Suffix) -> Result<(), WordError>
    ensures { Means (λ _. name.now) result (install_name suffix name.now) }
{
    if is_install_name(alloc, name, suffix)? {
        return Ok(());
    }
    let text = Text::of(alloc, name)?;
    Err(WordError::Refused(Refusal::BadName { text }))
}
