//! What loader.conf says, and what may be written into it.
ghost use Rattle.std.specs.Prelude.{◌≡◌, ◌↔◌, IsTrue, IfOk, option_copied};
ghost use Rattle.std.specs.Char.{is_ascii_digit, is_ascii_graphic};
ghost use Rattle.std.specs.List.{list_all};
ghost use Rattle.boot_texts.specs.Conf.{IsDefaultPattern, names_variable, conf_default, conf_of, conf_timeout, is_seconds, is_timeout};

use crate::entry_line::last_value;
use crate::pattern::is_pattern;
use boot_base::Bytes;
use std::alloc::{AllocError, Global};

/// The most bytes of a pattern that is written as the default.
const PATTERN_LIMIT: usize = 255;

/// The most digits of a timeout.
const DIGIT_LIMIT: usize = 9;

/// What a loader.conf says of the entry that boots: of each key the value of the last line that has one.
#[derive(Debug, Drop)]
pub struct LoaderConf {
    /// The pattern of the ids that boot by default; nothing where the value begins with `@`.
    pub default: Option<Bytes>,
    /// How long the menu waits: 1 to 9 digits, `menu-force` or `menu-hidden`; nothing where the value is
    /// none of these.
    pub timeout: Option<Bytes>,
}

impl LoaderConf {
    /// What a file's bytes say. A file that isn't there has none.
    pub fn read(alloc: Global, bytes: &[u8]) -> Result<LoaderConf, AllocError>
        ensures { IfOk result (λ conf. conf ≡ conf_of bytes.now) }
    {
        Ok(LoaderConf {
            default: copy_of(alloc, default_in(bytes))?,
            timeout: copy_of(alloc, timeout_in(bytes))?,
        })
    }
}

// A copy of a value that is there.
fn copy_of(alloc: Global, value: Option<&[u8]>) -> Result<Option<Bytes>, AllocError>
    ensures { IfOk result (λ copy. copy ≡ option_copied value.entry) }
{
    match value {
        Some(value) => Ok(Some(Bytes::of(alloc, value)?)),
        None => Ok(None),
    }
}

fn default_in(bytes: &[u8]) -> Option<&[u8]>
    ensures { option_copied result ≡ conf_default bytes.now }
{
    let value = last_value(bytes, "default")?;
    if names_variable(value) {
        None
    } else {
        Some(value)
    }
}

fn timeout_in(bytes: &[u8]) -> Option<&[u8]>
    ensures { option_copied result ≡ conf_timeout bytes.now }
{
    let value = last_value(bytes, "timeout")?;
    if is_timeout(value) { Some(value) } else { None }
}

// The value names a variable of the firmware.
fn names_variable(value: &[u8]) -> bool
    ensures { result ≡ names_variable value.now }
{
    match value {
        [] => false,
        [first, ..] => *first == b'@',
    }
}

/// The value is a timeout: 1 to 9 digits, `menu-force` or `menu-hidden`.
pub fn is_timeout(value: &[u8]) -> bool
    ensures { result ≡ is_timeout value.now }
{
    is_seconds(value) || value == "menu-force".as_bytes() || value == "menu-hidden".as_bytes()
}

// 1 to 9 digits.
fn is_seconds(value: &[u8]) -> bool
    ensures { result ≡ is_seconds value.now }
{
    if value.is_empty() || value.len() > DIGIT_LIMIT {
        return false;
    }
    is_digits(value)
}

fn is_digits(value: &[u8]) -> bool
    ensures { result ≡ list_all is_ascii_digit value.now }
{
    value.iter().all(|byte| byte.is_ascii_digit())
}

/// The value may be written as the default: a pattern of 1 to 255 bytes from `!` to `~` that doesn't begin
/// with `@`.
pub fn is_default_pattern(value: &[u8]) -> bool
    ensures { IsTrue result ↔ IsDefaultPattern value.now }
{
    !value.is_empty()
        && value.len() <= PATTERN_LIMIT
        && is_graphic(value)
        && !names_variable(value)
        && is_pattern(value)
}

fn is_graphic(value: &[u8]) -> bool
    ensures { result ≡ list_all is_ascii_graphic value.now }
{
    value.iter().all(|byte| byte.is_ascii_graphic())
}
