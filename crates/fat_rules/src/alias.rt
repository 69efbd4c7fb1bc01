//! The short names that FAT has for a file besides its own. A name of more than 8 and 3 letters gets one that its folder
//! doesn't have yet, as `FEDORA~1.EFI`. A shorter one in small letters gets itself in capitals, as `FEDORA.EFI`.
ghost use Rattle.std.specs.Prelude.{◌≡◌, ◌==◌, ◌↔◌, IfOk, IsTrue, bytes_eq, option_map, position};
ghost use Rattle.std.specs.List.{list_all, list_any};
ghost use Rattle.std.specs.StrCase.Upper.{str_to_uppercase};
ghost use Rattle.fat_rules.specs.Aliases.{IsInCapitals, at_dot, cut_of_name, has_short_parts, has_small_letter, has_tilde, is_alias, is_dot, is_letter_start, is_part, is_short_byte, letter_count, stem_of_name};

use std::alloc::{AllocError, Global};

/// The most letters of a short name's stem.
const STEM_LIMIT: usize = 8;

/// The most letters of a short name's extension.
const EXTENSION_LIMIT: usize = 3;

fn dot_place(name: &[u8]) -> Option<usize>
    ensures { result ≡ position is_dot name.now }
{
    name.iter().position(|byte| *byte == b'.')
}

// What stands before the first dot, and behind it.
fn cut_at_dot(name: &[u8]) -> Option<(&[u8], &[u8])>
    ensures { option_map cut_of_name result ≡ at_dot name.now }
{
    match dot_place(name) {
        Some(at) => Some((&name[..at], &name[at + 1..])),
        None => None,
    }
}

// Whether a byte is the first of a letter's in UTF-8.
fn is_letter_start(byte: u8) -> bool
    ensures { result ≡ is_letter_start byte }
{
    !(128..192).contains(&byte)
}

// How many letters a text has.
fn letter_count(text: &[u8]) -> usize
    ensures { result ≡ letter_count text.now }
{
    text.iter().filter(|byte| is_letter_start(**byte)).count()
}

// Whether a part has a letter, and at most so many.
fn is_part(text: &[u8], limit: usize) -> bool
    ensures { result ≡ is_part limit text.now }
{
    let count = letter_count(text);
    count > 0 && count <= limit
}

// Whether a short name may have a byte, or it is the dot.
fn is_short_byte(byte: u8) -> bool
    ensures { result ≡ is_short_byte byte }
{
    !matches!(byte, 0..32 | b'"' | b'*'..=b',' | b'/' | b':'..=b'?' | b'['..=b']' | b'|')
}

fn has_dot(text: &[u8]) -> bool
    ensures { result ≡ list_any is_dot text.now }
{
    text.iter().any(|byte| *byte == b'.')
}

fn has_tilde(text: &[u8]) -> bool
    ensures { result ≡ has_tilde text.now }
{
    text.iter().any(|byte| *byte == b'~')
}

fn has_small_letter(text: &[u8]) -> bool
    ensures { result ≡ has_small_letter text.now }
{
    text.iter().any(|byte| byte.is_ascii_lowercase())
}

// Whether what a name is cut into are a stem and an extension of a short name.
fn has_short_parts(name: &[u8], parts: Option<(&[u8], &[u8])>) -> bool
    ensures { result ≡ has_short_parts name.now (option_map cut_of_name parts.entry) }
{
    match parts {
        Some((stem, extension)) => {
            is_part(stem, STEM_LIMIT) && is_part(extension, EXTENSION_LIMIT) && !has_dot(extension)
        }
        None => is_part(name, STEM_LIMIT),
    }
}

fn stem_of<'a>(name: &'a [u8], parts: Option<(&'a [u8], &'a [u8])>) -> &'a [u8]
    ensures { result.now ≡ stem_of_name name.now (option_map cut_of_name parts.entry) }
{
    match parts {
        Some((stem, _)) => stem,
        None => name,
    }
}

fn has_short_bytes(name: &[u8]) -> bool
    ensures { result ≡ list_all is_short_byte name.now }
{
    name.iter().all(|byte| is_short_byte(*byte))
}

/// Whether a name is one that FAT gives a file besides its own: a short name, of 8 letters and 3, with a tilde in its stem
/// or without a small letter (Microsoft FAT specification, "Short Directory Entries"; the vfat driver of Linux). One with
/// a tilde may be shown in letters of either case. It takes no memory.
pub fn is_alias(name: &str) -> bool
    ensures { result ≡ is_alias name.now }
{
    let name = name.as_bytes();
    let parts = cut_at_dot(name);
    has_short_bytes(name)
        && has_short_parts(name, parts)
        && (has_tilde(stem_of(name, parts)) || !has_small_letter(name))
}

/// Whether two texts are the same in capitals, by the letters of any script.
pub fn is_same_in_capitals(alloc: Global, one: &str, other: &str) -> Result<bool, AllocError>
    ensures { IfOk result (λ same. same ≡ bytes_eq (str_to_uppercase one.now) (str_to_uppercase other.now)) }
{
    let one = one.to_uppercase(alloc)?;
    let other = other.to_uppercase(alloc)?;
    Ok(one.as_str() == other.as_str())
}

// Whether two texts have as many letters. One letter may have two for its capital, which FAT doesn't write.
fn has_as_many_letters(one: &str, other: &str) -> bool
    ensures { result ≡ (letter_count one.now == letter_count other.now) }
{
    letter_count(one.as_bytes()) == letter_count(other.as_bytes())
}

/// Whether a name is the alias of a short one in small letters: the same letters in capitals, as far as they have some.
pub fn is_in_capitals(alloc: Global, alias: &str, name: &str) -> Result<bool, AllocError>
    ensures { IfOk result (λ is. IsTrue is ↔ IsInCapitals alias.now name.now) }
{
    if alias != name
        && has_as_many_letters(alias, name)
        && is_alias(alias)
        && !has_small_letter(alias.as_bytes())
    {
        is_same_in_capitals(alloc, alias, name)
    } else {
        Ok(false)
    }
}
