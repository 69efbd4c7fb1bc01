//! Which short name can be the alias of which file.
ghost use Rattle.std.specs.Prelude.{◌≡◌, true, IfOk, IsTrue};
ghost use Rattle.fat_rules.specs.Aliases.{is_alias};

use crate::alias::{is_alias, is_in_capitals};
use std::alloc::{AllocError, Global};

/// Whether a name can be the alias of another one: that in capitals, or one that is numbered.
pub fn can_be_alias_of(alloc: Global, alias: &str, name: &str) -> Result<bool, AllocError>
    ensures { IfOk result (λ can. IsTrue can → is_alias alias.now ≡ true) }
{
    if is_alias(alias) && is_numbered_as(alias, name) {
        Ok(true)
    } else {
        is_in_capitals(alloc, alias, name)
    }
}

// Whether a name with a tilde is made of a longer one.
fn is_numbered_as(alias: &str, name: &str) -> bool {
    let (alias_stem, alias_extension) = cut_extension(alias);
    let (stem, extension) = cut_extension(name);
    let is_full = alias_extension.chars().count() == 3;
    is_start_of(alias_extension, extension, is_full) && is_numbered_of(alias_stem, stem)
}

// Whether a stem with a tilde is made of a longer one: of its first six letters, or of two and four hexadecimal digits.
fn is_numbered_of(alias: &str, stem: &str) -> bool {
    let Some((head, _)) = alias.rsplit_once('~') else {
        return false;
    };
    let is_full = alias.chars().count() == 8;
    is_start_of(head, stem, is_full) || (is_full && is_hashed_of(head, stem))
}

fn is_hashed_of(head: &str, stem: &str) -> bool {
    let Some((letters, digits)) = head.split_at_checked(2) else {
        return false;
    };
    digits.bytes().all(|digit| digit.is_ascii_hexdigit()) && is_start_of(letters, stem, true)
}

// Whether an alias has the first letters of a text, or all of them unless it is full. FAT leaves out blanks and dots.
fn is_start_of(start: &str, text: &str, is_full: bool) -> bool {
    let mut letters = text.chars().filter(|letter| !matches!(*letter, ' ' | '.'));
    for letter in start.chars() {
        if !letters
            .next()
            .is_some_and(|other| is_written_as(other, letter))
        {
            return false;
        }
    }
    is_full || letters.next().is_none()
}

// A letter that isn't ASCII may be written as any.
fn is_written_as(letter: char, alias: char) -> bool {
    match letter {
        '+' | ',' | ';' | '=' | '[' | ']' => alias == '_',
        _ => letter.eq_ignore_ascii_case(&alias) || !letter.is_ascii(),
    }
}

// A name's stem, and its extension without the dot.
fn cut_extension(name: &str) -> (&str, &str) {
    name.rsplit_once('.').unwrap_or((name, ""))
}
