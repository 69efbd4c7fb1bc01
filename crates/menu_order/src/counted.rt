//! Names with a boot counter.
ghost use Rattle.std.specs.Prelude.{◌≡◌, ◌≢◌, ◌↔◌, ◌<◌, ◌≤◌, ◌∷◌, ◌++◌, ℕ, List, length, string_bytes, IfOk, IfSome, IsNone, IsTrue, MatchOption, option_map};
ghost use Rattle.std.specs.Char.{is_ascii_digit};
ghost use Rattle.std.specs.List.{list_all};
ghost use Rattle.menu_order.specs.Counter.{suffix_text, is_number, IsNumber, IsCounter, IsCounted, IsUncounted, IsSplit, IsBaseLength, counted_of, after_boot, written_name, IsGoodName, IsBadName};
ghost use Rattle.menu_order.specs.Renames.{bad_name_of, booted_name_of, good_name_of};
ghost use Rattle.menu_order.specs.Splits.{number_in, split_of};
ghost use Rattle.menu_order.specs.CounterLaws.{OneReading, WrittenReads, ShortestRewrites};

use std::alloc::{AllocError, Global};

/// The greatest number of boots that a counter holds, which has nine digits.
pub const MAX_COUNT: u32 = 999_999_999;

/// The suffix of an entry's file name.
#[derive(Clone, Copy, PartialEq, Eq, Debug)]
pub enum Suffix {
    /// `.conf`: a text that names a kernel.
    Conf,
    /// `.efi`: a unified kernel image.
    Efi,
}

impl Suffix {
    /// The suffix with its dot.
    pub fn as_str(self) -> &'static str
        ensures { result.now ≡ suffix_text self }
    {
        match self {
            Suffix::Conf => ".conf",
            Suffix::Efi => ".efi",
        }
    }
}

/// The boot counter of a file name, and where its base ends.
#[derive(Clone, Copy, PartialEq, Eq, Debug)]
pub struct Counted {
    /// How many bytes the name has before the plus of its counter.
    pub base_length: usize,
    /// How many boots are left.
    pub left: u32,
    /// How many boots were tried.
    pub done: u32,
    /// The suffix behind the counter.
    pub suffix: Suffix,
}

impl Counted {
    /// The counter of a file name, as the UAPI Boot Loader Specification writes it; None exactly
    /// where the name has none. It takes no memory.
    pub fn split(name: &str) -> Option<Counted>
        ensures counted { MatchOption result (IsUncounted name.now) (IsSplit name.now) }
        ensures only { (base : List ℕ) (left done : ℕ) (suffix : Suffix)
            → IsCounted name.now base left done suffix
            → result ≡ Some (counted_of base left done suffix) }
        ensures limits { IfSome result (λ c. (c.left ≤ MAX_COUNT) × (c.done ≤ MAX_COUNT)) }
        ensures cut { IfSome result (λ c. IsBaseLength name.now c.base_length) }
        ensures value { result ≡ split_of name.now }
    {
        let reading = Reading::of(name)?;
        Some(Counted {
            base_length: reading.base.len(),
            left: reading.left,
            done: reading.done,
            suffix: reading.suffix,
        })
    }

    /// The file name of a base with a counter, as the UAPI Boot Loader Specification writes it:
    /// without leading zeros, and without a DONE of 0. Want of memory is its one fault.
    pub fn join_name(
        alloc: Global,
        base: &str,
        left: u32,
        done: u32,
        suffix: Suffix,
    ) -> Result<String, AllocError>
        requires base { 0 < length base.now }
        requires left { left ≤ MAX_COUNT }
        requires done { done ≤ MAX_COUNT }
        ensures written { IfOk result (λ name. string_bytes name ≡ written_name base.now left done suffix) }
        ensures counted { IfOk result (λ name. IsCounted (string_bytes name) base.now left done suffix) }
    {
        let suffix = suffix.as_str();
        if done == 0 {
            format!(in alloc; "{base}+{left}{suffix}")
        } else {
            format!(in alloc; "{base}+{left}-{done}{suffix}")
        }
    }

    /// The counter after one more boot, with LEFT one lower and DONE one higher, which stays at
    /// its greatest; None exactly where no boot is left. It takes no memory.
    pub fn after_boot(self) -> Option<Counted>
        requires { self.done ≤ MAX_COUNT }
        ensures none { IsNone result ↔ (self.left ≡ 0) }
        ensures some { IfSome result (λ next. next ≡ after_boot self) }
    {
        let left = self.left.checked_sub(1)?;
        let done = (self.done + 1).min(MAX_COUNT);
        Some(Counted { left, done, ..self })
    }

    /// The name without its counter, which a good boot gives it; None exactly where it has none.
    /// Want of memory is its one fault.
    pub fn good_name(alloc: Global, name: &str) -> Result<Option<String>, AllocError>
        ensures good { IfOk result (λ found.
            MatchOption found
            (IsUncounted name.now)
            (λ good. IsGoodName name.now (string_bytes good))) }
        ensures value { IfOk result (λ found. option_map string_bytes found ≡ good_name_of name.now) }
    {
        let Some(reading) = Reading::of(name) else {
            return Ok(None);
        };
        let (base, suffix) = (reading.base, reading.suffix.as_str());
        let good = format!(in alloc; "{base}{suffix}")?;
        Ok(Some(good))
    }

    /// The name with no boot left, which a bad boot gives it; None exactly where the name has no
    /// counter. Want of memory is its one fault.
    pub fn bad_name(alloc: Global, name: &str) -> Result<Option<String>, AllocError>
        ensures bad { IfOk result (λ found.
            MatchOption found
            (IsUncounted name.now)
            (λ bad. IsBadName name.now (string_bytes bad))) }
        ensures value { IfOk result (λ found. option_map string_bytes found ≡ bad_name_of name.now) }
    {
        let Some(reading) = Reading::of(name) else {
            return Ok(None);
        };
        let bad = Counted::join_name(alloc, reading.base, 0, reading.done, reading.suffix)?;
        Ok(Some(bad))
    }

    /// The name after one more boot, with the counter that `after_boot` gives; None exactly where the name has no
    /// counter or no boot is left. Want of memory is its one fault.
    pub fn booted_name(alloc: Global, name: &str) -> Result<Option<String>, AllocError>
        ensures { IfOk result (λ found. option_map string_bytes found ≡ booted_name_of name.now) }
    {
        let Some(counted) = Counted::split(name) else {
            return Ok(None);
        };
        let Some(next) = counted.after_boot() else {
            return Ok(None);
        };
        let base = &name[..counted.base_length];
        let booted = Counted::join_name(alloc, base, next.left, next.done, next.suffix)?;
        Ok(Some(booted))
    }
}

/// The number of boots that a text writes in one to nine digits; None exactly where it writes none. It takes no memory.
pub fn read_count(text: &str) -> Option<u32>
    ensures value { result ≡ number_in text.now }
    ensures limit { IfSome result (λ count. count ≤ MAX_COUNT) }
{
    read_number(text)
}

/// What a counted name is read as.
#[derive(Clone, Copy)]
struct Reading<'a> {
    base: &'a str,
    left: u32,
    done: u32,
    suffix: Suffix,
}

impl<'a> Reading<'a> {
    // The reading of a name; None exactly where it has no counter.
    fn of(name: &'a str) -> Option<Reading<'a>>
        ensures { MatchOption result
            (IsUncounted name.now)
            (λ r. IsCounted name.now r.base.now r.left r.done r.suffix) }
    {
        let (stem, suffix) = split_suffix(name)?;
        let (base, counter) = stem.rsplit_once('+')?;
        if base.is_empty() {
            return None;
        }
        let (left, done) = read_counter(counter)?;
        Some(Reading {
            base,
            left,
            done,
            suffix,
        })
    }
}

// A name's stem and its suffix; None exactly where it has no suffix.
fn split_suffix(name: &str) -> Option<(&str, Suffix)>
    ensures { MatchOption result
        ((stem : List ℕ) (suffix : Suffix) → name.now ≢ stem ++ suffix_text suffix)
        (λ split. name.now ≡ split.0.now ++ suffix_text split.1) }
{
    if let Some(stem) = name.strip_suffix(".conf") {
        return Some((stem, Suffix::Conf));
    }
    let stem = name.strip_suffix(".efi")?;
    Some((stem, Suffix::Efi))
}

// LEFT and DONE of a counter; None exactly where the text is none.
fn read_counter(text: &str) -> Option<(u32, u32)>
    ensures { MatchOption result
        ((left done : ℕ) → IsCounter text.now left done → ⊥)
        (λ counter. IsCounter text.now counter.0 counter.1) }
{
    let Some((left, done)) = text.split_once('-') else {
        return Some((read_number(text)?, 0));
    };
    Some((read_number(left)?, read_number(done)?))
}

// The number that one to nine digits write; None exactly where the text is none.
fn read_number(text: &str) -> Option<u32>
    ensures { MatchOption result ((n : ℕ) → IsNumber text.now n → ⊥) (IsNumber text.now) }
{
    if !is_number(text) {
        return None;
    }
    text.parse().ok()
}

// Whether a text is one to nine digits.
fn is_number(text: &str) -> bool
    ensures { result ≡ is_number text.now }
{
    !text.is_empty() && text.len() <= 9 && has_digits_alone(text)
}

/// Whether each byte of a text is a digit.
pub fn has_digits_alone(text: &str) -> bool
    ensures { result ≡ list_all is_ascii_digit text.now }
{
    text.bytes().all(|byte| byte.is_ascii_digit())
}

/// The laws of counted names, which hold of all names: a name has one reading at most, a written
/// name is read as what it was written of, and what was read is written as the same name exactly
/// where that has no leading zeros and no DONE of 0.
pub fn counter_laws()
    ensures one_reading { OneReading }
    ensures written_reads { WrittenReads }
    ensures shortest_rewrites { ShortestRewrites }
{}
