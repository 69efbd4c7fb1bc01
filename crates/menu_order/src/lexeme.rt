//! A version cut into lexemes, from the front.
ghost use Rattle.std.specs.Prelude.{◌≡◌, ◌↔◌, ◌<◌, ◌≤◌, IsTrue, true, length, slice_index};
ghost use Rattle.std.specs.Char.{is_ascii_alphabetic, is_ascii_digit};
ghost use Rattle.std.specs.List.{prefix_len, position_or_len};
ghost use Rattle.std.specs.Ordering.{nat_cmp};
ghost use Rattle.std.specs.Str.Parse.{AllDigits, digits_value};
ghost use Rattle.menu_order.specs.VersionOrder.{token_cmp, rank_of};
ghost use Rattle.menu_order.specs.VersionTokens.{tokens_of};
ghost use Rattle.menu_order.specs.Lexemes.{token_of, IsLexeme, is_of_token, is_zero, significant_digits, HasFirstLexeme};

use std::cmp::Ordering;

/// The bytes of a token as they stand in a version.
#[derive(Clone, Copy)]
pub enum Lexeme<'a> {
    /// `~`, which is below the end.
    Tilde,
    /// The end of the version.
    End,
    /// `-`.
    Hyphen,
    /// `^`.
    Caret,
    /// `.`.
    Dot,
    /// A run of ASCII letters.
    Letters(&'a [u8]),
    /// A run of ASCII digits of any length, which may begin with zeros.
    Digits(&'a [u8]),
}

/// The first lexeme of a version and the text behind it.
pub fn first_lexeme(text: &[u8]) -> (Lexeme<'_>, &[u8])
    ensures begins { HasFirstLexeme text.now result.0 result.1.now }
    ensures lexeme { IsLexeme result.0 }
{
    let text = after_separators(text);
    let Some((first, rest)) = text.split_first() else {
        return (Lexeme::End, text);
    };
    match *first {
        b'~' => (Lexeme::Tilde, rest),
        b'-' => (Lexeme::Hyphen, rest),
        b'^' => (Lexeme::Caret, rest),
        b'.' => (Lexeme::Dot, rest),
        byte if byte.is_ascii_digit() => {
            let (run, rest) = text.split_at(digits_len(text));
            (Lexeme::Digits(run), rest)
        }
        _ => {
            let (run, rest) = text.split_at(letters_len(text));
            (Lexeme::Letters(run), rest)
        }
    }
}

// The text from its first byte of a token on.
fn after_separators(text: &[u8]) -> &[u8]
    ensures same { tokens_of result.now ≡ tokens_of text.now }
    ensures within { length result.now ≤ length text.now }
    ensures first { 0 < length result.now → is_of_token (slice_index result.now 0) ≡ true }
{
    &text[separators_len(text)..]
}

// How many bytes that only separate the text begins with.
fn separators_len(text: &[u8]) -> usize
    ensures value { result ≡ position_or_len is_of_token text.now }
    ensures within { result ≤ length text.now }
{
    text.iter().take_while(|byte| !is_of_token(**byte)).count()
}

// Whether a byte is one of a token.
fn is_of_token(byte: u8) -> bool
    ensures { result ≡ is_of_token byte }
{
    byte.is_ascii_alphanumeric() || matches!(byte, b'~' | b'-' | b'^' | b'.')
}

// How many letters the text begins with.
fn letters_len(text: &[u8]) -> usize
    ensures value { result ≡ prefix_len is_ascii_alphabetic text.now }
    ensures within { result ≤ length text.now }
{
    text.iter()
        .take_while(|byte| byte.is_ascii_alphabetic())
        .count()
}

// How many digits the text begins with.
fn digits_len(text: &[u8]) -> usize
    ensures value { result ≡ prefix_len is_ascii_digit text.now }
    ensures within { result ≤ length text.now }
{
    text.iter().take_while(|byte| byte.is_ascii_digit()).count()
}

impl<'a> Lexeme<'a> {
    /// Whether it is the end.
    pub fn is_end(self) -> bool
        ensures { IsTrue result ↔ (self.entry ≡ Lexeme.End) }
    {
        matches!(self, Lexeme::End)
    }

    // The place of its kind in the order.
    fn rank(self) -> u8
        ensures { result ≡ rank_of (token_of self.entry) }
    {
        match self {
            Lexeme::Tilde => 0,
            Lexeme::End => 1,
            Lexeme::Hyphen => 2,
            Lexeme::Caret => 3,
            Lexeme::Dot => 4,
            Lexeme::Letters(_) => 5,
            Lexeme::Digits(_) => 6,
        }
    }

    /// How two lexemes compare as tokens.
    pub fn compare(self, other: Lexeme<'_>) -> Ordering
        requires left { IsLexeme self }
        requires right { IsLexeme other }
        ensures { result ≡ token_cmp (token_of self.entry) (token_of other.entry) }
    {
        match (self, other) {
            (Lexeme::Letters(left), Lexeme::Letters(right)) => left.cmp(right),
            (Lexeme::Digits(left), Lexeme::Digits(right)) => compare_numbers(left, right),
            _ => self.rank().cmp(&other.rank()),
        }
    }
}

// How the numbers of two runs of digits compare, however long they are: of runs without leading
// zeros the longer is the greater, and runs of one length go by their bytes.
fn compare_numbers(a: &[u8], b: &[u8]) -> Ordering
    requires left { AllDigits 10 a.now }
    requires right { AllDigits 10 b.now }
    ensures { result ≡ nat_cmp (digits_value 10 a.now) (digits_value 10 b.now) }
{
    let (left, right) = (without_leading_zeros(a), without_leading_zeros(b));
    left.len().cmp(&right.len()).then(left.cmp(right))
}

// The digits after the leading zeros.
fn without_leading_zeros(digits: &[u8]) -> &[u8]
    ensures { result.now ≡ significant_digits digits.now }
{
    &digits[leading_zeros(digits)..]
}

// How many zeros the digits begin with.
fn leading_zeros(digits: &[u8]) -> usize
    ensures value { result ≡ prefix_len is_zero digits.now }
    ensures within { result ≤ length digits.now }
{
    digits.iter().take_while(|digit| **digit == b'0').count()
}
