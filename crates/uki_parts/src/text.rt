//! Parts of texts, by the bytes that end them.

ghost use Rattle.std.specs.Prelude.{◌≡◌, ◌≤◌, ◌==◌, length};
ghost use Rattle.std.specs.List.{before_first, position_or_len};

/// How many bytes stand before the first one of this kind, or all.
pub fn length_before(text: &[u8], byte: u8) -> usize
    ensures value { result ≡ position_or_len (λ other. other == byte) text.now }
    ensures bound { result ≤ length text.now }
{
    text.iter().take_while(|other| **other != byte).count()
}

/// The bytes before the first one of this kind, or all.
pub fn before(text: &[u8], byte: u8) -> &[u8]
    ensures { result.now ≡ before_first (λ other. other == byte) text.now }
{
    &text[..length_before(text, byte)]
}
