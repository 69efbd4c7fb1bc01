//! How texts begin.
ghost use Rattle.std.specs.Prelude.{◌≡◌, ◌≤◌, ◌==◌, length};
ghost use Rattle.std.specs.List.{position_or_len};

/// How many bytes stand before the first one of this kind, or all.
pub(crate) fn length_before(text: &[u8], byte: u8) -> usize
    ensures value { result ≡ position_or_len (λ other. other == byte) text.now }
    ensures bound { result ≤ length text.now }
{
    text.iter().take_while(|other| **other != byte).count()
}
