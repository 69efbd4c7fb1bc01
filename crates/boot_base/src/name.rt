//! Names in eight bytes, as section headers hold them (Microsoft PE/COFF).

ghost use Rattle.std.specs.Prelude.{◌≡◌, ◌<◌, ◌==◌, ◌++◌, length, position, IfOk, IfSome, OnOk, string_bytes, flat_map};
ghost use Rattle.boot_base.specs.Names.{short_name, shown_byte};

use std::alloc::{AllocError, Global};

/// The bytes of a section's name before its first NUL, or all eight.
pub fn short_name(name: &[u8; 8]) -> &[u8]
    ensures { result.now ≡ short_name name.now }
{
    let used = first_nul(name).unwrap_or(8);
    &name[..used]
}

// Where the first NUL stands.
fn first_nul(name: &[u8]) -> Option<usize>
    ensures at { result ≡ position (λ b. b == 0) name.now }
    ensures inside { IfSome result (λ i. i < length name.now) }
{
    name.iter().position(|b| *b == 0)
}

// Puts a byte of a name behind a text as it is printed.
fn push_shown(alloc: Global, text: &mut String, byte: u8) -> Result<(), AllocError>
    ensures { OnOk result (string_bytes text.new ≡ string_bytes text.old ++ shown_byte byte) }
{
    if 0x21 <= byte && byte <= 0x7E {
        return text.push(char::from(byte));
    }
    let hex = hex::encode(alloc, &[byte])?;
    text.push_str("\\x")?;
    text.push_str(hex.as_str())
}

/// A section's name as it is printed: printable ASCII but a space as it is, any other byte as `\x` and two digits.
pub fn shown_name(alloc: Global, name: &[u8]) -> Result<String, AllocError>
    ensures { IfOk result (λ text. string_bytes text ≡ flat_map shown_byte name.now) }
{
    let mut text = String::new(alloc);
    for byte in name {
        push_shown(alloc, &mut text, *byte)?;
    }
    Ok(text)
}
