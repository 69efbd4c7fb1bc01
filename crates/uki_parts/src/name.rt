//! Names of sections.

ghost use Rattle.std.specs.Prelude.{◌≡◌, ◌==◌, ◌≤◌, length, IfSome, bytes_eq, codes};
ghost use Rattle.std.specs.List.{list_all};
ghost use Rattle.uki_parts.specs.Names.{is_section_name_byte, is_section_name, padded_name, name_bytes, padded_bytes, read_name, fixed_name};

use crate::kind::PartKind;
use boot_base::short_name;

/// The name of a section to be added, as a section header of PE/COFF holds it: up to eight bytes of printable ASCII.
#[derive(Clone, Copy, Debug, PartialEq, Eq)]
pub struct SectionName {
    // The name, filled up with NUL.
    padded: [u8; 8],
}

impl SectionName {
    /// The name with this text: None exactly where the text hasn't 1 to 8 bytes from 0x21 to 0x7E without `:`, or
    /// is `.sbat`. It takes no memory.
    pub fn read(text: &str) -> Option<SectionName>
        ensures exact { result ≡ read_name text.now }
        ensures bytes { IfSome result (λ name. name_bytes name ≡ text.now) }
    {
        let bytes = text.as_bytes();
        if is_section_name(bytes) {
            Some(SectionName::from_bytes(bytes))
        } else {
            None
        }
    }

    /// The fixed name of the parts of that kind: None exactly for `Extra`. It takes no memory.
    pub fn of(kind: PartKind) -> Option<SectionName>
        ensures { result ≡ fixed_name kind }
    {
        Some(SectionName::from_bytes(kind.section_name()?))
    }

    /// The name's bytes, before its first NUL.
    pub fn bytes(&self) -> &[u8]
        ensures { result.now ≡ name_bytes self.now }
    {
        short_name(&self.padded)
    }

    /// The name as a section header holds it, filled up with NUL.
    pub fn padded_bytes(&self) -> [u8; 8]
        ensures { result ≡ padded_bytes self.now }
    {
        self.padded
    }

    // The name with these bytes.
    fn from_bytes(bytes: &[u8]) -> SectionName
        requires { length bytes.now ≤ 8 }
        ensures { result ≡ padded_name bytes.now }
    {
        let mut padded = [0; 8];
        padded[..bytes.len()].copy_from_slice(bytes);
        SectionName { padded }
    }
}

// The bytes are a name that a user may give.
fn is_section_name(text: &[u8]) -> bool
    ensures { result ≡ is_section_name text.now }
{
    (1..=8).contains(&text.len()) && has_name_bytes(text) && !is_sbat(text)
}

fn is_sbat(text: &[u8]) -> bool
    ensures { result ≡ bytes_eq text.now (codes ".sbat") }
{
    text == b".sbat".as_slice()
}

fn has_name_bytes(text: &[u8]) -> bool
    ensures { result ≡ list_all is_section_name_byte text.now }
{
    text.iter().all(|byte| is_name_byte(*byte))
}

fn is_name_byte(byte: u8) -> bool
    ensures { result ≡ is_section_name_byte byte }
{
    (0x21..=0x7E).contains(&byte) && byte != b':'
}
