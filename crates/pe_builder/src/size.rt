//! What the builder knows of a part before its bytes are read.

ghost use Rattle.std.specs.Prelude.{◌≡◌};
ghost use Rattle.pe_builder.specs.Sizes.{part_flags};

use uki_parts::{Part, SectionName};

// The Characteristics of the section of a part with that name.
fn part_flags(name: &SectionName) -> u32
    ensures { result ≡ part_flags name.now }
{
    if name.bytes() == b".linux".as_slice() {
        0x40000020
    } else {
        0x40000040
    }
}

/// What a part needs to become a section. It may have more bytes than an image can hold.
#[derive(Clone, Copy, Debug, PartialEq, Eq)]
pub struct PartSize {
    /// The name of the section.
    pub name: SectionName,
    /// How many bytes the part has.
    pub length: u64,
    /// The Characteristics of the section.
    pub flags: u32,
}

impl PartSize {
    ghost use Rattle.std.specs.Prelude.{◌≡◌};
    ghost use Rattle.pe_builder.specs.Layout.{FitsPart};
    ghost use Rattle.pe_builder.specs.Refusals.{part_is_named};
    ghost use Rattle.pe_builder.specs.Sizes.{part_flags, size_of};

    /// The size of a part.
    pub fn of(part: &Part) -> PartSize
        ensures exact { result ≡ size_of part.now }
        ensures fits { FitsPart result }
    {
        PartSize::with_name(part.name, part.length)
    }

    /// The size of a part with that name and so many bytes. By its name alone a part is the kernel, whose section is
    /// flagged as code that is read, as ukify does; the sections of all others are flagged as initialized data that
    /// are read (Microsoft PE/COFF).
    pub fn with_name(name: SectionName, length: u64) -> PartSize
        ensures exact { result ≡ record { name = name; length = length; flags = part_flags name } }
        ensures fits { FitsPart result }
    {
        PartSize {
            name,
            length,
            flags: part_flags(&name),
        }
    }

    /// Whether the bytes of the part's name before its first NUL are these.
    pub(crate) fn is_named(&self, name: &[u8]) -> bool
        ensures { result ≡ part_is_named name.now self.now }
    {
        self.name.bytes() == name
    }
}
