//! What the checks of a PE32+ file are about.

use std::fmt;

/// Why bytes are no PE32+ file: what the first failing check is about.
#[derive(Clone, Copy, Debug, PartialEq, Eq)]
pub enum PeReason {
    /// The file has fewer than 64 bytes.
    ShortFile,
    /// The file doesn't begin with `MZ`.
    NoMz,
    /// The place of the PE header is below 64.
    PePlace,
    /// The COFF header, the optional header or the section table ends past the file.
    ShortHeaders,
    /// No `PE` with two NUL stands at the place of the PE header.
    NoSignature,
    /// There are more than 96 sections.
    TooManySections,
    /// The optional header has fewer than 112 bytes.
    ShortOptional,
    /// The optional header is that of a PE32 file.
    Pe32,
    /// The optional header is of no known kind.
    UnknownMagic,
    /// SectionAlignment isn't a power of two up to 65,536.
    SectionAlignment,
    /// FileAlignment isn't a power of two up to SectionAlignment.
    FileAlignment,
    /// The data directories end past the optional header.
    Directories,
    /// SizeOfHeaders is below the end of the section table, or past the file.
    HeaderSize,
    /// A section has more than 268,435,456 bytes in memory.
    VirtualSize,
    /// A section ends past 32 bits in memory.
    Address,
    /// A section's raw data begin in the headers or end past the file.
    RawData,
    /// A section's raw data meet those of an earlier section.
    Overlap,
}

impl PeReason {
    ghost use Rattle.std.specs.Prelude.{◌≡◌};
    ghost use Rattle.pe_reader.specs.Reasons.{pe_reason_text};

    /// The reason in words, as it is printed.
    pub fn text(self) -> &'static str
        ensures { result.now ≡ pe_reason_text self }
    {
        match self {
            PeReason::ShortFile => "short file",
            PeReason::NoMz => "no MZ",
            PeReason::PePlace => "PE place",
            PeReason::ShortHeaders => "short headers",
            PeReason::NoSignature => "no PE signature",
            PeReason::TooManySections => "too many sections",
            PeReason::ShortOptional => "short optional header",
            PeReason::Pe32 => "PE32",
            PeReason::UnknownMagic => "unknown magic",
            PeReason::SectionAlignment => "section alignment",
            PeReason::FileAlignment => "file alignment",
            PeReason::Directories => "directories",
            PeReason::HeaderSize => "header size",
            PeReason::VirtualSize => "virtual size",
            PeReason::Address => "address",
            PeReason::RawData => "raw data",
            PeReason::Overlap => "overlap",
        }
    }
}

impl fmt::Display for PeReason {
    ghost use Rattle.std.specs.Prelude.{Some};
    ghost use Rattle.pe_reader.specs.Reasons.{pe_reason_text};

    ghost output = { λ reason. Some (pe_reason_text reason) };

    fn fmt<W: fmt::Write>(&self, f: &mut fmt::Formatter<W>) -> fmt::Result {
        f.write_str(self.text())
    }
}
