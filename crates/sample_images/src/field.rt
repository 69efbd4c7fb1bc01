//! The numbers in an image's headers, by their names in the PE/COFF specification.

ghost use Rattle.std.specs.Prelude.{◌≤◌, ◌<◌};

/// A number of the headers of an image whose MS-DOS header has 64 bytes, so that the signature stands at 64, the COFF
/// header at 68 and the optional header at 88. The section table stands behind the optional header. A section is
/// named by its index in that table, from 0 on.
#[derive(Clone, Copy, Debug)]
pub enum Field {
    /// The bytes `MZ` at the beginning, which are 0x5A4D.
    DosSignature,
    /// The place of the signature, at 60.
    SignaturePlace,
    /// The bytes `PE` and two NULs at 64, which are 0x4550.
    Signature,
    /// Machine: 0x8664 is x86-64.
    Machine,
    /// NumberOfSections.
    NumberOfSections,
    /// SizeOfOptionalHeader: 112 and 8 more for each data directory.
    SizeOfOptionalHeader,
    /// Characteristics of the image.
    Characteristics,
    /// Magic: 0x20B is PE32+, and 0x10B is PE32.
    Magic,
    /// SizeOfInitializedData.
    SizeOfInitializedData,
    /// AddressOfEntryPoint.
    AddressOfEntryPoint,
    /// SectionAlignment: sections stand in memory at multiples of it.
    SectionAlignment,
    /// FileAlignment: raw data stand in the file at multiples of it.
    FileAlignment,
    /// SizeOfImage: how many bytes the image takes in memory.
    SizeOfImage,
    /// SizeOfHeaders.
    SizeOfHeaders,
    /// CheckSum.
    CheckSum,
    /// Subsystem: 10 is an EFI application.
    Subsystem,
    /// NumberOfRvaAndSizes: how many data directories there are.
    NumberOfRvaAndSizes,
    /// Size of the certificate table, which is the fifth data directory.
    CertificateTableSize,
    /// VirtualSize of a section.
    VirtualSize(u8),
    /// VirtualAddress of a section.
    VirtualAddress(u8),
    /// SizeOfRawData of a section.
    SizeOfRawData(u8),
    /// PointerToRawData of a section: the place of its first byte in the file.
    PointerToRawData(u8),
    /// Characteristics of a section.
    SectionCharacteristics(u8),
}

impl Field {
    /// The place of the field's first byte, where the optional header has so many bytes.
    pub(crate) fn place(self, optional_header: u16) -> usize {
        match self {
            Field::DosSignature => 0,
            Field::SignaturePlace => 60,
            Field::Signature => 64,
            Field::Machine => 68,
            Field::NumberOfSections => 70,
            Field::SizeOfOptionalHeader => 84,
            Field::Characteristics => 86,
            Field::Magic => 88,
            Field::SizeOfInitializedData => 96,
            Field::AddressOfEntryPoint => 104,
            Field::SectionAlignment => 120,
            Field::FileAlignment => 124,
            Field::SizeOfImage => 144,
            Field::SizeOfHeaders => 148,
            Field::CheckSum => 152,
            Field::Subsystem => 156,
            Field::NumberOfRvaAndSizes => 196,
            Field::CertificateTableSize => 236,
            Field::VirtualSize(index) => section_place(optional_header, index) + 8,
            Field::VirtualAddress(index) => section_place(optional_header, index) + 12,
            Field::SizeOfRawData(index) => section_place(optional_header, index) + 16,
            Field::PointerToRawData(index) => section_place(optional_header, index) + 20,
            Field::SectionCharacteristics(index) => section_place(optional_header, index) + 36,
        }
    }

    /// How many bytes the field has.
    pub(crate) fn width(self) -> usize
        ensures { result ≤ 4 }
    {
        match self {
            Field::DosSignature
            | Field::Machine
            | Field::NumberOfSections
            | Field::SizeOfOptionalHeader
            | Field::Characteristics
            | Field::Magic
            | Field::Subsystem => 2,
            _ => 4,
        }
    }
}

/// The place of a section's header, where the optional header has so many bytes.
pub(crate) fn section_place(optional_header: u16, index: u8) -> usize
    ensures { result < 76000 }
{
    88 + optional_header as usize + 40 * index as usize
}

// The number of little endian that stands at a place, in so many bytes. What lies past the end counts as 0.
fn number_at(file: &[u8], place: usize, width: usize) -> u32 {
    let mut bytes = [0; 4];
    for (slot, byte) in bytes.iter_mut().zip(file.iter().skip(place).take(width)) {
        *slot = *byte;
    }
    u32::from_le_bytes(bytes)
}

/// SizeOfOptionalHeader of a file.
pub(crate) fn optional_header_of(file: &[u8]) -> u16 {
    let [low, high, ..] = number_at(file, 84, 2).to_le_bytes();
    u16::from_le_bytes([low, high])
}

/// The number that a field of a file has. What lies past the file's end counts as 0.
pub fn field_of(file: &[u8], field: Field) -> u32 {
    let place = field.place(optional_header_of(file));
    number_at(file, place, field.width())
}
