//! Stubs and images that several tests share.

use crate::field::Field;
use crate::image::SampleImage;
use crate::section::{DATA, READ_ONLY_CODE, Section, TEXT};

/// The section of a kernel of three bytes, behind the `.text` of a stub.
pub const LINUX: Section<'static> = Section {
    name: b".linux",
    virtual_size: 3,
    virtual_address: 0x2000,
    size_of_raw_data: 512,
    pointer_to_raw_data: 1024,
    characteristics: READ_ONLY_CODE,
};

/// An `.sbat` of 116 bytes: the line of the format, and one of a stub.
pub const SBAT_TEXT: &str =
    "sbat,1,SBAT Version,sbat,1,https://github.com/rhboot/shim/blob/main/SBAT.md\nstub,1,Stub,stub,1,https://example.org/\n";

/// An os-release text of 27 bytes.
pub const OSREL_TEXT: &str = "ID=demo\nPRETTY_NAME=\"Demo\"\n";

impl SampleImage {
    /// A stub of 1,024 bytes: no data directory, and one section `.text`. There is room for six more section headers.
    pub fn stub() -> SampleImage {
        let mut stub = SampleImage::headers(0);
        stub.add_section(&TEXT, b"");
        stub
    }

    /// The stub with a second section of data at 1,024, of which 512 bytes are in the file: 1,536 bytes.
    pub fn stub_with(name: &[u8], virtual_size: u32, content: &[u8]) -> SampleImage {
        let mut stub = SampleImage::stub();
        let section = Section {
            name,
            virtual_size,
            characteristics: DATA,
            ..LINUX
        };
        stub.add_section(&section, content);
        stub
    }

    /// The stub with an `.sbat` of 116 bytes, which begins with these: 1,536 bytes.
    pub fn stub_with_sbat(content: &[u8]) -> SampleImage {
        SampleImage::stub_with(b".sbat", 116, content)
    }

    /// A stub of 1,024 bytes with five data directories that names a certificate table.
    pub fn signed_stub() -> SampleImage {
        let mut stub = SampleImage::headers(5);
        stub.set(Field::CertificateTableSize, 8);
        stub.add_section(&TEXT, b"");
        stub
    }

    /// A stub as usual tools link it, of 1,537 bytes: 16 data directories, headers of 1,024 bytes, a checksum, five
    /// sections of which only `.text` has raw data, and a byte behind these.
    pub fn usual_stub() -> SampleImage {
        let mut stub = SampleImage::headers(16);
        stub.set_all(&[
            (Field::SizeOfInitializedData, 0x105),
            (Field::SizeOfHeaders, 1024),
            (Field::CheckSum, 0x0403_0201),
        ]);
        let text = Section {
            pointer_to_raw_data: 1024,
            ..TEXT
        };
        stub.add_section(&text, b"code");
        stub.add_section(&Section::empty(b".rodata", 0x2000), b"");
        stub.add_section(&Section::empty(b".data", 0x3000), b"");
        stub.add_section(&Section::empty(b".sdmagic", 0x4000), b"");
        stub.add_section(&Section::empty(b".reloc", 0x5000), b"");
        stub.put(1536, b"x");
        stub
    }

    /// The image of the stub and a kernel of the bytes `abc`: 1,536 bytes.
    pub fn kernel_image() -> SampleImage {
        let mut image = SampleImage::stub();
        image.set(Field::SizeOfInitializedData, 3);
        image.add_section(&LINUX, b"abc");
        image
    }

    /// The image of the stub, a section of data and a kernel of the bytes `abc`: 2,048 bytes.
    pub fn image_of_two(name: &[u8], content: &[u8]) -> SampleImage {
        let size = (content.len().min(512)) as u32;
        let mut image = SampleImage::stub_with(name, size, content);
        image.set(Field::SizeOfInitializedData, size + 3);
        let linux = Section {
            virtual_address: 0x3000,
            pointer_to_raw_data: 1536,
            ..LINUX
        };
        image.add_section(&linux, b"abc");
        image
    }
}
