//! The files that a story begins with.
use crate::fault::StoryFault;
use sample_images::{DATA, Field, OSREL_TEXT, SBAT_TEXT, SampleImage, Section};
use std::alloc::Global;

/// A file by its path.
pub(crate) type Sample = (&'static str, SampleImage);

// What a sample is made of.
#[derive(Clone, Copy)]
enum Base {
    // These bytes, which aren't an image.
    Plain(&'static [u8]),
    Stub,
    StubWithSbat,
    StubWithOsrel,
    SignedStub,
    UsualStub,
    KernelImage,
    // An image with a section of this name and this text beside its kernel.
    ImageOfTwo(&'static str, &'static str),
    // An image with a titled text behind its kernel.
    TitledImage,
}

// How a sample differs from what it is made of.
#[derive(Clone, Copy)]
enum Change {
    Set(Field, u32),
    Put(usize, &'static [u8]),
    NameFirstSection(&'static [u8]),
    Cut(usize),
}

type Row = (&'static str, Base, &'static [Change]);

// A kernel, a stub and an image of both; and images that are entries, or aren't for want of a title.
static ENTRIES: [Row; 6] = [
    ("k", Base::Plain(b"abc"), &[]),
    ("stub", Base::Stub, &[]),
    ("u.efi", Base::ImageOfTwo(".osrel", OSREL_TEXT), &[]),
    (
        "v.efi",
        Base::ImageOfTwo(".osrel", "ID=demo\nPRETTY_NAME=\"Next\"\n"),
        &[],
    ),
    ("out.efi", Base::KernelImage, &[]),
    ("untitled.efi", Base::ImageOfTwo(".osrel", "ID=\n"), &[]),
];

// What images are built of: plain files, and then stubs, or files that can't be one. Whole images, and files that are
// none for want of a number or a byte. Images of which as many bytes are loaded as may be, or one more, or none of the
// kernel.
static PARTS: [Row; 37] = [
    ("k", Base::Plain(b"abc"), &[]),
    ("e", Base::Plain(b""), &[]),
    ("osr", Base::Plain(b"ID=demo\nPRETTY_NAME=\"Demo\"\n"), &[]),
    ("c", Base::Plain(b"quiet"), &[]),
    ("c2", Base::Plain(b"  a\tb \n"), &[]),
    ("i", Base::Plain(b"i"), &[]),
    ("a", Base::Plain(b"aaaaa"), &[]),
    ("b", Base::Plain(b"bbb"), &[]),
    ("w", Base::Plain(b"w"), &[]),
    ("d", Base::Plain(b"d"), &[]),
    ("v", Base::Plain(b"6.8"), &[]),
    ("s", Base::Plain(b"s"), &[]),
    (
        "t",
        Base::Plain(
            b"sbat,1,SBAT Version,sbat,1,https://github.com/rhboot/shim/blob/main/SBAT.md\nlocal,1,Local,local,1,https://example.org/\n",
        ),
        &[],
    ),
    ("p", Base::Plain(b"p"), &[]),
    ("sig", Base::Plain(b"1234567"), &[]),
    ("stub", Base::Stub, &[]),
    ("s2", Base::StubWithSbat, &[]),
    (
        "s280",
        Base::StubWithSbat,
        &[Change::Set(Field::SizeOfHeaders, 280)],
    ),
    (
        "kernel.efi",
        Base::StubWithSbat,
        &[
            Change::Set(Field::VirtualSize(1), 18),
            Change::Put(1024, b"sbat,1\nkernel,1,K\n\0"),
        ],
    ),
    ("osrelstub", Base::StubWithOsrel, &[]),
    (
        "head288",
        Base::Stub,
        &[Change::Set(Field::SizeOfHeaders, 288)],
    ),
    (
        "head240",
        Base::Stub,
        &[Change::Set(Field::SizeOfHeaders, 240)],
    ),
    // a section at the end of the address space
    (
        "high",
        Base::Stub,
        &[Change::Set(Field::VirtualAddress(0), 0xFFFF_E000)],
    ),
    (
        "high240",
        Base::Stub,
        &[
            Change::Set(Field::VirtualAddress(0), 0xFFFF_E000),
            Change::Set(Field::SizeOfHeaders, 240),
        ],
    ),
    ("signed", Base::SignedStub, &[]),
    (
        "signedcut",
        Base::SignedStub,
        &[Change::Set(Field::SizeOfRawData(0), 1024)],
    ),
    ("usual", Base::UsualStub, &[]),
    (
        "odd",
        Base::Stub,
        &[Change::NameFirstSection(b"a\x7f \xff\0")],
    ),
    ("pe32", Base::Stub, &[Change::Set(Field::Magic, 0x10B)]),
    ("image.efi", Base::KernelImage, &[]),
    ("cut.efi", Base::KernelImage, &[Change::Cut(1535)]),
    ("u.efi", Base::ImageOfTwo(".osrel", OSREL_TEXT), &[]),
    ("sig.efi", Base::ImageOfTwo(".pcrsig", "1234567"), &[]),
    (
        "empty.efi",
        Base::ImageOfTwo(".osrel", OSREL_TEXT),
        &[Change::Set(Field::VirtualSize(2), 0)],
    ),
    (
        "fitting.efi",
        Base::TitledImage,
        &[Change::Set(Field::VirtualSize(2), 65_536)],
    ),
    (
        "overlong.efi",
        Base::TitledImage,
        &[Change::Set(Field::VirtualSize(2), 65_537)],
    ),
    (
        "bare.efi",
        Base::TitledImage,
        &[Change::Set(Field::VirtualSize(1), 0)],
    ),
];

// A file of these bytes, which isn't an image.
fn plain_file(bytes: &[u8]) -> SampleImage {
    let mut file = SampleImage::headers(0);
    file.resize(0);
    file.put(0, bytes);
    file
}

fn image_by(base: Base) -> SampleImage {
    match base {
        Base::Plain(bytes) => plain_file(bytes),
        Base::Stub => SampleImage::stub(),
        Base::StubWithSbat => SampleImage::stub_with_sbat(SBAT_TEXT.as_bytes()),
        Base::StubWithOsrel => SampleImage::stub_with(b".osrel", 600, b"ID=stub\n"),
        Base::SignedStub => SampleImage::signed_stub(),
        Base::UsualStub => SampleImage::usual_stub(),
        Base::KernelImage => SampleImage::kernel_image(),
        Base::ImageOfTwo(name, text) => {
            SampleImage::image_of_two(name.as_bytes(), text.as_bytes())
        }
        Base::TitledImage => image_of(b"PRETTY_NAME=A\n"),
    }
}

fn make_change(image: &mut SampleImage, change: Change) {
    match change {
        Change::Set(field, value) => image.set(field, value),
        Change::Put(place, bytes) => image.put(place, bytes),
        Change::NameFirstSection(name) => image.set_name(0, name),
        Change::Cut(length) => image.resize(length),
    }
}

fn image_with(base: Base, changes: &[Change]) -> SampleImage {
    let mut image = image_by(base);
    for change in changes {
        make_change(&mut image, *change);
    }
    image
}

fn rows_of(set: &str) -> Result<&'static [Row], StoryFault> {
    match set {
        "" => Ok(&ENTRIES),
        "parts" => Ok(&PARTS),
        _ => Err(StoryFault::Unclear),
    }
}

/// The samples of the set of that name.
pub(crate) fn samples(alloc: Global, set: &str) -> Result<Vec<Sample>, StoryFault> {
    let mut samples = Vec::new(alloc);
    for (path, base, changes) in rows_of(set)? {
        samples.push((*path, image_with(*base, changes)))?;
    }
    Ok(samples)
}

/// An image with this os-release text behind its kernel.
pub(crate) fn image_of(osrel: &[u8]) -> SampleImage {
    let section = Section {
        name: b".osrel",
        virtual_size: osrel.len().min(512) as u32,
        virtual_address: 0x3000,
        size_of_raw_data: 512,
        pointer_to_raw_data: 1536,
        characteristics: DATA,
    };
    let mut image = SampleImage::kernel_image();
    image.add_section(&section, osrel);
    image
}

/// The path of the sample that has these bytes.
pub(crate) fn sample_of(samples: &[Sample], bytes: &[u8]) -> Option<&'static str> {
    for (path, sample) in samples {
        if sample.bytes() == bytes {
            return Some(*path);
        }
    }
    None
}
