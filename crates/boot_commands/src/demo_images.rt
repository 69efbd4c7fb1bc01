//! The unified kernel images that a demonstration begins with.
ghost use Rattle.std.specs.Prelude.{◌≡◌, ◌++◌, [], fold, string_bytes, IfOk, OnOk};
ghost use Rattle.boot_commands.specs.DemoImages.{demo_image, osrel_text, with_number, with_zeros};

use std::alloc::{AllocError, Global};

/// The headers of a PE32+ image for x86-64 (PE/COFF) of three sections, but for their zeros: places in the file, in
/// bytes, and the numbers of four bytes there.
const HEADERS: [(usize, u32); 34] = [
    // the signature of the DOS header, the place of the PE signature, and that signature
    (0, 0x5A4D),
    (60, 64),
    (64, 0x4550),
    // Machine and NumberOfSections; SizeOfOptionalHeader and Characteristics
    (68, 0x0003_8664),
    (84, 0x0022_0070),
    // Magic, SizeOfInitializedData, AddressOfEntryPoint
    (88, 0x020B),
    (96, 45),
    (104, 0x1000),
    // SectionAlignment, FileAlignment, SizeOfImage, SizeOfHeaders, Subsystem
    (120, 0x1000),
    (124, 512),
    (144, 0x4000),
    (148, 512),
    (156, 10),
    // `.text`, VirtualSize, VirtualAddress, SizeOfRawData, PointerToRawData, Characteristics
    (200, 0x7865_742E),
    (204, 0x74),
    (208, 32),
    (212, 0x1000),
    (216, 512),
    (220, 512),
    (236, 0x6000_0020),
    // `.osrel`, the same
    (240, 0x7273_6F2E),
    (244, 0x6C65),
    (248, 42),
    (252, 0x2000),
    (256, 512),
    (260, 1024),
    (276, 0x4000_0040),
    // `.linux`, the same
    (280, 0x6E69_6C2E),
    (284, 0x7875),
    (288, 3),
    (292, 0x3000),
    (296, 512),
    (300, 1536),
    (316, 0x4000_0020),
];

// Appends zeros up to a place.
fn append_zeros(out: &mut Vec<u8>, place: usize) -> Result<(), AllocError>
    ensures { OnOk result (out.new.items ≡ with_zeros out.old.items place) }
{
    if out.len() < place {
        out.resize(place, 0)?;
    }
    Ok(())
}

// Appends what stands at a place, and zeros before it.
fn put(out: &mut Vec<u8>, place: usize, bytes: &[u8]) -> Result<(), AllocError>
    ensures { OnOk result (out.new.items ≡ with_zeros out.old.items place ++ bytes.now) }
{
    append_zeros(out, place)?;
    out.extend_from_slice(bytes)
}

// The bytes of these numbers at their places.
fn place_fields(alloc: Global, fields: &[(usize, u32)]) -> Result<Vec<u8>, AllocError>
    ensures { IfOk result (λ bytes. bytes.items ≡ fold with_number [] fields.now) }
{
    let mut out = Vec::new(alloc);
    for (place, number) in fields {
        put(&mut out, *place, &number.to_le_bytes())?;
    }
    Ok(out)
}

fn osrel_text(alloc: Global, digit: u64) -> Result<String, AllocError>
    ensures { IfOk result (λ text. string_bytes text ≡ osrel_text digit) }
{
    format!(in alloc; "ID=demo\nPRETTY_NAME=\"Demo {digit}\"\nVERSION_ID={digit}\n")
}

/// The image of that digit, of 2,048 bytes.
pub fn demo_image(alloc: Global, digit: u64) -> Result<Vec<u8>, AllocError>
    ensures { IfOk result (λ image. image.items ≡ demo_image digit) }
{
    let osrel = osrel_text(alloc, digit)?;
    let mut image = place_fields(alloc, &HEADERS)?;
    put(&mut image, 1024, osrel.as_bytes())?;
    put(&mut image, 1536, b"abc")?;
    append_zeros(&mut image, 2048)?;
    Ok(image)
}
