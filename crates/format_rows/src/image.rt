//! Sample images, and changes of them.
use crate::case::Case;
use crate::fault::RowFault;
use crate::words::{bytes_of, number, short_number, split_at_mark};
use sample_images::{Field, SampleImage, Section};
use std::alloc::Global;

fn sample_named(name: &str) -> Result<SampleImage, RowFault> {
    match name {
        "headers" => Ok(SampleImage::headers(16)),
        "stub" => Ok(SampleImage::stub()),
        "stub_with_sbat" => Ok(SampleImage::stub_with_sbat(b"")),
        "signed_stub" => Ok(SampleImage::signed_stub()),
        "kernel_image" => Ok(SampleImage::kernel_image()),
        "image_of_two" => Ok(SampleImage::image_of_two(b".osrel", b"ID=")),
        _ => Err(RowFault::Unclear),
    }
}

// The field of the headers with that name.
fn field_named(name: &str) -> Result<Field, RowFault> {
    match name {
        "DosSignature" => Ok(Field::DosSignature),
        "SignaturePlace" => Ok(Field::SignaturePlace),
        "Signature" => Ok(Field::Signature),
        "NumberOfSections" => Ok(Field::NumberOfSections),
        "SizeOfOptionalHeader" => Ok(Field::SizeOfOptionalHeader),
        "Magic" => Ok(Field::Magic),
        "SizeOfInitializedData" => Ok(Field::SizeOfInitializedData),
        "SectionAlignment" => Ok(Field::SectionAlignment),
        "FileAlignment" => Ok(Field::FileAlignment),
        "SizeOfImage" => Ok(Field::SizeOfImage),
        "SizeOfHeaders" => Ok(Field::SizeOfHeaders),
        "CheckSum" => Ok(Field::CheckSum),
        "NumberOfRvaAndSizes" => Ok(Field::NumberOfRvaAndSizes),
        _ => Err(RowFault::Unclear),
    }
}

// The field of a section's header with that name.
fn section_field(name: &str, index: u8) -> Result<Field, RowFault> {
    match name {
        "VirtualSize" => Ok(Field::VirtualSize(index)),
        "VirtualAddress" => Ok(Field::VirtualAddress(index)),
        "SizeOfRawData" => Ok(Field::SizeOfRawData(index)),
        "PointerToRawData" => Ok(Field::PointerToRawData(index)),
        "Characteristics" => Ok(Field::SectionCharacteristics(index)),
        _ => Err(RowFault::Unclear),
    }
}

fn index_of(text: &str) -> Result<u8, RowFault> {
    u8::try_from(number(text)?).ok().ok_or(RowFault::Unclear)
}

/// The field of a word: a name, of a section with its index behind a dot.
pub(crate) fn field_of_word(word: &str) -> Result<Field, RowFault> {
    match word.split_once('.') {
        Some((name, index)) => section_field(name, index_of(index)?),
        None => field_named(word),
    }
}

// Makes a change that isn't one of a field.
fn edit(
    alloc: Global,
    image: &mut SampleImage,
    verb: &str,
    place: &str,
    value: &str,
) -> Result<(), RowFault> {
    match verb {
        "name" => image.set_name(index_of(place)?, value.as_bytes()),
        "put" => image.put(short_number(place)? as usize, &bytes_of(alloc, value)?),
        _ => {
            let section = Section::empty(value.as_bytes(), short_number(place)?);
            image.add_section(&section, b"");
        }
    }
    Ok(())
}

// Makes the change of a word.
fn change(alloc: Global, image: &mut SampleImage, word: &str) -> Result<(), RowFault> {
    let (key, value) = split_at_mark(word, '=')?;
    let (verb, place) = key.split_once('.').unwrap_or((key, ""));
    match verb {
        "name" | "put" | "empty" => edit(alloc, image, verb, place, value),
        "length" => {
            image.resize(short_number(value)? as usize);
            Ok(())
        }
        _ => {
            image.set(field_of_word(key)?, short_number(value)?);
            Ok(())
        }
    }
}

/// Makes a sample with changes the file.
pub(crate) fn set_image(alloc: Global, case: &mut Case, rest: &str) -> Result<(), RowFault> {
    let (sample, changes) = rest.split_once(' ').unwrap_or((rest, ""));
    let mut image = sample_named(sample)?;
    for word in changes.split_whitespace() {
        change(alloc, &mut image, word)?;
    }
    case.set_file(image.bytes().to_vec(alloc)?)
}
