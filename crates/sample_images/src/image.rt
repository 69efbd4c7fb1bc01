//! An image that a test changes as it likes.

ghost use Rattle.std.specs.Prelude.{◌≤◌, length};

use crate::field::{Field, field_of, optional_header_of, section_place};
use crate::section::Section;

/// The most bytes that a sample has.
pub const ROOM: usize = 2048;

/// A file of at most 2,048 bytes.
#[derive(Clone, Copy)]
pub struct SampleImage {
    bytes: [u8; ROOM],
    length: usize,
}

impl SampleImage {
    /// The headers of an image for x86-64 with so many data directories (at most 16) and no section: 512 bytes, with
    /// pages of 4,096 bytes and raw data at multiples of 512.
    pub fn headers(directories: u8) -> SampleImage {
        let directories = directories.min(16) as u32;
        let mut image = SampleImage {
            bytes: [0; ROOM],
            length: 512,
        };
        image.set_all(&[
            (Field::DosSignature, 0x5A4D),
            (Field::SignaturePlace, 64),
            (Field::Signature, 0x4550),
            (Field::Machine, 0x8664),
            (Field::SizeOfOptionalHeader, 112 + 8 * directories),
            (Field::Characteristics, 0x22),
            (Field::Magic, 0x20B),
            (Field::AddressOfEntryPoint, 0x1000),
            (Field::SectionAlignment, 0x1000),
            (Field::FileAlignment, 512),
            (Field::SizeOfHeaders, 512),
            (Field::Subsystem, 10),
            (Field::NumberOfRvaAndSizes, directories),
        ]);
        image
    }

    /// The file's bytes.
    pub fn bytes(&self) -> &[u8]
        ensures { length result.now ≤ 2048 }
    {
        &self.bytes[..self.length.min(ROOM)]
    }

    /// The first bytes of the file, or all.
    pub fn front(&self, count: usize) -> &[u8]
        ensures few { length result.now ≤ count }
        ensures small { length result.now ≤ 2048 }
    {
        &self.bytes[..self.length.min(count).min(ROOM)]
    }

    /// Cuts the file to that length, or fills it up with zeros, to at most 2,048 bytes.
    pub fn resize(&mut self, length: usize) {
        self.length = length;
        for slot in self.bytes.iter_mut().skip(length) {
            *slot = 0;
        }
    }

    /// Puts bytes at a place, and fills the file up as far as they reach.
    pub fn put(&mut self, place: usize, bytes: &[u8]) {
        for (slot, byte) in self.bytes.iter_mut().skip(place).zip(bytes.iter()) {
            *slot = *byte;
        }
        self.length = self.length.max(place.saturating_add(bytes.len()));
    }

    /// Sets a field of the headers, to the lowest bytes of the number where it has fewer than four.
    pub fn set(&mut self, field: Field, value: u32) {
        let place = field.place(optional_header_of(&self.bytes));
        self.put(place, &value.to_le_bytes()[..field.width()]);
    }

    /// The image with a field of its headers set, as by `set`.
    pub fn with(self, field: Field, value: u32) -> SampleImage {
        let mut image = self;
        image.set(field, value);
        image
    }

    /// Sets fields of the headers in turn.
    pub fn set_all(&mut self, changes: &[(Field, u32)]) {
        for (field, value) in changes {
            self.set(*field, *value);
        }
    }

    /// Names the section at an index of the table, by at most eight bytes.
    pub fn set_name(&mut self, index: u8, name: &[u8]) {
        let place = section_place(optional_header_of(&self.bytes), index);
        self.put(place, &[0; 8]);
        self.put(place, &name[..name.len().min(8)]);
    }

    /// Puts a section's header at an index of the table, and nothing else.
    pub fn set_section(&mut self, index: u8, section: &Section<'_>) {
        self.set_name(index, section.name);
        self.set_all(&[
            (Field::VirtualSize(index), section.virtual_size),
            (Field::VirtualAddress(index), section.virtual_address),
            (Field::SizeOfRawData(index), section.size_of_raw_data),
            (Field::PointerToRawData(index), section.pointer_to_raw_data),
            (
                Field::SectionCharacteristics(index),
                section.characteristics,
            ),
        ]);
    }

    /// Adds a section behind those that are there, with the first of its raw data, and counts it in NumberOfSections
    /// and SizeOfImage. The file is filled up to the end of the raw data.
    pub fn add_section(&mut self, section: &Section<'_>, content: &[u8]) {
        let count = field_of(&self.bytes, Field::NumberOfSections).min(255);
        self.set_section(count as u8, section);
        self.set(Field::NumberOfSections, count + 1);
        self.set(Field::SizeOfImage, section.memory_end());
        if section.size_of_raw_data > 0 {
            self.put(section.pointer_to_raw_data as usize, content);
            self.length = self.length.max(section.raw_end());
        }
    }
}
