//! Section headers.

/// Characteristics of a section of code.
pub const CODE: u32 = 0x6000_0020;

/// Characteristics of a section of code that is only read, as a kernel's is.
pub const READ_ONLY_CODE: u32 = 0x4000_0020;

/// Characteristics of a section of data that is only read.
pub const DATA: u32 = 0x4000_0040;

/// A section's header, by the names of the PE/COFF specification.
#[derive(Clone, Copy)]
pub struct Section<'a> {
    /// Name: up to eight bytes, which are filled up with NUL.
    pub name: &'a [u8],
    /// VirtualSize: how many bytes the section has in memory.
    pub virtual_size: u32,
    /// VirtualAddress: its place in memory.
    pub virtual_address: u32,
    /// SizeOfRawData: how many bytes it has in the file.
    pub size_of_raw_data: u32,
    /// PointerToRawData: its place in the file.
    pub pointer_to_raw_data: u32,
    /// Characteristics.
    pub characteristics: u32,
}

/// The section of code of a stub: 32 bytes in memory at 4,096, and 512 in the file behind headers of 512 bytes.
pub const TEXT: Section<'static> = Section {
    name: b".text",
    virtual_size: 32,
    virtual_address: 0x1000,
    size_of_raw_data: 512,
    pointer_to_raw_data: 512,
    characteristics: CODE,
};

impl Section<'_> {
    /// A section that has no bytes in the file and none in memory.
    pub fn empty(name: &[u8], virtual_address: u32) -> Section<'_> {
        Section {
            name,
            virtual_size: 0,
            virtual_address,
            size_of_raw_data: 0,
            pointer_to_raw_data: 0,
            characteristics: 0,
        }
    }

    /// Where its raw data end in the file.
    pub(crate) fn raw_end(&self) -> usize {
        self.pointer_to_raw_data as usize + self.size_of_raw_data as usize
    }

    /// The place in memory behind its last page, as SizeOfImage has it. An empty section takes one page, and what is
    /// past 32 bits counts as the last page.
    pub(crate) fn memory_end(&self) -> u32 {
        let size = self.virtual_size.max(1) as u64;
        let pages = (self.virtual_address as u64 + size).div_ceil(4096);
        u32::try_from(pages * 4096).unwrap_or(0xFFFF_F000)
    }
}
