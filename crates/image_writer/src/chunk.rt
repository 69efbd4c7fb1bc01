//! The chunks that an image has up to the end of its stub.

ghost use Rattle.std.specs.Prelude.{◌≡◌, ◌+◌, ◌*◌};
ghost use Rattle.pe_builder.specs.Known.{planned_stub_length, planned_before, planned_after, planned_sbat};
ghost use Rattle.image_writer.specs.Chunks.{number_chunks, table_chunks, section_chunks, rest_chunks};

use pe_builder::ImageLayout;
use pe_reader::Section;

/// Some bytes of an image, up to the end of its stub.
#[derive(Clone, Copy)]
pub enum Chunk {
    /// The stub's bytes from a place up to another.
    Stub { from: u64, to: u64 },
    /// The name of a section.
    Name([u8; 8]),
    /// A number of two bytes, the lowest first.
    Short(u16),
    /// A number of four bytes, the lowest first.
    Long(u32),
    /// The new `.sbat`.
    Sbat,
    /// So many zeros.
    Zeros(u64),
}

/// From the start up to the CheckSum.
pub fn number_chunks(plan: &ImageLayout) -> [Chunk; 8]
    ensures { result ≡ number_chunks (planned_before plan.now) (planned_after plan.now) }
{
    let place = plan.stub_head().pe_place as u64;
    let image = plan.image_head();
    [
        Chunk::Stub {
            from: 0,
            to: place + 6,
        },
        Chunk::Short(image.section_count),
        Chunk::Stub {
            from: place + 8,
            to: place + 24 + 8,
        },
        Chunk::Long(image.initialized_size),
        Chunk::Stub {
            from: place + 24 + 12,
            to: place + 24 + 56,
        },
        Chunk::Long(image.image_size),
        Chunk::Stub {
            from: place + 24 + 60,
            to: place + 24 + 64,
        },
        Chunk::Long(0),
    ]
}

/// From behind the CheckSum up to the end of the stub's section table.
pub fn table_chunks(plan: &ImageLayout) -> [Chunk; 3]
    ensures { result ≡ table_chunks (planned_before plan.now) (planned_sbat plan.now) }
{
    let head = plan.stub_head();
    let from = head.pe_place as u64 + 24 + 68;
    let to = head.table_place as u64 + 40 * head.section_count as u64;
    match plan.sbat_place() {
        None => [Chunk::Stub { from, to }, Chunk::Zeros(0), Chunk::Zeros(0)],
        Some(place) => [
            Chunk::Stub {
                from,
                to: place.size_place as u64,
            },
            Chunk::Long(place.length),
            Chunk::Stub {
                from: place.size_place as u64 + 4,
                to,
            },
        ],
    }
}

/// The header of a new section. Relocations and line numbers are 0.
pub fn section_chunks(section: &Section) -> [Chunk; 7]
    ensures { result ≡ section_chunks section.now }
{
    [
        Chunk::Name(section.name),
        Chunk::Long(section.virtual_size),
        Chunk::Long(section.virtual_address),
        Chunk::Long(section.raw_size),
        Chunk::Long(section.raw_place),
        Chunk::Zeros(12),
        Chunk::Long(section.flags),
    ]
}

/// From the end of the image's section table up to the stub's end.
pub fn rest_chunks(plan: &ImageLayout) -> [Chunk; 4]
    ensures { result ≡ rest_chunks ((planned_before plan.now).table_place
        + 40 * (planned_after plan.now).section_count) (planned_stub_length plan.now) (planned_sbat plan.now) }
{
    let from = plan.stub_head().table_place as u64 + 40 * plan.image_head().section_count as u64;
    let to = plan.stub_length() as u64;
    match plan.sbat_place() {
        None => [
            Chunk::Stub { from, to },
            Chunk::Zeros(0),
            Chunk::Zeros(0),
            Chunk::Zeros(0),
        ],
        Some(place) => [
            Chunk::Stub {
                from,
                to: place.raw_place as u64,
            },
            Chunk::Sbat,
            Chunk::Zeros(place.raw_size.saturating_sub(place.length) as u64),
            Chunk::Stub {
                from: place.raw_place as u64 + place.raw_size as u64,
                to,
            },
        ],
    }
}
