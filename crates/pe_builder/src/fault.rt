//! Why there is no image.

ghost use Rattle.std.specs.Prelude.{◌≡◌};
ghost use Rattle.pe_builder.specs.declared.fault.LayoutFault.TheVariants.{Memory};

use std::alloc::AllocError;
use thiserror::Error;
use uki_parts::SectionName;

/// Why there is no plan of an image.
#[derive(Clone, Copy, Debug, PartialEq, Eq, Error)]
pub enum LayoutFault {
    /// There was no memory for the plan.
    #[error("out of memory")]
    Memory,
    /// The stub has a certificate table, which an image would break.
    #[error("the stub has a certificate table")]
    SignedStub,
    /// A part has the name of a section of the stub, or of an earlier part.
    #[error("a section is there twice")]
    SectionTwice { name: SectionName },
    /// The new `.sbat` has more bytes than the raw data of the stub's.
    #[error(".sbat has {length} bytes and room for {room}")]
    SbatDoesNotFit { length: u32, room: u32 },
    /// The section headers of the image need more bytes than the stub's headers have, or than 96 section headers take.
    #[error("headers need {need} bytes and have {have}")]
    NoHeaderSpace { need: u32, have: u32 },
    /// SizeOfImage, or else SizeOfInitializedData, would be this number, which passes 32 bits.
    #[error("the image ends at {end}")]
    AddressSpace { end: u64 },
    /// The image would have this many bytes, which are more than 268,435,456.
    #[error("the image has {size} bytes")]
    ImageTooLarge { size: u64 },
}

impl From<AllocError> for LayoutFault {
    ghost from_gives = { λ _ fault. fault ≡ Memory };

    fn from(_error: AllocError) -> LayoutFault {
        LayoutFault::Memory
    }
}
