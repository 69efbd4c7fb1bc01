//! Builds a unified kernel image of a UEFI stub and the bytes of its parts, as ukify does (UAPI Unified Kernel Image,
//! Microsoft PE/COFF).
//!
//! A plan is made of the stub's headers and of the parts' names, lengths and flags alone: it says where each new
//! section stands, or why there is no image. The image then keeps the stub's bytes but for four numbers of its headers,
//! the section headers behind its own, and the content of its `.sbat` where that is replaced in place; the parts stand
//! behind it. All places and sizes are counted in bytes.
#![tactic(auto)]

mod extent;
mod fault;
mod headers;
mod image;
mod laws;
mod layout;
mod plan;
mod puts;
mod refusal;
mod size;
mod taken;

pub use fault::LayoutFault;
pub use image::image_bytes;
pub use laws::{image_by_place, image_loads, image_reads, sizes_agree};
pub use plan::{ImageLayout, SbatPlace};
pub use size::PartSize;
