//! Writes a unified kernel image through one buffer, whatever its size, and without memory (UAPI Unified Kernel Image,
//! Microsoft PE/COFF).
//!
//! The bytes are those that `image_bytes` of `pe_builder` gives in memory. What an image has in place of its stub's
//! bytes stands at places that rise: three numbers and the CheckSum of its headers, the length of a replaced `.sbat`,
//! the headers of the new sections, and the raw data of the `.sbat`. So the image is a row of chunks, each of them
//! some of the stub's bytes or a few new ones, and behind them the padded parts. They are appended in that order to a
//! temporary file, which `write_planned` then puts in its place. All places and sizes are counted in bytes.
#![tactic(auto)]

mod append;
mod chunk;
mod image;
mod part;
mod planned;
mod sources;

pub use image::write_image;
pub use planned::write_planned;
pub use sources::Sources;
