//! Small PE32+ images for tests, whose headers are set by the names of their fields (Microsoft PE/COFF).
//!
//! A `SampleImage` begins as headers without a section, or as one of the samples: `stub`, `stub_with_sbat` and so on.
//! A test adds sections to it, sets fields and puts bytes into it, right or wrong. Nothing here reads or checks an
//! image, and no call fails: what has no room is left out. All places and sizes are counted in bytes.
#![tactic(auto)]

mod field;
mod image;
mod samples;
mod section;

pub use field::{Field, field_of};
pub use image::{ROOM, SampleImage};
pub use samples::{LINUX, OSREL_TEXT, SBAT_TEXT};
pub use section::{CODE, DATA, READ_ONLY_CODE, Section, TEXT};
