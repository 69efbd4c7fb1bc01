//! Reads the headers of PE32+ files, as UEFI stubs and unified kernel images are (Microsoft PE/COFF), and says
//! where the loaded bytes of each section stand.
//!
//! A file reads exactly where none of nineteen checks fails; else the first one that fails is named, with the
//! place that it is about. The checks look at the headers' bytes and at the file's size alone, so the headers of
//! a machine's file are read without the rest of it. All numbers of the format are little endian, and all places
//! and sizes are counted in bytes.
#![tactic(auto)]

mod fault;
mod fields;
mod head;
mod laws;
mod pe;
mod reason;
mod section;
mod stages;
mod table;

pub use fault::{HeadFault, PeFault};
pub use fields::part;
pub use head::Head;
pub use laws::{grammar_is_the_facts, headers_are_the_fields};
pub use pe::Pe;
pub use reason::PeReason;
pub use section::{LoadedRange, Section};
