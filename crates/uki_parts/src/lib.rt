//! The parts of a unified kernel image before it is built (UAPI Unified Kernel Image specification): the names of
//! their sections, what each part consists of, the order in which a builder appends them, and how a command line, a
//! list of initrds and the SBAT metadata come to be one part each.
#![tactic(auto)]

mod cmdline;
mod initrds;
mod kind;
mod laws;
mod name;
mod part;
mod part_list;
mod piece;
mod sbat;
mod text;

pub use cmdline::clean_cmdline;
pub use initrds::join_initrds;
pub use kind::PartKind;
pub use laws::{joined_bytes_of_initrds, parts_of_a_kind};
pub use name::SectionName;
pub use part::Part;
pub use part_list::PartList;
pub use piece::{Piece, pieces_length};
pub use sbat::merge_sbat;
