//! A part of an image.

use crate::kind::PartKind;
use crate::name::SectionName;
use crate::piece::Piece;

/// A part of an image: one section to be added.
#[derive(Debug, Drop)]
pub struct Part {
    /// What the part is, which gives its place among the others.
    pub kind: PartKind,
    /// The section's name.
    pub name: SectionName,
    /// Its bytes, piece by piece.
    pub pieces: Vec<Piece>,
    /// How many bytes the pieces stand for together.
    pub length: u64,
}
