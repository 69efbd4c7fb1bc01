//! Pieces of a part.

ghost use Rattle.std.specs.Prelude.{◌≡◌, ◌-◌, ◌^◌, min};
ghost use Rattle.uki_parts.specs.Pieces.{piece_length, total_length};

use boot_base::{BootPath, Bytes};

/// Some of the bytes of a part.
#[derive(Debug, Drop)]
pub enum Piece {
    /// These bytes.
    Bytes(Bytes),
    /// The bytes of a file: its path, and its size in bytes.
    File { path: BootPath, size: u64 },
    /// So many zero bytes.
    Zeros(u64),
}

impl Piece {
    ghost use Rattle.std.specs.Prelude.{◌≡◌};
    ghost use Rattle.uki_parts.specs.Pieces.{piece_length};

    /// How many bytes the piece stands for. It takes no memory.
    pub fn length(&self) -> u64
        ensures { result ≡ piece_length self.now }
    {
        match self {
            Piece::Bytes(bytes) => bytes.as_slice().len() as u64,
            Piece::File { size, .. } => *size,
            Piece::Zeros(count) => *count,
        }
    }
}

/// How many bytes the pieces stand for together, or the greatest u64 where they are more. It takes no memory.
pub fn pieces_length(pieces: &[Piece]) -> u64
    ensures { result ≡ min (total_length pieces.now) (2 ^ 64 - 1) }
{
    let mut length: u64 = 0;
    for piece in pieces {
        length = length.saturating_add(piece.length());
    }
    length
}
