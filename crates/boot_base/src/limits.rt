//! The sizes that the whole tool keeps to, in bytes.

/// The most bytes of a file that is read or written: 256 MiB.
pub const FILE_LIMIT: u64 = 268_435_456;

/// The most bytes of a text that is read or written: of an entry file, an os-release text and a loader.conf.
pub const TEXT_LIMIT: u64 = 65_536;

/// How many bytes of a file are held at a time: 64 KiB.
pub const PIECE_SIZE: usize = 65_536;

/// A buffer through which the bytes of a file go, piece by piece.
pub type Buffer = [u8; PIECE_SIZE];
