//! Writes that are repeated until all is written.
ghost use Rattle.std.specs.Prelude.{OnOk};
ghost use Rattle.std.specs.Io.KnownBytes.{Appends};
ghost use Rattle.folder_calls.specs.Written.{AppendsStart};

use std::io;
use std::io::{ErrorKind, Write};

/// Writes all of the bytes. A write that is interrupted is made again, and one that takes
/// none of them is a failure.
pub fn write_all_bytes<W: Write>(writer: &mut W, bytes: &[u8]) -> io::Result<()>
    ensures whole { OnOk result (Appends (W.contents writer.old) (W.contents writer.new) bytes.now) }
    ensures part { AppendsStart (W.contents writer.old) (W.contents writer.new) bytes.now }
{
    let mut rest = bytes;
    for _ in 0..u64::MAX {
        if rest.is_empty() {
            return Ok(());
        }
        match writer.write(rest) {
            Ok(0) => return Err(io::Error::from(ErrorKind::WriteZero)),
            Ok(count) => rest = &rest[count..],
            Err(error) if error.kind() == ErrorKind::Interrupted => {}
            Err(error) => return Err(error),
        }
    }
    Err(io::Error::from(ErrorKind::Interrupted))
}
