//! What is said of another run.
ghost use Rattle.std.specs.Prelude.{◌≡◌};
ghost use Rattle.std.specs.IoError.{error_kind};

use std::alloc::Global;
use std::io;
use std::io::ErrorKind;

/// Another run is met at a path. If there is no memory for the path the words stand alone.
pub fn met_fault(alloc: Global, words: &str, path: &str) -> io::Error
    ensures { error_kind result ≡ ErrorKind.WouldBlock }
{
    match format!(in alloc; "{words}: {path}") {
        Ok(text) => io::Error::new(ErrorKind::WouldBlock, text.as_str()),
        Err(_) => io::Error::new(ErrorKind::WouldBlock, words),
    }
}

/// Another run is met, and these words alone say so.
pub fn other_run(words: &str) -> io::Error
    ensures { error_kind result ≡ ErrorKind.WouldBlock }
{
    io::Error::new(ErrorKind::WouldBlock, words)
}

/// What stands at a path isn't what this run has read there.
pub fn changed_fault(alloc: Global, path: &str) -> io::Error
    ensures { error_kind result ≡ ErrorKind.WouldBlock }
{
    met_fault(alloc, "another run has changed", path)
}
