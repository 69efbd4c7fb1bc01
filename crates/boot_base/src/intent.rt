//! What an intent's bytes name.
ghost use Rattle.std.specs.Prelude.{◌≡◌, ◌==◌, IfOk, position, option_map};
ghost use Rattle.boot_base.specs.Paths.{at_nul, read_intent};
ghost use Rattle.boot_base.specs.Intents.{cut_of, names_of};

use crate::path::BootPath;
use std::alloc::{AllocError, Global};

/// The most bytes of an intent: two paths of 1,024 bytes, each with a NUL.
pub const INTENT_LIMIT: u64 = 2050;

fn nul_place(bytes: &[u8]) -> Option<usize>
    ensures { result ≡ position (λ byte. byte == 0) bytes.now }
{
    bytes.iter().position(|byte| *byte == 0)
}

// What stands before the first NUL, and behind it.
fn cut_at_nul(bytes: &[u8]) -> Option<(&[u8], &[u8])>
    ensures { option_map cut_of result ≡ at_nul bytes.now }
{
    match nul_place(bytes) {
        Some(at) => Some((&bytes[..at], &bytes[at + 1..])),
        None => None,
    }
}

/// The two names of a rename, as the file at `INTENT` tells them while it is made.
#[derive(Debug, Drop)]
pub struct IntentNames {
    pub from: BootPath,
    pub to: BootPath,
}

impl IntentNames {
    /// The names in an intent of these bytes, if they are in its form: two paths that differ, each with a NUL behind it,
    /// and nothing else.
    ///
    /// # Errors
    ///
    /// Only where there is no memory for the names.
    pub fn read(alloc: Global, bytes: &[u8]) -> Result<Option<IntentNames>, AllocError>
        ensures { IfOk result (λ found. option_map names_of found ≡ read_intent bytes.now) }
    {
        let Some((first, behind)) = cut_at_nul(bytes) else {
            return Ok(None);
        };
        let Some((second, rest)) = cut_at_nul(behind) else {
            return Ok(None);
        };
        if !rest.is_empty() {
            return Ok(None);
        }
        if first == second {
            return Ok(None);
        }
        let Some(from) = BootPath::from_bytes(alloc, first)? else {
            return Ok(None);
        };
        let Some(to) = BootPath::from_bytes(alloc, second)? else {
            return Ok(None);
        };
        Ok(Some(IntentNames { from, to }))
    }
}
