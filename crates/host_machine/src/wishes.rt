//! What the environment asks for.
use std::rt::Env;

/// Whether the environment asks for a log on Err: `BOOT_TOOLS_LOG` is `1`.
/// It takes no memory.
pub fn reports_are_wanted<R: Env>(rt: &R) -> bool {
    let mut value = [0u8; 1];
    rt.var("BOOT_TOOLS_LOG", &mut value).is_ok() && value == *b"1"
}
