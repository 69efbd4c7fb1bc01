//! Which build this is, and where it was started: the log's first line.

use std::rt::Env;

/// The version: the day on which it was made, behind a zero. It stands here alone.
pub(crate) const VERSION: &str = "0.20261130";

/// The commit that the program was built from. tools/build writes it here for the time of a build.
pub(crate) const COMMIT: &str = "unknown";

/// The most bytes of a folder's path that the system tells.
const FOLDER_LIMIT: usize = 4096;

/// Prints the log's first line: which build runs, and in which folder it was started, if that can be told. It takes no
/// memory, and whether it can be printed changes nothing.
pub(crate) fn report_build<R: Env, E: Print>(rt: &R, err: &E) {
    let mut buffer = [0u8; FOLDER_LIMIT];
    let _ = match started_in(rt, &mut buffer) {
        Some(folder) => err.println(format_args!(
            "boot_tools {VERSION} (commit {COMMIT}), started in {folder}"
        )),
        None => err.println(format_args!("boot_tools {VERSION} (commit {COMMIT})")),
    };
}

// The folder that the program was started in, if the system tells it and it is UTF-8.
fn started_in<'a, R: Env>(rt: &R, buffer: &'a mut [u8]) -> Option<&'a str> {
    let count = rt.current_dir(buffer).ok()?;
    str::from_utf8(&buffer[..count]).ok()
}
