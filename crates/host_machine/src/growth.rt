//! A folder that grows by a cluster.
use crate::answers::repeated;
use std::alloc::AllocError;
use std::fs::OpenOptions;
use std::os::unix::fs::OpenOptionsExt;
use std::rt::Runtime;
use std::{fs, io};

/// How many names come at most. A long name of FAT has an entry of 32 bytes for 13 letters, and one more: together these take
/// more than 32 KiB, which is the largest cluster by Microsoft's specification.
const NAMES: usize = 100;

/// Where the name of each begins.
const NAME: &str =
    "/boot_tools.trial.of.a.folder.behind.a.failed.sync.may.be.removed.if.it.is.here.still.after.fsck.and.a.mount.anew";

/// The mode of a file that its owner alone may open.
const MODE: u32 = 0o600;

// Makes empty files in a folder until it has grown, or the system makes none, and removes them.
pub(crate) fn grow<R: Runtime + AllocGlobal>(rt: &R, folder: &str) -> io::Result<()> {
    let length = fs::metadata(rt, folder)?.len();
    let mut path = String::from_str(rt.alloc(), folder)?;
    path.push_str(NAME)?;
    let mut made = Vec::new(rt.alloc());
    let answer = make_names(rt, folder, length, &mut path, &mut made);
    for name in made.as_slice() {
        let _ = repeated(|| fs::remove_file(rt, name.as_str()));
    }
    answer
}

fn make_names<R: Runtime + AllocGlobal>(
    rt: &R,
    folder: &str,
    length: u64,
    path: &mut String,
    made: &mut Vec<String>,
) -> io::Result<()> {
    for _ in 0..NAMES {
        path.push_str("-")?;
        OpenOptions::new()
            .append(true)
            .create_new(true)
            .mode(MODE)
            .open(rt, path.as_str())?;
        made.push(String::from_str(rt.alloc(), path.as_str())?)?;
        if fs::metadata(rt, folder)?.len() != length {
            return Ok(());
        }
    }
    Ok(())
}
