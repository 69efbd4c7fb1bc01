//! Tells stories: runs of the program over a machine in memory, with what they print and what they leave. A story is
//! lines on standard input; each is told again behind `> `, and below it what came of it.
//!
//! - `machine`: a new machine with a kernel, a stub and images. `machine parts`: one with all that images are built of.
//! - `copy FROM PATH`, `write PATH TEXT` (with `\n` for a newline and `\xff` for that byte): a file is written.
//! - `image PATH TEXT`: an image with that os-release text is written.
//! - `fill PATH COUNT BYTE`: so many of that byte are written.
//! - `series PATH COUNT`: so many bytes are written, which rise from 0 to 250 again and again.
//! - `extend PATH COUNT`: the file is filled up to so many bytes, with ones that rise from 0 on in the same way.
//! - `crowd FOLDER COUNT SUFFIX`: so many empty files are written into the folder, `a0` with that suffix and so on.
//! - `leave PATH`: a temporary file is left, as it is where a write of that path is stopped.
//! - `intent COUNT TEXT`: the intent of a rename is written: the text, filled up with zeros to so many bytes.
//! - `run WORDS`: the program runs on the words, which are parted as those of a script. Below it stand what it printed
//!   on Out and on Err, and its status. A byte that isn't printable is told as in `write`, and a backslash twice.
//! - `menu`: `bootctl list` runs. Below it stand the sources of the entries in their order.
//! - `reads`: the reads of the last run that gave bytes.
//! - `line TEXT`: a line of the standard input of the runs up to the next `run`.
//! - `input PATH`: that standard input is what the file has.
//! - `fail N before` and `fail N after`: the call of that number from now on fails.
//! - `faults WORDS`: what that run comes to of which one call fails, before it has done anything or after it has done
//!   all, each outcome once, in the order of the calls: what is acknowledged, the status, and what is left. The machine
//!   stays as it is.
//! - `files FOLDER`: the files directly in the folder, each with what it has: the sample with the same bytes, or a
//!   short text, or the digest of its bytes.
//! - `text PATH`: the bytes of the file, told as those that a run prints, and how many they are.
//! - `same ONE OTHER`: whether two files have the same bytes.
//! - `left`: all files but temporary ones and samples in their own place: those in the folders of boot entries and
//!   beside `loader.conf` by their names, others by their paths; how many there are besides; the intent of a rename.
//! - `total`: how many files there are but temporary ones.
//! - `stops WORDS`: what a stop of that run may leave, each outcome once, in the order of the calls before it. The
//!   machine stays as it is.
//! - `then WORDS`: what these words come to, with the same standard input, after each stop of the last `stops` or each
//!   fault of the last `faults`, whichever came later, each outcome once.
//! - `stop N CANDIDATE WORDS`: the run is stopped after so many calls, and that candidate is left.
//!
//! Lines that begin with `#` are comments. A line that isn't understood is told behind `? `.
#![tactic(auto)]

mod contents;
mod fault;
mod files;
mod known;
mod left;
mod lines;
mod outcomes;
mod replies;
mod samples;
mod story;
mod tell;
mod writes;

use fault::StoryFault;
use std::io;
use story::Story;
use tell::tell_line;

fn main(rt: HostRuntime) -> Result<(), StoryFault> {
    let alloc = rt.alloc();
    let lines = io::read_to_string(alloc, rt.reader())?;
    let mut story = Story::new(alloc)?;
    for line in lines.as_str().lines() {
        let told = tell_line(alloc, line, &mut story)?;
        print!(rt; "{told}")?;
    }
    Ok(())
}
