//! Tells what the calls answer that read paths, names, texts, versions and words. A row is a line on standard input: a
//! call and its arguments, parted by `|`. It is told again behind `> `, and below it what the call answers.
//!
//! - `path WORD`, `printed WORD`, `file-name WORD`: the path that a word names, how it is printed, its last component.
//! - `intent`, `named TEXT`: the path of the intent, and a path that an intent names.
//! - `sibling PATH|NAME`, `under FOLDER|BELOW`: a path beside and below another one.
//! - `target WORD`: the path of a file, and where it is written first.
//! - `name TEXT`, `leftover FOLDER|NAME`: the name of a file, and the path of a temporary file that is left.
//! - `refusal KIND|FIELD|..`, `refusal-line KIND|FIELD|..`: a refusal's text, and its printed line. The field of
//!   `AddressSpace` is the last address.
//! - `counter NAME`, `booted NAME`: the counter of a file's name, and the one after one more boot.
//! - `good NAME`, `bad NAME`, `joined BASE|LEFT|DONE|SUFFIX`: the names after a good boot and a bad one, and that
//!   of such a counter.
//! - `choices NAME ..`: what is renamed after a good boot, a bad one and one of which nothing is known, where of the
//!   names `good`, `counted` and `bad` these are there.
//! - `compare VERSION|VERSION`, `compare-keys VERSION|VERSION`: how they compare, and how the other way round.
//! - `lines TEXT`: the lines of a text of settings, each before a `;`.
//! - `values KEY,..|TEXT`, `release TEXT`: values of an os-release text by their keys; its title, version and sort key.
//! - `entry TEXT`: what an entry file says.
//! - `matches PATTERN|TEXT`, `pattern BYTES`: whether a pattern matches a text, and whether bytes are a pattern.
//! - `value KEY|VALUE`, `settings TEXT`, `change KEY|VALUE|TEXT`: whether a value may be written for a key of
//!   loader.conf, what such a text says, and the text with another value. The keys are `default` and `timeout`.
//! - `chosen TEXT|IDS`: the place, counted from 0, of the id that a text of loader.conf chooses; newlines part the ids.
//! - `split LINE`, `words LINE`: the words of a line, parted by `|`, and the command that they mean or the usage line.
//!
//! The arguments are written in the notation of `notation`, and so is what is told. Lines that begin with `#` are
//! comments. A line that isn't understood is told behind `? `.
#![tactic(auto)]

mod counters;
mod fault;
mod loader;
mod notation;
mod paths;
mod refusals;
mod row;
mod settings;
mod tell;
mod texts;
mod versions;
mod words;

use fault::RowFault;
use std::io;
use tell::tell_line;

fn main(rt: HostRuntime) -> Result<(), RowFault> {
    let alloc = rt.alloc();
    let lines = io::read_to_string(alloc, rt.reader())?;
    for line in lines.as_str().lines() {
        let told = tell_line(alloc, line)?;
        print!(rt; "{told}")?;
    }
    Ok(())
}
