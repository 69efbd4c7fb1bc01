//! Makes calls on images and their parts, and tells what they give. Each row is a line on standard input; it is told
//! again behind `> `, and below it what came of it.
//!
//! Rows about a file:
//!
//! - `image SAMPLE CHANGE..`: the file is a sample of `sample_images`, or `headers` of 16 data directories without a
//!   section. A change is `FIELD=NUMBER`, of a section `FIELD.INDEX=NUMBER`, by the names of PE/COFF; `name.INDEX=TEXT`
//!   names a section, `empty.ADDRESS=NAME` adds one without bytes, `put.PLACE=BYTES` puts bytes there, and
//!   `length=COUNT` cuts the file or fills it up with zeros. `fill COUNT BYTE`: so many bytes more.
//! - `demo DIGIT`: the file is that image of those which a demonstration begins with.
//! - `fields FIELD..`, `bytes PLACE COUNT`, `sha256 PLACE COUNT`: what stands in it.
//! - `read`: how many sections its headers name, or the first check that fails. `headers`, `range NAME`: what they say,
//!   and where the loaded bytes of a section stand. `head`: as `read`, by reads of a machine, with the place and the
//!   length of each.
//! - `refusal NAME:LENGTH..`: why there is no image of it and such parts. `build NAME=BYTES..`: the image of it and
//!   these parts, which is the file from then on. `sbat BYTES`: from then on both have these as its `.sbat`.
//! - `replay BANK`: the register after a stub has measured it. `replay_file`: that of SHA-256, by reads of a machine.
//! - `fail N`: the call of that number fails on the next machine.
//!
//! Rows without a file: `digest BANK:BYTES`, `pieces BANK:BYTES|..`, `extend BANK:BYTES|..`,
//! `extend_digest BANK:BYTES`, `heading PATH`, `name TEXT`, `cmdline TEXT`, `initrds SIZE..`, `merge STUB|GIVEN`,
//! `sections NAME:SIZE:BYTES..`: the JSON of sections with such names and sizes and the digests of these bytes,
//! `scan BYTES`: the menu of the partition at that path on a machine with one entry, in `efi`.
//!
//! In bytes a backslash and a letter stand for one as in C, `\s` for a space, `TEXT*COUNT` for so many texts, and `+`
//! stands between pieces. Lines that begin with `#` are comments. A line that isn't understood is told behind `? `.
#![tactic(auto)]

mod build;
mod case;
mod fault;
mod file;
mod image;
mod json;
mod measure;
mod menu;
mod parts;
mod read;
mod refusal;
mod register;
mod tell;
mod words;

use case::Case;
use fault::RowFault;
use std::io;
use tell::tell_line;

fn main(rt: HostRuntime) -> Result<(), RowFault> {
    let alloc = rt.alloc();
    let lines = io::read_to_string(alloc, rt.reader())?;
    let mut case = Case::new(alloc);
    for line in lines.as_str().lines() {
        let told = tell_line(alloc, line, &mut case)?;
        print!(rt; "{told}")?;
    }
    Ok(())
}
