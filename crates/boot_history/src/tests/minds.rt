//! Runs over a machine that changes its mind about a file between any two of their calls.
use super::fickle::{Fickle, Kept, Turn, kept_at};
use super::words_of;
use boot_commands::demo_image;
use boot_machine::Channel;
use boot_run::run;
use std::alloc::{AllocError, Global};
use std::test::Fail;

/// A run on a machine with one file, and what comes of it by the call before which the machine changes its mind.
#[derive(Clone, Copy)]
struct Row {
    line: &'static str,
    /// The file, and its bytes: None is an image that is an entry.
    from: &'static str,
    bytes: Option<&'static [u8]>,
    /// The file about which it changes its mind: `from` goes, and any other comes.
    turned: &'static str,
    /// The reply if it never does.
    usual: &'static str,
    /// The line of a file that is gone, and that of one that is there already.
    gone: &'static str,
    exists: &'static str,
    /// For each call of the usual run what comes of a change of mind before it:
    ///
    /// - `g` and `e`: the refusal of a file that is gone, and of one that is there. No other file is changed.
    /// - `p`: the plan is another one, and no other file is changed.
    /// - `f`: a fault of the disk, and no reply.
    /// - `d`: the usual reply, and each other file is as usual.
    /// - `z`: the usual reply, and zeros in place of the bytes that the machine has told of and didn't give.
    letters: &'static str,
}

const A_CONF: &str = "efi/loader/entries/a.conf";

const COUNTED: &str = "efi/loader/entries/a+3.conf";

const GOOD: &str = "good /efi/loader/entries/a.conf\n";

const NO_COUNTED: &str = "refusal 1: /efi/loader/entries/a+3.conf is not there\n";

const NO_K: &str = "refusal 1: /k is not there\n";

// Each run begins with a sync and a look for an intent.
const ROWS: [Row; 5] = [
    // The plan looks for the file. Then come a sync, a look; the removal; a sync, the reply.
    Row {
        line: "bootctl unlink a.conf",
        from: A_CONF,
        bytes: Some(b"linux /k\n"),
        turned: A_CONF,
        usual: "unlinked /efi/loader/entries/a.conf\n",
        gone: "refusal 1: /efi/loader/entries/a.conf is not there\n",
        exists: "",
        letters: "gggggfdd",
    },
    // The plan looks for the good name and the counted one; and for the bad one. Then come a sync, a look for the
    // counted one; a look for the good one, five calls that put the intent in its place, the rename; a sync, two calls
    // that take the intent away, the reply.
    Row {
        line: "bless good loader/entries/a+3.conf",
        from: COUNTED,
        bytes: Some(b"linux /k\n"),
        turned: COUNTED,
        usual: GOOD,
        gone: NO_COUNTED,
        exists: "",
        letters: "ppppgggfffffffdddd",
    },
    // The calls are those of the row above. A file that comes at the good name between the look for it and the rename
    // is replaced.
    Row {
        line: "bless good loader/entries/a+3.conf",
        from: COUNTED,
        bytes: Some(b"linux /k\n"),
        turned: A_CONF,
        usual: GOOD,
        gone: NO_COUNTED,
        exists: "refusal 14: /efi/loader/entries/a.conf is there already\n",
        letters: "pppeeeeedddddddddd",
    },
    // The plan looks for the image; it reads its headers in four pieces, and its text. Then come a sync, a look; the
    // new file, a read; an append, three calls that put it in its place, the reply.
    Row {
        line: "install k a",
        from: "k",
        bytes: None,
        turned: "k",
        usual: "installed /efi/EFI/Linux/a.efi\n",
        gone: NO_K,
        exists: "",
        letters: "gggpppppggzzddddd",
    },
    // A look and a read tell the payload's name, which is the digest of `abc` in FIPS 180. The plan of its copy looks
    // for the kernel; and for the payload. Then come a sync, a look; the new file, a read; an append, three calls that
    // put it in its place, the reply. Seven calls enter the entry.
    Row {
        line: "type1 install b --linux=k",
        from: "k",
        bytes: Some(b"abc"),
        turned: "k",
        usual: "placed /efi/boot_tools/ba7816bf8f01cfea414140de5dae2223b00361a396177a9cb410ff61f20015ad\n\
            installed /efi/loader/entries/b.conf\n",
        gone: NO_K,
        exists: "",
        letters: "ggggggggzzdddddddddddd",
    },
];

/// What a run came to.
#[derive(Drop)]
struct Told {
    status: u8,
    out: Vec<u8>,
    err: Vec<u8>,
    calls: u64,
    files: Vec<Kept>,
}

// The bytes that were printed there.
fn bytes_on(alloc: Global, machine: &Fickle, to: Channel) -> Result<Vec<u8>, AllocError> {
    let mut bytes = Vec::new(alloc);
    for printed in machine.printed_bytes() {
        if printed.to == to {
            bytes.push(printed.byte)?;
        }
    }
    Ok(bytes)
}

// The one file that there is at first.
fn start_of(alloc: Global, row: &Row) -> Result<Vec<Kept>, AllocError> {
    let path = String::from_str(alloc, row.from)?;
    let bytes = match row.bytes {
        Some(bytes) => bytes.to_vec(alloc)?,
        None => demo_image(alloc, 1)?,
    };
    Ok(vec![in alloc; Kept { path, bytes }]?)
}

// The machine finds a file where none was, and none where one was.
fn turn_of(alloc: Global, row: &Row, call: u64) -> Result<Turn, AllocError> {
    let path = String::from_str(alloc, row.turned)?;
    let bytes = if row.turned == row.from {
        None
    } else {
        Some(b"other".to_vec(alloc)?)
    };
    Ok(Turn { call, path, bytes })
}

// What the run comes to on a machine that changes its mind before that call.
fn told_by(alloc: Global, row: &Row, call: u64) -> Result<Told, AllocError> {
    let words = words_of(alloc, row.line)?;
    let files = start_of(alloc, row)?;
    let mut machine = Fickle::new(alloc, files, turn_of(alloc, row, call)?);
    let status = run(alloc, &words, &mut machine);
    Ok(Told {
        status,
        out: bytes_on(alloc, &machine, Channel::Out)?,
        err: bytes_on(alloc, &machine, Channel::Err)?,
        calls: machine.calls(),
        files: machine.into_files(),
    })
}

// Each of the files but the one at that path is among the others.
fn are_among(files: &[Kept], others: &[Kept], but: &str) -> bool {
    for kept in files {
        let path = kept.path.as_str();
        match kept_at(others, path) {
            _ if path == but => {}
            Some(other) if other.bytes == kept.bytes => {}
            _ => return false,
        }
    }
    true
}

fn are_same(files: &[Kept], others: &[Kept], but: &str) -> bool {
    are_among(files, others, but) && are_among(others, files, but)
}

fn refusal_letter(told: &Told, row: &Row) -> char {
    if told.err.as_slice() == row.gone.as_bytes() {
        return 'g';
    }
    if told.err.as_slice() == row.exists.as_bytes() {
        return 'e';
    }
    'p'
}

fn letter_of(told: &Told, row: &Row, before: &[Kept], usual: &Told) -> char {
    let is_usual = told.out == usual.out && told.err.is_empty();
    let changed = !are_same(&told.files, before, row.turned);
    match told.status {
        0 if is_usual && are_same(&told.files, &usual.files, row.turned) => 'd',
        0 if is_usual => 'z',
        0 if !changed => 'p',
        1 if told.out.is_empty() && !changed => refusal_letter(told, row),
        3 if told.out.is_empty() && told.err.is_empty() => 'f',
        _ => '?',
    }
}

// The letters of all calls of a run.
fn letters_of(alloc: Global, row: &Row, usual: &Told) -> Result<String, AllocError> {
    let before = start_of(alloc, row)?;
    let mut letters = String::new(alloc);
    for earlier in 0..usual.calls {
        let told = told_by(alloc, row, earlier.saturating_add(1))?;
        letters.push(letter_of(&told, row, &before, usual))?;
    }
    Ok(letters)
}

#[test]
fn a_changed_mind_is_refused_or_is_no_matter(rt: HostRuntime) -> Result<(), Fail> {
    let alloc = rt.alloc();
    for row in ROWS {
        let usual = told_by(alloc, &row, u64::MAX)?;
        assert_eq!(rt; usual.status, 0);
        assert_eq!(rt; usual.out.as_slice(), row.usual.as_bytes());
        let letters = letters_of(alloc, &row, &usual)?;
        let (line, turned) = (row.line, row.turned);
        assert_eq!(rt; letters.as_str(), row.letters, "{line}, of {turned}");
    }
    Ok(())
}
