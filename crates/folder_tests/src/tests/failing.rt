//! Whole commands of which one call fails.
use super::handle::{Ran, SharedShelf, Trouble, files_of, run_line, run_with};
use super::shelf::Kept;
use super::{
    command_of, have_same_boot_files, have_same_files, is_cut_short, recovers, say_same, start,
    turns_of,
};
use std::alloc::Global;
use std::io;
use std::process::Abort;
use std::test::Fail;

/// The call of that number fails.
#[derive(Drop)]
struct FailsAt {
    call: u64,
}

impl Trouble for FailsAt {
    fn come(&self, call: u64, _shelf: &SharedShelf) -> io::Result<()> {
        if call == self.call {
            return Err(io::Error::other("failed"));
        }
        Ok(())
    }
}

/// A command, and for each of its calls in their order what comes of it if that one fails. Calls in a row with the same
/// letter have one.
///
/// - `f`: a fault of the disk, no reply, and each boot file as before: the change isn't made yet, or is taken back.
/// - `F`: a fault of the disk before the last reply, and each boot file as after: the change is made. It isn't synced, or its
///   intent isn't gone for good. What was put where nothing stood is taken back if a sync fails.
/// - `p`: a fault of the pipe, and the same: the last reply isn't printed.
/// - `m`: either fault in a command of several actions, of which some are done.
/// - `d`: all is as usual. A look may fail whether the renamed file that is open still has its name: then it is synced by
///   its name.
///
/// If a sync fails of a folder that was only looked at, or a look before it, that is a fault too.
///
/// The next list then ends well, changes no boot file and leaves no intent. The same command once more does what it does on
/// these files; behind `m` it does the rest.
const ROWS: [(&str, &str); 21] = [
    // A run begins with a look for an intent. What reads alone looks again at all that it has read, behind its sync.
    ("list", "fp"),
    ("show", "fp"),
    ("status", "fp"),
    ("identify", "fp"),
    ("inspect", "fp"),
    ("calculate", "fp"),
    ("image", "fp"),
    // A script is read first, and its reply has a line behind it.
    ("script", "pfp"),
    // The plan looks for the file, and its folders are synced. The file and its folder are locked before it goes. Then
    // comes the sync.
    ("unlink five", "fFp"),
    // What is put in place gets its name last. Behind that are the looks at the new name, and the syncs.
    ("build", "fFdFp"),
    ("default", "fFdFp"),
    ("timeout", "fFdFp"),
    ("install", "fFdfp"),
    ("install five", "fFdFp"),
    // The intent is put in its place and synced before the entry gets its new name, and goes behind the sync of that.
    ("good", "fdfFp"),
    ("boot", "fdfFp"),
    // A leftover isn't a boot file.
    ("tidy", "fp"),
    // The payload is put in its place, and then the entry.
    ("type1", "fmdfmFdmp"),
    // The payload stands there already, so its reply is all that the first action does.
    ("type1 of gone", "fmFdmp"),
    ("cleanup", "fFp"),
    // Two entries go.
    ("keep", "fmFp"),
];

/// How many tests share the rows.
const TESTS: usize = 4;

/// A command, the files before it, and what comes of it the first time and the second.
#[derive(Drop)]
struct Usual<'a> {
    line: &'a str,
    before: Vec<Kept>,
    once: Ran,
    twice: Ran,
}

fn usual_of(alloc: Global, line: &str) -> io::Result<Usual<'_>> {
    let shelf = start(alloc)?;
    Ok(Usual {
        line,
        before: files_of(&shelf)?,
        once: run_line(alloc, &shelf, line)?,
        twice: run_line(alloc, &shelf, line)?,
    })
}

fn letter_of(usual: &Usual<'_>, ran: &Ran) -> char {
    let is_after = have_same_boot_files(&ran.files, &usual.once.files);
    let is_before = have_same_boot_files(&ran.files, &usual.before);
    match ran.status {
        0 if say_same(ran, &usual.once) && have_same_files(&ran.files, &usual.once.files) => 'd',
        3 if ran.said.is_empty() && is_before => 'f',
        3 if is_cut_short(ran, &usual.once) && is_after => 'F',
        4 if is_cut_short(ran, &usual.once) && is_after => 'p',
        3 | 4 if is_cut_short(ran, &usual.once) => 'm',
        _ => 'w',
    }
}

fn letter_at(alloc: Global, usual: &Usual<'_>, call: u64) -> io::Result<char> {
    let shelf = start(alloc)?;
    let ran = run_with(alloc, &shelf, usual.line, FailsAt { call })?;
    let letter = letter_of(usual, &ran);
    let wanted = match letter {
        'F' | 'p' => &usual.twice,
        _ => &usual.once,
    };
    let is_begun = letter == 'm';
    if letter == 'd' || recovers(alloc, &shelf, &ran.files, usual.line, wanted, is_begun)? {
        Ok(letter)
    } else {
        Ok('w')
    }
}

// The rows of one of the tests that share them: a test has a minute.
fn compare_rows(rt: &impl Abort, alloc: Global, test: usize) -> Result<(), Fail> {
    for (row, line) in ROWS.iter().enumerate() {
        if row % TESTS == test {
            let (name, wanted) = *line;
            let usual = usual_of(alloc, command_of(name)?)?;
            assert_eq!(rt; usual.once.status, 0, "{name}");
            let mut letters = Vec::new(alloc);
            for earlier in 0..usual.once.calls {
                letters.push(letter_at(alloc, &usual, earlier.saturating_add(1))?)?;
            }
            let turns = turns_of(alloc, letters.as_slice())?;
            assert_eq!(rt; turns.as_str(), wanted, "{name}");
        }
    }
    Ok(())
}

#[test]
fn a_call_that_fails_leaves_no_half_a_change_0(rt: HostRuntime) -> Result<(), Fail> {
    compare_rows(&rt, rt.alloc(), 0)
}

#[test]
fn a_call_that_fails_leaves_no_half_a_change_1(rt: HostRuntime) -> Result<(), Fail> {
    compare_rows(&rt, rt.alloc(), 1)
}

#[test]
fn a_call_that_fails_leaves_no_half_a_change_2(rt: HostRuntime) -> Result<(), Fail> {
    compare_rows(&rt, rt.alloc(), 2)
}

#[test]
fn a_call_that_fails_leaves_no_half_a_change_3(rt: HostRuntime) -> Result<(), Fail> {
    compare_rows(&rt, rt.alloc(), 3)
}
