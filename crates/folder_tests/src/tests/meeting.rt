//! Two whole commands, of which the second runs between two calls of the first.
use super::handle::{Ran, SharedShelf, Trouble, run_line, run_with};
use super::shelf::Kept;
use super::{
    command_of, have_same_boot_files, have_same_files, is_cut_short, recovers, say_same, start,
    turns_of,
};
use std::alloc::Global;
use std::cell::RefCell;
use std::io;
use std::process::Abort;
use std::rc::Rc;
use std::test::Fail;

/// Before the call of that number a second command runs to its end.
#[derive(Drop)]
struct Meets<'a> {
    alloc: Global,
    call: u64,
    line: &'a str,
    ran: Rc<RefCell<Option<Ran>>>,
}

impl Trouble for Meets<'_> {
    fn come(&self, call: u64, shelf: &SharedShelf) -> io::Result<()> {
        if call == self.call {
            let ran = run_line(self.alloc, shelf, self.line)?;
            let _ = self.ran.try_replace(Some(ran));
        }
        Ok(())
    }
}

/// Two commands, and for each call of the first in their order what comes of both if the second runs whole before it. Calls
/// in a row with the same letter have one.
///
/// - `1`, `2`: both have printed what they print one behind the other, and all files are the same: first the first one, or
///   first the second.
/// - `=`: in either order it is the same.
/// - `g`: the first gives way. It ends with 3, and has printed no more than leading replies of its actions; the second one's
///   reply and the boot files are as it makes them alone.
/// - `r`: the second gives way to the first in that manner.
///
/// Behind `g` and `r` the next list ends well, changes no boot file and leaves no intent, and the command that gave way then
/// does what it does behind the other one.
///
/// While the first has only looked, it comes second. It gives way if what it has looked at is another, and takes its locks
/// before it changes anything: from then on the second gives way if it needs what is locked. What only looks takes no locks,
/// so nobody gives way to it. As the second run it gives way only while there is an intent.
const ROWS: [(&str, &str, &str); 56] = [
    ("boot", "boot", "2gr"),
    ("boot", "good", "2gr1"),
    ("boot", "list", "2r1"),
    ("boot", "install", "=gr"),
    ("boot", "default", "=r="),
    ("boot", "tidy", "=r"),
    ("good", "good", "2gr1"),
    ("good", "boot", "2gr1"),
    ("good", "good two", "=r"),
    ("good", "list", "2r1"),
    ("good", "keep", "2r"),
    ("good", "status", "2r1"),
    ("status", "good", "2g1"),
    ("list", "boot", "2g1"),
    ("list", "cleanup", "="),
    ("unlink five", "unlink five", "2gr1"),
    ("unlink five", "list", "21"),
    ("unlink five", "install five", "2gr1"),
    ("unlink five", "script", "21"),
    ("unlink old", "cleanup", "2r"),
    ("install", "install again", "2r1"),
    ("install", "list", "21"),
    ("install", "tidy", "=r"),
    ("install", "unlink five", "="),
    ("install", "build", "2gr1"),
    ("install one", "good", "2r1"),
    ("install five", "unlink five", "2g2gr2gr1"),
    ("install five", "image", "21"),
    ("default", "timeout", "2gr1"),
    ("default", "show", "21"),
    ("show", "default", "2g1"),
    ("tidy", "tidy", "=gr="),
    ("tidy", "boot", "=gr"),
    ("type1", "type1", "=gr=r="),
    ("type1", "cleanup", "=r"),
    ("type1", "list", "21"),
    ("type1 again", "cleanup", "2r"),
    ("cleanup", "type1", "=gr"),
    ("cleanup", "unlink old", "2gr"),
    ("cleanup", "cleanup", "2gr1"),
    ("cleanup", "type1 of gone", "2gr"),
    ("keep", "boot", "=gr"),
    ("keep", "keep", "2gr1"),
    ("image", "install five", "2g1"),
    ("timeout", "default", "2gr1"),
    ("build", "install", "2r2r1"),
    ("build", "build kernel", "2gr1"),
    ("build", "inspect", "21"),
    ("build", "identify", "="),
    ("build kernel", "build", "2r2r1"),
    ("build kernel", "calculate", "21"),
    ("inspect", "build", "2g1"),
    ("identify", "build", "=g="),
    ("calculate", "build kernel", "2g1"),
    ("script", "unlink five", "2g1"),
    ("type1 of gone", "cleanup", "2gr1"),
];

/// How many tests share the rows.
const TESTS: usize = 8;

/// Two commands, and what comes of both in the one order and in the other: first the one that runs first.
#[derive(Drop)]
struct Pair<'a> {
    first: &'a str,
    second: &'a str,
    forth: (Ran, Ran),
    back: (Ran, Ran),
}

fn both(alloc: Global, line: &str, next: &str) -> io::Result<(Ran, Ran)> {
    let shelf = start(alloc)?;
    let ran = run_line(alloc, &shelf, line)?;
    Ok((ran, run_line(alloc, &shelf, next)?))
}

fn pair_of<'a>(alloc: Global, first: &'a str, second: &'a str) -> io::Result<Pair<'a>> {
    Ok(Pair {
        first,
        second,
        forth: both(alloc, first, second)?,
        back: both(alloc, second, first)?,
    })
}

// Whether a run gives way to another one, which does what it does alone. These are the files behind both.
fn gives_way(ran: &Ran, alone: &Ran, other: &Ran, other_alone: &Ran, files: &[Kept]) -> bool {
    ran.status == 3
        && is_cut_short(ran, alone)
        && say_same(other, other_alone)
        && have_same_boot_files(files, &other_alone.files)
}

// The first run ends last, so its files are those behind both.
fn letter_of(pair: &Pair<'_>, first: &Ran, second: &Ran) -> char {
    let (first_alone, second_behind) = &pair.forth;
    let (second_alone, first_behind) = &pair.back;
    let is_forth = say_same(first, first_alone)
        && say_same(second, second_behind)
        && have_same_files(&first.files, &second_behind.files);
    let is_back = say_same(first, first_behind)
        && say_same(second, second_alone)
        && have_same_files(&first.files, &first_behind.files);
    match (is_forth, is_back) {
        (true, true) => '=',
        (true, false) => '1',
        (false, true) => '2',
        _ if gives_way(first, first_alone, second, second_alone, &first.files) => 'g',
        _ if gives_way(second, second_alone, first, first_alone, &first.files) => 'r',
        _ => 'w',
    }
}

// None if the first run ends before that call.
fn letter_at(alloc: Global, pair: &Pair<'_>, call: u64) -> io::Result<Option<char>> {
    let shelf = start(alloc)?;
    let second = Rc::new(alloc, RefCell::new(None))?;
    let trouble = Meets {
        alloc,
        call,
        line: pair.second,
        ran: second.clone()?,
    };
    let first = run_with(alloc, &shelf, pair.first, trouble)?;
    let Ok(Some(second)) = second.try_replace(None) else {
        return Ok(None);
    };
    let letter = letter_of(pair, &first, &second);
    let (line, wanted) = match letter {
        'g' => (pair.first, &pair.back.1),
        'r' => (pair.second, &pair.forth.1),
        _ => return Ok(Some(letter)),
    };
    let is_right = recovers(alloc, &shelf, &first.files, line, wanted, false)?;
    Ok(Some(if is_right { letter } else { 'w' }))
}

fn letters_of(alloc: Global, pair: &Pair<'_>) -> io::Result<String> {
    let mut letters = Vec::new(alloc);
    for earlier in 0..u64::MAX {
        match letter_at(alloc, pair, earlier.saturating_add(1))? {
            Some(letter) => letters.push(letter)?,
            None => break,
        }
    }
    Ok(turns_of(alloc, letters.as_slice())?)
}

// The rows of one of the tests that share them: a test has a minute.
fn compare_rows(rt: &impl Abort, alloc: Global, test: usize) -> Result<(), Fail> {
    for (row, line) in ROWS.iter().enumerate() {
        if row % TESTS == test {
            let (first, second, wanted) = *line;
            let pair = pair_of(alloc, command_of(first)?, command_of(second)?)?;
            let letters = letters_of(alloc, &pair)?;
            assert_eq!(rt; letters.as_str(), wanted, "{first}, and then {second}");
        }
    }
    Ok(())
}

#[test]
fn two_runs_are_as_one_behind_the_other_0(rt: HostRuntime) -> Result<(), Fail> {
    compare_rows(&rt, rt.alloc(), 0)
}

#[test]
fn two_runs_are_as_one_behind_the_other_1(rt: HostRuntime) -> Result<(), Fail> {
    compare_rows(&rt, rt.alloc(), 1)
}

#[test]
fn two_runs_are_as_one_behind_the_other_2(rt: HostRuntime) -> Result<(), Fail> {
    compare_rows(&rt, rt.alloc(), 2)
}

#[test]
fn two_runs_are_as_one_behind_the_other_3(rt: HostRuntime) -> Result<(), Fail> {
    compare_rows(&rt, rt.alloc(), 3)
}

#[test]
fn two_runs_are_as_one_behind_the_other_4(rt: HostRuntime) -> Result<(), Fail> {
    compare_rows(&rt, rt.alloc(), 4)
}

#[test]
fn two_runs_are_as_one_behind_the_other_5(rt: HostRuntime) -> Result<(), Fail> {
    compare_rows(&rt, rt.alloc(), 5)
}

#[test]
fn two_runs_are_as_one_behind_the_other_6(rt: HostRuntime) -> Result<(), Fail> {
    compare_rows(&rt, rt.alloc(), 6)
}

#[test]
fn two_runs_are_as_one_behind_the_other_7(rt: HostRuntime) -> Result<(), Fail> {
    compare_rows(&rt, rt.alloc(), 7)
}
