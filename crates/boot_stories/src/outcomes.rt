//! What comes of a run that is stopped, or of which one call fails.
use crate::fault::StoryFault;
use crate::known::Known;
use crate::left::left_text;
use crate::replies::{acknowledged_lines, answer, count_lines, reply_text, status_of};
use crate::story::Story;
use memory_machine::{CrashChoice, FailMode, Fuse, MemMachine};
use std::alloc::{AllocError, Global};
use tool_words::split_line;

// What ends a run.
#[derive(Clone, Copy)]
enum Trouble {
    // It is stopped before a call, and the candidate of that number is left.
    Stop(u64),
    // The call fails.
    Fault(FailMode),
}

// The candidates that are tried: no run of a story changes more than five names before it syncs them.
const STOPS: [Trouble; 6] = [
    Trouble::Stop(0),
    Trouble::Stop(1),
    Trouble::Stop(2),
    Trouble::Stop(3),
    Trouble::Stop(4),
    Trouble::Stop(5),
];

// A call fails before it has done anything, or after it has done all.
const FAULTS: [Trouble; 2] = [
    Trouble::Fault(FailMode::Before),
    Trouble::Fault(FailMode::After),
];

fn troubles(is_faulty: bool) -> &'static [Trouble] {
    if is_faulty { &FAULTS } else { &STOPS }
}

// More calls than a run of a story makes.
const CALL_LIMIT: u64 = 10_000;

/// What a stop leaves that chooses this candidate.
pub(crate) fn left_by(
    alloc: Global,
    machine: MemMachine,
    candidate: u64,
) -> Result<MemMachine, AllocError> {
    let fill = b"!!!!!".to_vec(alloc)?;
    machine.crash(alloc, &CrashChoice { candidate, fill })
}

/// A copy of the story's machine after so many calls of a run of these words, and the status.
pub(crate) fn stopped_after(
    alloc: Global,
    story: &mut Story,
    words: &Vec<String>,
    calls: u64,
) -> Result<(MemMachine, u8), StoryFault> {
    let (machine, _) = story.copy_machine(alloc)?;
    let mut fuse = Fuse::new(machine, calls);
    let status = status_of(alloc, words, &mut fuse);
    Ok((fuse.into_inner(), status))
}

// A copy of the story's machine after a run of which the call behind so many fails, and the status.
fn failed_after(
    alloc: Global,
    story: &mut Story,
    words: &Vec<String>,
    calls: u64,
    mode: FailMode,
) -> Result<(MemMachine, u8), StoryFault> {
    let (mut machine, before) = story.copy_machine(alloc)?;
    machine.fail_at(before.saturating_add(calls).saturating_add(1), mode)?;
    let (_, status) = answer(alloc, words, &mut machine);
    Ok((machine, status))
}

// What is left of a run that meets its trouble after so many calls, and the status.
fn troubled_after(
    alloc: Global,
    story: &mut Story,
    words: &Vec<String>,
    calls: u64,
    trouble: Trouble,
) -> Result<(MemMachine, u8), StoryFault> {
    match trouble {
        Trouble::Stop(candidate) => {
            let (machine, status) = stopped_after(alloc, story, words, calls)?;
            Ok((left_by(alloc, machine, candidate)?, status))
        }
        Trouble::Fault(mode) => failed_after(alloc, story, words, calls, mode),
    }
}

// Whether a fault has ended the run.
fn is_stopped(status: u8) -> bool {
    status == 3 || status == 4
}

// How the replies of a run are told apart.
#[derive(Clone, Copy)]
enum Replies {
    // A script acknowledges each of its lines.
    Script,
    // A command that stands for others prints a line for each of them.
    Lines,
    // There is one reply, of so many bytes.
    One(usize),
}

// Whether these words name a command that stands for others. A `keep` that only tells has one reply.
fn stands_for_others(words: &str) -> bool {
    words.starts_with("type1 ") || (words.starts_with("keep ") && !words.contains("--dry-run"))
}

// The run that is looked at.
#[derive(Drop)]
struct Trial {
    words: Vec<String>,
    replies: Replies,
    // What runs after each trouble, if anything does.
    next: Option<Vec<String>>,
    // The standard input of what runs then.
    input: Vec<u8>,
}

impl Trial {
    // A run of these words on the story's machine.
    fn of(
        alloc: Global,
        story: &mut Story,
        words: &str,
        next: Option<Vec<String>>,
    ) -> Result<Trial, StoryFault> {
        let is_script = words == "script";
        let is_many = stands_for_others(words);
        let words = split_line(alloc, words)?;
        let (machine, _) = stopped_after(alloc, story, &words, u64::MAX)?;
        let replies = match (is_script, is_many) {
            (true, _) => Replies::Script,
            (false, true) => Replies::Lines,
            (false, false) => Replies::One(machine.printed_bytes().len()),
        };
        Ok(Trial {
            words,
            replies,
            next,
            input: story.input.as_slice().to_vec(alloc)?,
        })
    }

    // How many replies are whole: those to lines of a script, to what a command stands for, or to the command.
    fn count_acknowledged(&self, alloc: Global, machine: &MemMachine) -> Result<usize, AllocError> {
        let printed = machine.printed_bytes();
        match self.replies {
            Replies::Script => acknowledged_lines(alloc, printed),
            Replies::Lines => Ok(count_lines(printed)),
            Replies::One(length) => Ok(usize::from(printed.len() >= length)),
        }
    }
}

// What was acknowledged, and the status after a fault.
fn end_text(
    alloc: Global,
    acknowledged: usize,
    trouble: Trouble,
    status: u8,
) -> Result<String, AllocError> {
    match trouble {
        Trouble::Stop(_) => format!(in alloc; "{acknowledged} acknowledged"),
        Trouble::Fault(_) => format!(in alloc; "{acknowledged} acknowledged, status {status}"),
    }
}

// What the next run prints, and its status.
fn next_text(
    alloc: Global,
    trial: &Trial,
    words: &Vec<String>,
    machine: &mut MemMachine,
) -> Result<String, AllocError> {
    machine.set_input(trial.input.as_slice().to_vec(alloc)?);
    let (printed, status) = answer(alloc, words, machine);
    let reply = reply_text(alloc, printed, status)?;
    format!(in alloc; "{reply}left")
}

// What is left of a run that met its trouble, or what the next run comes to.
fn outcome_text(
    alloc: Global,
    trial: &Trial,
    known: &Known,
    machine: &mut MemMachine,
    trouble: Trouble,
    status: u8,
) -> Result<String, StoryFault> {
    let begin = match &trial.next {
        Some(words) => next_text(alloc, trial, words, machine)?,
        None => end_text(
            alloc,
            trial.count_acknowledged(alloc, machine)?,
            trouble,
            status,
        )?,
    };
    let files = left_text(alloc, machine, known)?;
    Ok(format!(in alloc; "{begin}: {files}\n")?)
}

// Adds what comes of each trouble after so many calls. Says whether the run makes more calls.
fn add_outcomes(
    alloc: Global,
    story: &mut Story,
    trial: &Trial,
    calls: u64,
    texts: &mut Vec<String>,
) -> Result<bool, StoryFault> {
    let mut goes_on = false;
    for trouble in troubles(story.is_faulty) {
        let (mut machine, status) = troubled_after(alloc, story, &trial.words, calls, *trouble)?;
        goes_on = is_stopped(status);
        if !goes_on && matches!(trouble, Trouble::Fault(_)) {
            break;
        }
        let text = outcome_text(alloc, trial, &story.known, &mut machine, *trouble, status)?;
        if !texts.contains(&text) {
            texts.push(text)?;
        }
    }
    Ok(goes_on)
}

/// What comes of the run that the story looks at with each of its troubles, or of the next run after it, each outcome
/// once, in the order of the calls.
pub(crate) fn outcomes_text(
    alloc: Global,
    story: &mut Story,
    words: &str,
    next: Option<Vec<String>>,
) -> Result<String, StoryFault> {
    let trial = Trial::of(alloc, story, words, next)?;
    let mut texts = Vec::new(alloc);
    for calls in 0..CALL_LIMIT {
        if !add_outcomes(alloc, story, &trial, calls, &mut texts)? {
            break;
        }
    }
    Ok(texts.as_slice().concat(alloc)?)
}
