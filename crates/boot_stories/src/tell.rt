//! The lines of a story, and what comes of each.
use crate::fault::StoryFault;
use crate::files::folder_text;
use crate::left::left_text;
use crate::lines::{number, parted_or_whole, split_at_space};
use crate::outcomes::{left_by, outcomes_text, stopped_after};
use crate::replies::{bytes_text, reads_text, reply_text, sources_text};
use crate::story::Story;
use crate::writes::{bytes_of_file, write_files};
use memory_machine::FailMode;
use std::alloc::{AllocError, Global};
use tool_words::split_line;

fn add_line(alloc: Global, story: &mut Story, rest: &str) -> Result<(), AllocError> {
    let line = format!(in alloc; "{rest}\n")?;
    story.input.extend_from_slice(line.as_bytes())
}

fn take_input(alloc: Global, story: &mut Story, path: &str) -> Result<(), StoryFault> {
    story.input = bytes_of_file(alloc, story, path)?;
    Ok(())
}

fn fail_mode(text: &str) -> Result<FailMode, StoryFault> {
    match text {
        "before" => Ok(FailMode::Before),
        "after" => Ok(FailMode::After),
        _ => Err(StoryFault::Unclear),
    }
}

fn fail(alloc: Global, story: &mut Story, rest: &str) -> Result<(), StoryFault> {
    let (call, mode) = split_at_space(rest)?;
    story.fail_at(alloc, number(call)?, fail_mode(mode)?)
}

fn run_words(alloc: Global, story: &mut Story, rest: &str) -> Result<String, StoryFault> {
    let words = split_line(alloc, rest)?;
    let (printed, status) = story.run(alloc, &words);
    Ok(reply_text(alloc, printed, status)?)
}

fn menu(alloc: Global, story: &mut Story) -> Result<String, StoryFault> {
    let words = split_line(alloc, "bootctl list")?;
    let (printed, _) = story.run(alloc, &words);
    Ok(sources_text(alloc, printed)?)
}

fn tell_left(alloc: Global, story: &mut Story) -> Result<String, StoryFault> {
    let files = left_text(alloc, &mut story.machine, &story.known)?;
    Ok(format!(in alloc; "{files}\n")?)
}

fn text(alloc: Global, story: &mut Story, path: &str) -> Result<String, StoryFault> {
    let bytes = bytes_of_file(alloc, story, path)?;
    Ok(bytes_text(alloc, bytes.as_slice())?)
}

fn tell_same(alloc: Global, story: &mut Story, rest: &str) -> Result<String, StoryFault> {
    let (one, other) = split_at_space(rest)?;
    let one = bytes_of_file(alloc, story, one)?;
    let other = bytes_of_file(alloc, story, other)?;
    let told = if one.as_slice() == other.as_slice() {
        "yes\n"
    } else {
        "no\n"
    };
    Ok(String::from_str(alloc, told)?)
}

fn total(alloc: Global, story: &Story) -> Result<String, AllocError> {
    let count = story.machine.view_files();
    format!(in alloc; "{count}\n")
}

// Looks at a run of these words, and tells what comes of it if a call of it fails, or if it is stopped.
fn look_at(
    alloc: Global,
    story: &mut Story,
    words: &str,
    is_faulty: bool,
) -> Result<String, StoryFault> {
    story.looked_at = String::from_str(alloc, words)?;
    story.is_faulty = is_faulty;
    outcomes_text(alloc, story, words, None)
}

fn then(alloc: Global, story: &mut Story, rest: &str) -> Result<String, StoryFault> {
    let next = split_line(alloc, rest)?;
    let words = String::from_str(alloc, story.looked_at.as_str())?;
    outcomes_text(alloc, story, words.as_str(), Some(next))
}

fn stop(alloc: Global, story: &mut Story, rest: &str) -> Result<(), StoryFault> {
    let (calls, rest) = split_at_space(rest)?;
    let (candidate, words) = split_at_space(rest)?;
    let words = split_line(alloc, words)?;
    let (machine, _) = stopped_after(alloc, story, &words, number(calls)?)?;
    let left = left_by(alloc, machine, number(candidate)?)?;
    story.go_on_with(left);
    Ok(())
}

fn begin(alloc: Global, story: &mut Story, set: &str) -> Result<(), StoryFault> {
    *story = Story::with_samples(alloc, set)?;
    Ok(())
}

// What comes of a line that changes the story, and tells nothing.
fn change(alloc: Global, verb: &str, rest: &str, story: &mut Story) -> Result<(), StoryFault> {
    match verb {
        "machine" => begin(alloc, story, rest),
        "line" => Ok(add_line(alloc, story, rest)?),
        "input" => take_input(alloc, story, rest),
        "fail" => fail(alloc, story, rest),
        "stop" => stop(alloc, story, rest),
        _ => write_files(alloc, verb, rest, story),
    }
}

fn change_silently(
    alloc: Global,
    verb: &str,
    rest: &str,
    story: &mut Story,
) -> Result<String, StoryFault> {
    change(alloc, verb, rest, story)?;
    Ok(String::new(alloc))
}

// What comes of a line that runs the program, or looks at runs of it.
fn run_result(
    alloc: Global,
    verb: &str,
    rest: &str,
    story: &mut Story,
) -> Result<String, StoryFault> {
    match verb {
        "run" => run_words(alloc, story, rest),
        "menu" => menu(alloc, story),
        "faults" => look_at(alloc, story, rest, true),
        "stops" => look_at(alloc, story, rest, false),
        "then" => then(alloc, story, rest),
        _ => change_silently(alloc, verb, rest, story),
    }
}

// What comes of a line.
fn line_result(alloc: Global, line: &str, story: &mut Story) -> Result<String, StoryFault> {
    let (verb, rest) = parted_or_whole(line);
    match verb {
        "reads" => Ok(reads_text(alloc, story.new_reads())?),
        "files" => folder_text(alloc, &mut story.machine, &story.known.samples, rest),
        "left" => tell_left(alloc, story),
        "same" => tell_same(alloc, story, rest),
        "text" => text(alloc, story, rest),
        "total" => Ok(total(alloc, story)?),
        _ => run_result(alloc, verb, rest, story),
    }
}

/// The line, and below it what comes of it.
pub(crate) fn tell_line(
    alloc: Global,
    line: &str,
    story: &mut Story,
) -> Result<String, StoryFault> {
    if line.is_empty() || line.starts_with('#') {
        return Ok(format!(in alloc; "{line}\n")?);
    }
    match line_result(alloc, line, story) {
        Ok(told) => Ok(format!(in alloc; "> {line}\n{told}")?),
        Err(StoryFault::Unclear) => Ok(format!(in alloc; "? {line}\n")?),
        Err(fault) => Err(fault),
    }
}
