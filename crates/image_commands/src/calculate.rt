//! `measure calculate`.
ghost use Rattle.std.specs.Prelude.{◌≡◌, ◌≤◌, ◌++◌, List, ℕ, All, IfOk, IsTrue, Ok, length, map, sum_by, option_copied};
ghost use Rattle.boot_machine.specs.Prelude.{Looks, TakesAtMost, contents, seen};
ghost use Rattle.uki_parts.specs.Pieces.{Reading, piece_bytes, piece_length};
ghost use Rattle.pcr_values.specs.Prelude.{fold_pcr, pcr_bank, pcr_value};
ghost use Rattle.stub_replay.specs.Ordered.{present_parts};
ghost use Rattle.stub_replay.specs.Parts.{HaveSizes, IsPlaced, items_of, named_bytes};
ghost use Rattle.command_plans.specs.Prelude.{CountsRunError, CountsReadError, DeclinesWords, Means, Plans, RefusesWords, Says, answer_of_read, bytes_at, each, path_in};
ghost use Rattle.command_plans.specs.declared.plan.Change.TheVariants.{Nothing};
ghost use Rattle.image_commands.specs.Calculating.{calculate_result, given_words, under_name};
ghost use Rattle.image_commands.specs.Parts.{HasItsSize, named_file, named_path, named_word};
ghost use Rattle.image_commands.specs.Taking.{named_length};

use crate::told::told_values;
use boot_base::{BootPath, PIECE_SIZE, Text};
use boot_machine::Machine;
use command_plans::{
    Plan, ReadError, RunError, WordError, banks_of, path_in, paths_of, push, readable_size,
    text_or_refusal,
};
use pcr_values::{Bank, Pcr};
use std::alloc::{AllocError, Global};
use std::slice;
use stub_replay::{Content, Measurable, predict};
use tool_words::CalculateWords;
use uki_parts::Piece;

// The text of a word, if it is given.
fn text_of(word: &Option<Text>) -> Option<&str>
    ensures { option_copied result ≡ word.now }
{
    match word {
        None => None,
        Some(text) => Some(text.as_str()),
    }
}

// The paths of the words that are given, each under its part's name, or the first refusal of a word.
fn given_paths(
    alloc: Global,
    words: &[(&'static [u8], Option<&str>)],
) -> Result<Vec<(&'static [u8], BootPath)>, WordError>
    ensures { Means (λ paths. map named_path paths.items) result
        (each (under_name path_in) (present_parts (map named_word words.now))) }
{
    let mut paths = Vec::new(alloc);
    for (name, word) in words {
        let Some(word) = word else {
            continue;
        };
        let path = path_in(alloc, word)?;
        push(&mut paths, (*name, path))?;
    }
    Ok(paths)
}

// The paths of the parts' files, each under its part's name, or the first refusal of a word.
fn part_paths(
    alloc: Global,
    words: &CalculateWords,
) -> Result<Vec<(&'static [u8], BootPath)>, WordError>
    ensures { Means (λ paths. map named_path paths.items) result
        (each (under_name path_in) (given_words words.now)) }
{
    given_paths(
        alloc,
        &[
            (b".linux", Some(words.linux.as_str())),
            (b".osrel", text_of(&words.parts.osrel)),
            (b".cmdline", text_of(&words.parts.cmdline)),
            (b".initrd", text_of(&words.initrd)),
            (b".ucode", text_of(&words.parts.ucode)),
            (b".splash", text_of(&words.parts.splash)),
            (b".dtb", text_of(&words.parts.dtb)),
            (b".uname", text_of(&words.parts.uname)),
            (b".sbat", text_of(&words.parts.sbat)),
            (b".pcrpkey", text_of(&words.parts.pcrpkey)),
        ],
    )
}

// The file at a path with its size, or its refusal.
fn part_file<M: Machine>(alloc: Global, path: BootPath, machine: &mut M) -> Result<Piece, ReadError>
    ensures says { IsTrue M.tells → Says (piece_bytes (contents (seen (M.state machine.old)))) result
        (bytes_at (seen (M.state machine.old)) path) }
    ensures size { IfOk result (λ file. IsTrue M.tells
        → length (piece_bytes (contents (seen (M.state machine.old))) file) ≡ piece_length file) }
    ensures looks { Looks M.tells M.time M.state M.counts (CountsReadError result) machine.old machine.new }
    ensures taken { IsTrue M.tells → TakesAtMost 0 (M.taken machine.old) (M.taken machine.new) }
{
    let size = readable_size(alloc, &path, machine)?;
    Ok(Piece::File { path, size })
}

// The files of the parts with their sizes, or the first refusal of one.
fn part_files<M: Machine>(
    alloc: Global,
    paths: Vec<(&'static [u8], BootPath)>,
    machine: &mut M,
) -> Result<Vec<(&'static [u8], Piece)>, ReadError>
    ensures says { IsTrue M.tells
        → Says (λ files. map (named_file (contents (seen (M.state machine.old)))) files.items) result
        (each (under_name (bytes_at (seen (M.state machine.old)))) (map named_path paths.entry.items)) }
    ensures sizes { IfOk result (λ files. IsTrue M.tells
        → All (HasItsSize (contents (seen (M.state machine.old)))) files.items) }
    ensures looks { Looks M.tells M.time M.state M.counts (CountsReadError result) machine.old machine.new }
    ensures taken { IsTrue M.tells → TakesAtMost 0 (M.taken machine.old) (M.taken machine.new) }
{
    let mut files = Vec::new(alloc);
    for (name, path) in paths {
        let file = part_file(alloc, path, machine)?;
        push(&mut files, (name, file))?;
    }
    Ok(files)
}

// The parts of these files, in their order.
fn file_parts<'a>(
    alloc: Global,
    files: &'a [(&'static [u8], Piece)],
) -> Result<Vec<Measurable<'a>>, AllocError>
    ensures bytes { IfOk result (λ parts. (reading : Reading)
        → map (named_bytes reading) parts.items ≡ map (named_file reading) files.now) }
    ensures sizes { IfOk result (λ parts. (reading : Reading)
        → All (HasItsSize reading) files.now → HaveSizes reading parts.items) }
    ensures ranges { IfOk result (λ parts. All (λ part. IsPlaced part.content) parts.items) }
{
    let mut parts = Vec::new(alloc);
    for (name, file) in files {
        let content = Content::Pieces(slice::from_ref(file));
        parts.push(Measurable { name, content })?;
    }
    Ok(parts)
}

// The register of each bank, as it is predicted from these files.
fn registers<M: Machine>(
    alloc: Global,
    files: &[(&'static [u8], Piece)],
    banks: &[Bank],
    machine: &mut M,
) -> Result<Vec<Pcr>, ReadError>
    ensures banks { IfOk result (λ registers. map pcr_bank registers.items ≡ banks.now) }
    ensures says { IsTrue M.tells → All (HasItsSize (contents (seen (M.state machine.old)))) files.now
        → Says (λ registers. map pcr_value registers.items) result
        (Ok (map (fold_pcr (items_of (map (named_file (contents (seen (M.state machine.old)))) files.now)))
        banks.now)) }
    ensures looks { Looks M.tells M.time M.state M.counts (CountsReadError result) machine.old machine.new }
    ensures taken { IsTrue M.tells → All (HasItsSize (contents (seen (M.state machine.old)))) files.now
        → TakesAtMost (sum_by (λ part. length part.1)
        (map (named_file (contents (seen (M.state machine.old)))) files.now))
        (M.taken machine.old) (M.taken machine.new) }
{
    let mut buffer = [0; PIECE_SIZE];
    let parts = file_parts(alloc, files)?;
    Ok(predict(alloc, machine, &parts, banks, &mut buffer)?)
}

// What the calculation says, or why there is nothing to say.
fn calculate_result<M: Machine>(
    alloc: Global,
    words: &CalculateWords,
    machine: &mut M,
) -> Result<Vec<u8>, ReadError>
    ensures says { IsTrue M.tells → Says (λ text. text.items) result
        (calculate_result (seen (M.state machine.old)) words.now) }
    ensures looks { Looks M.tells M.time M.state M.counts (CountsReadError result) machine.old machine.new }
    ensures words { DeclinesWords (each (under_name path_in) (given_words words.now)) result }
    ensures taken { IsTrue M.tells
        → TakesAtMost (named_length (seen (M.state machine.old)) words.now)
        (M.taken machine.old) (M.taken machine.new) }
{
    let paths = part_paths(alloc, words)?;
    let files = part_files(alloc, paths, machine)?;
    let banks = banks_of(alloc, words.banks.as_slice())?;
    let phases = paths_of(alloc, words.phases.as_slice())?;
    let registers = registers(alloc, &files, &banks, machine)?;
    Ok(told_values(alloc, &registers, &phases, words.json)?)
}

/// What the calculation is going to say: for each phase path the value of PCR 11, in each bank, that is
/// predicted from the files of the parts. Each file is read once, for all banks.
pub fn plan_calculate<M: Machine>(
    alloc: Global,
    words: &CalculateWords,
    machine: &mut M,
) -> Result<Plan, RunError>
    ensures plans { IfOk result (λ plan. IsTrue M.tells → Plans (M.state machine.old) plan
        (answer_of_read (seen (M.state machine.old)) (calculate_result (seen (M.state machine.old)) words.now))) }
    ensures idle { IfOk result (λ plan. plan.change ≡ Nothing) }
    ensures looks { Looks M.tells M.time M.state M.counts (CountsRunError result) machine.old machine.new }
    ensures words { RefusesWords (each (under_name path_in) (given_words words.now)) result }
    ensures taken { IsTrue M.tells
        → TakesAtMost (named_length (seen (M.state machine.old)) words.now)
        (M.taken machine.old) (M.taken machine.new) }
{
    let text = calculate_result(alloc, words, machine);
    text_or_refusal(alloc, text)
}
