//! `bless`.
ghost use Rattle.std.specs.Prelude.{◌≡◌, ◌++◌, codes, false, true, Ok, Some, IfOk, IsTrue, string_bytes, option_map};
ghost use Rattle.boot_base.specs.Paths.{beside, file_name_of, sibling_of};
ghost use Rattle.menu_order.specs.Bless.{choice_of, target_of};
ghost use Rattle.menu_order.specs.Renames.{bad_name_of, good_name_of};
ghost use Rattle.boot_machine.specs.Prelude.{Counts, CountsDisk, Looks, State, TakesAtMost, has, seen};
ghost use Rattle.command_plans.specs.Prelude.{CountsRunError, CountsReadError, DeclinesWords, Means, Plans, PlansAs, RefusesWords, Says, answer_of_read, printed_path};
ghost use Rattle.entry_commands.specs.Blessing.{bad_name_in, bless_answer, bless_entry, bless_result, blessed_by, blessed_from, blessed_text, entry_paths, good_name_in, name_or, path_at, present_at, reported_paths, status_by, status_result, verb_text};

use crate::moves::{is_there, plan_move, plan_nothing};
use boot_base::{BootPath, PathFault, Refusal, Text};
use boot_machine::{DiskFault, Machine};
use command_plans::{
    Plan, ReadError, RunError, WordError, answer_or_refusal, path_in, path_under, printed_path,
    text_or_refusal,
};
use menu_order::{BlessChoice, BlessVerb, Counted, Present, bless_choice};
use std::alloc::{AllocError, Global};
use tool_words::BlessWord;

/// Where the names of an entry stand, all in one folder.
#[derive(Drop)]
struct EntryPaths {
    /// Without a counter.
    good: BootPath,
    /// With the counter that was reported.
    counted: BootPath,
    /// With no boot left.
    bad: BootPath,
}

// A name of the entry whose file is reported at a path, which has to have a counter.
fn name_or(alloc: Global, path: &BootPath, name: Option<String>) -> Result<String, WordError>
    ensures { Means string_bytes result (name_or path.now (option_map string_bytes name)) }
{
    match name {
        Some(name) => Ok(name),
        None => {
            let path = printed_path(alloc, path)?;
            Err(WordError::Refused(Refusal::NoCounter { path }))
        }
    }
}

// The entry's good name, which is to have no counter.
fn good_name_in(alloc: Global, path: &BootPath) -> Result<String, WordError>
    ensures means { Means string_bytes result (good_name_in path.now) }
    ensures name { IfOk result (λ name. good_name_of (file_name_of path.now) ≡ Some (string_bytes name)) }
{
    let found = Counted::good_name(alloc, path.file_name())?;
    let good = name_or(alloc, path, found)?;
    if Counted::split(good.as_str()).is_some() {
        let text = Text::of(alloc, path.file_name())?;
        return Err(WordError::Refused(Refusal::BadName { text }));
    }
    Ok(good)
}

fn bad_name_in(alloc: Global, path: &BootPath) -> Result<String, WordError>
    ensures means { Means string_bytes result (bad_name_in path.now) }
    ensures name { IfOk result (λ name. bad_name_of (file_name_of path.now) ≡ Some (string_bytes name)) }
{
    let found = Counted::bad_name(alloc, path.file_name())?;
    name_or(alloc, path, found)
}

// The path of another name in the folder of a path.
fn path_beside(alloc: Global, path: &BootPath, name: &str) -> Result<BootPath, AllocError>
    requires { sibling_of path.now name.now ≡ Some (beside path.now name.now) }
    ensures { IfOk result (λ other. other ≡ beside path.now name.now) }
{
    match path.sibling(alloc, name) {
        Ok(other) => Ok(other),
        Err(PathFault::Memory) => Err(AllocError),
        Err(PathFault::BadPath) => unreachable!(),
    }
}

fn entry_paths(alloc: Global, counted: BootPath) -> Result<EntryPaths, WordError>
    ensures { Means (λ paths. paths) result (entry_paths counted) }
{
    counted.know_normal();
    let good = good_name_in(alloc, &counted)?;
    let bad = bad_name_in(alloc, &counted)?;
    let good = path_beside(alloc, &counted, good.as_str())?;
    let bad = path_beside(alloc, &counted, bad.as_str())?;
    Ok(EntryPaths { good, counted, bad })
}

fn reported_paths(alloc: Global, word: &str, esp: &str) -> Result<EntryPaths, WordError>
    ensures { Means (λ paths. paths) result (reported_paths word.now esp.now) }
{
    let esp = path_in(alloc, esp)?;
    let counted = path_under(alloc, &esp, word)?;
    entry_paths(alloc, counted)
}

// Which of an entry's names are there.
fn present_names<M: Machine>(paths: &EntryPaths, machine: &mut M) -> Result<Present, DiskFault>
    ensures present { IfOk result (λ present. IsTrue M.tells
        → present ≡ present_at (seen (M.state machine.old)) paths.now) }
    ensures looks { Looks M.tells M.time M.state M.counts (CountsDisk result) machine.old machine.new }
    ensures taken { IsTrue M.tells → TakesAtMost 0 (M.taken machine.old) (M.taken machine.new) }
{
    let good = is_there(&paths.good, machine)?;
    let counted = is_there(&paths.counted, machine)?;
    let bad = is_there(&paths.bad, machine)?;
    Ok(Present { good, counted, bad })
}

fn verb_text(verb: BlessVerb) -> &'static str
    ensures { result.now ≡ verb_text verb }
{
    match verb {
        BlessVerb::Good => "good",
        BlessVerb::Bad => "bad",
        BlessVerb::Indeterminate => "indeterminate",
    }
}

// The path that a verb wants.
fn target_of(paths: &EntryPaths, verb: BlessVerb) -> &BootPath
    ensures { result.now ≡ path_at paths.now (target_of verb) }
{
    match verb {
        BlessVerb::Good => &paths.good,
        BlessVerb::Bad => &paths.bad,
        BlessVerb::Indeterminate => &paths.counted,
    }
}

// What is told of the path that a verb wants, and behind it.
fn blessed_text(
    alloc: Global,
    verb: BlessVerb,
    target: &BootPath,
    end: &str,
) -> Result<String, AllocError>
    ensures { IfOk result (λ text. string_bytes text ≡ blessed_text verb target.now ++ end.now) }
{
    let verb = verb_text(verb);
    format!(in alloc; "{verb} {target}{end}")
}

// The plan of an entry that gets the name which the verb wants.
fn bless_from(
    alloc: Global,
    verb: BlessVerb,
    target: &BootPath,
    from: &BootPath,
) -> Result<Plan, AllocError>
    ensures { IfOk result (λ plan. (s : State) → has (seen s) from.now ≡ true → has (seen s) target.now ≡ false
        → Plans s plan (blessed_from (seen s) verb target.now from.now)) }
{
    let text = blessed_text(alloc, verb, target, "\n")?;
    plan_move(alloc, from, target, text)
}

// The plan of a blessing by which of the entry's names are there.
fn bless_entry(
    alloc: Global,
    verb: BlessVerb,
    paths: &EntryPaths,
    present: Present,
) -> Result<Plan, ReadError>
    ensures plans { (s : State) → present ≡ present_at (seen s) paths.now
        → PlansAs s result (bless_entry (seen s) verb paths.now) }
    ensures counts { (counts : Counts) → CountsReadError result counts counts }
{
    let target = target_of(paths, verb);
    match bless_choice(verb, present) {
        BlessChoice::Nothing => {
            let text = blessed_text(alloc, verb, target, ", nothing to do\n")?;
            Ok(plan_nothing(text))
        }
        BlessChoice::FromGood => Ok(bless_from(alloc, verb, target, &paths.good)?),
        BlessChoice::FromCounted => Ok(bless_from(alloc, verb, target, &paths.counted)?),
        BlessChoice::FromBad => Ok(bless_from(alloc, verb, target, &paths.bad)?),
        BlessChoice::NoSource => Err(ReadError::Refused(no_source(alloc, &paths.counted)?)),
    }
}

fn no_source(alloc: Global, path: &BootPath) -> Result<Refusal, AllocError>
    ensures { IfOk result (λ why. why ≡ Refusal.NoSource (printed_path path.now)) }
{
    let path = printed_path(alloc, path)?;
    Ok(Refusal::NoSource { path })
}

fn bless<M: Machine>(
    alloc: Global,
    verb: BlessVerb,
    word: &str,
    esp: &str,
    machine: &mut M,
) -> Result<Plan, ReadError>
    ensures plans { IsTrue M.tells → PlansAs (M.state machine.old) result
        (bless_result (seen (M.state machine.old)) verb word.now esp.now) }
    ensures looks { Looks M.tells M.time M.state M.counts (CountsReadError result) machine.old machine.new }
    ensures taken { IsTrue M.tells → TakesAtMost 0 (M.taken machine.old) (M.taken machine.new) }
    ensures words { DeclinesWords (reported_paths word.now esp.now) result }
{
    let paths = reported_paths(alloc, word, esp)?;
    let present = present_names(&paths, machine)?;
    bless_entry(alloc, verb, &paths, present)
}

// How an entry is marked.
fn status_text(alloc: Global, paths: &EntryPaths, present: Present) -> Result<Vec<u8>, ReadError>
    ensures says { Says (λ text. text.items) result (status_by paths.now present) }
    ensures counts { (counts : Counts) → CountsReadError result counts counts }
{
    if present.counted {
        return Ok(b"indeterminate\n".to_vec(alloc)?);
    }
    if present.good {
        return Ok(b"good\n".to_vec(alloc)?);
    }
    if present.bad {
        return Ok(b"bad\n".to_vec(alloc)?);
    }
    Err(ReadError::Refused(no_source(alloc, &paths.counted)?))
}

fn status<M: Machine>(
    alloc: Global,
    word: &str,
    esp: &str,
    machine: &mut M,
) -> Result<Vec<u8>, ReadError>
    ensures says { IsTrue M.tells → Says (λ text. text.items) result
        (status_result (seen (M.state machine.old)) word.now esp.now) }
    ensures looks { Looks M.tells M.time M.state M.counts (CountsReadError result) machine.old machine.new }
    ensures taken { IsTrue M.tells → TakesAtMost 0 (M.taken machine.old) (M.taken machine.new) }
    ensures words { DeclinesWords (reported_paths word.now esp.now) result }
{
    let paths = reported_paths(alloc, word, esp)?;
    let present = present_names(&paths, machine)?;
    status_text(alloc, &paths, present)
}

/// What the blessing of an entry is going to do, or what is going to be told of its mark. The entry is named by the
/// path below an EFI system partition that was reported for it, whose file name has a counter.
pub fn plan_bless<M: Machine>(
    alloc: Global,
    verb: BlessWord,
    word: &str,
    esp: &str,
    machine: &mut M,
) -> Result<Plan, RunError>
    ensures plans { IfOk result (λ plan. IsTrue M.tells → Plans (M.state machine.old) plan
        (bless_answer (seen (M.state machine.old)) verb word.now esp.now)) }
    ensures looks { Looks M.tells M.time M.state M.counts (CountsRunError result) machine.old machine.new }
    ensures taken { IsTrue M.tells → TakesAtMost 0 (M.taken machine.old) (M.taken machine.new) }
    ensures words { RefusesWords (reported_paths word.now esp.now) result }
{
    match verb {
        BlessWord::Mark(mark) => answer_or_refusal(alloc, bless(alloc, mark, word, esp, machine)),
        BlessWord::Status => text_or_refusal(alloc, status(alloc, word, esp, machine)),
    }
}
