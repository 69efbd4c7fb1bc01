//! What a command of several actions comes to: its actions, which are at least one.
ghost use Rattle.std.specs.Prelude.{◌≡◌, ◌||◌, List, Result, ℕ, All, IfOk, IsTrue, [], ◌∷◌, length, nat_eq};
ghost use Rattle.boot_base.specs.Paths.{Path};
ghost use Rattle.boot_base.specs.declared.refusal.Refusal.{Refusal};
ghost use Rattle.boot_machine.specs.Prelude.{Counts, Looks, TakesAtMost};
ghost use Rattle.boot_commands.specs.Expanding.{RefusesReadError, StandsFor, expanding_length};
ghost use Rattle.boot_commands.specs.Expansions.{actions_or_refusal, clean_or_idle, keep_actions};
ghost use Rattle.command_plans.specs.Prelude.{CountsRunError, CountsReadError, Says, read_error_counts};
ghost use Rattle.tool_words.specs.declared.action.Action.TheVariants.{Tell};

use crate::demo::demo_result;
use boot_base::{BootPath, Bytes};
use boot_machine::Machine;
use command_plans::{ReadError, RunError};
use entry_commands::{keep_paths, would_text};
use std::alloc::{AllocError, Global};
use tool_words::{Action, Several};
use type1_install::{cleanup_expansion, install_expansion, removals};

/// The actions of a command on what the machine holds, found by reads alone.
pub fn expand<M: Machine>(
    alloc: Global,
    command: &Several,
    machine: &mut M,
) -> Result<Vec<Action>, RunError>
    ensures stands { IfOk result (λ actions. IsTrue M.tells → StandsFor (M.state machine.old) command.now actions.items) }
    ensures looks { Looks M.tells M.time M.state M.counts (CountsRunError result) machine.old machine.new }
    ensures taken { IsTrue M.tells → TakesAtMost (expanding_length (M.state machine.old) command.now)
        (M.taken machine.old) (M.taken machine.new) }
{
    match command {
        Several::Type1Install(words) => {
            let actions = install_expansion(alloc, words, machine);
            install_or_refusal(alloc, actions)
        }
        Several::Type1Cleanup { esp } => {
            let actions = cleanup_expansion(alloc, esp.as_str(), machine);
            clean_or_refusal(alloc, actions)
        }
        Several::Keep(words) => {
            let paths = keep_paths(alloc, words, machine);
            keep_or_refusal(alloc, words.dry_run, paths)
        }
        Several::Demo { seed, count } => {
            let text = demo_result(alloc, seed.as_str(), count.as_str());
            text_or_refusal(alloc, text)
        }
    }
}

// An action that is the only one.
fn only(alloc: Global, action: Action) -> Result<Vec<Action>, AllocError>
    ensures actions { IfOk result (λ actions. actions.items ≡ action ∷ []) }
{
    let mut actions = Vec::new(alloc);
    actions.push(action)?;
    Ok(actions)
}

// The refusal of the command, if that is why there are no actions.
fn refuse(alloc: Global, read_error: ReadError) -> Result<Vec<Action>, RunError>
    ensures refuses { IfOk result (λ actions. RefusesReadError read_error actions.items) }
    ensures counts { (old new : Counts) → read_error_counts read_error old new → CountsRunError result old new }
{
    match read_error {
        ReadError::Memory => Err(RunError::Memory),
        ReadError::Disk => Err(RunError::Disk),
        ReadError::Refused(why) => Ok(only(alloc, Action::Refuse { why })?),
    }
}

// A text that is told.
fn tell(alloc: Global, text: Vec<u8>) -> Result<Vec<Action>, AllocError>
    ensures actions { IfOk result (λ actions. actions.items ≡ Tell text.items ∷ []) }
{
    let text = Bytes::from(text);
    only(alloc, Action::Tell { text })
}

// An installation: its actions, or its refusal.
fn install_or_refusal(
    alloc: Global,
    actions: Result<Vec<Action>, ReadError>,
) -> Result<Vec<Action>, RunError>
    ensures actions { IfOk result (λ made. (meant : Result (List Action) Refusal) → Says (λ actions. actions.items) actions meant
        → made.items ≡ actions_or_refusal (λ actions. actions) meant) }
    ensures counts { (old new : Counts) → CountsReadError actions old new → CountsRunError result old new }
{
    match actions {
        Ok(actions) => Ok(actions),
        Err(read_error) => refuse(alloc, read_error),
    }
}

// A cleanup: its actions, its refusal, or that there is nothing to clean.
fn clean_or_refusal(
    alloc: Global,
    actions: Result<Vec<Action>, ReadError>,
) -> Result<Vec<Action>, RunError>
    ensures actions { IfOk result (λ made. (meant : Result (List Action) Refusal) → Says (λ actions. actions.items) actions meant
        → made.items ≡ actions_or_refusal clean_or_idle meant) }
    ensures counts { (old new : Counts) → CountsReadError actions old new → CountsRunError result old new }
{
    match actions {
        Ok(actions) if actions.is_empty() => {
            drop(actions);
            Ok(tell(alloc, Vec::from_slice(alloc, b"nothing to clean\n")?)?)
        }
        Ok(actions) => Ok(actions),
        Err(read_error) => refuse(alloc, read_error),
    }
}

// Whether no file goes: it is only told which would, or there is none.
fn is_only_told(dry_run: bool, paths: &[BootPath]) -> bool
    ensures { result ≡ (dry_run || nat_eq (length paths.now) 0) }
{
    dry_run || paths.is_empty()
}

// A `keep` that found these paths: the files there are removed, or it is told which would be, or its refusal.
fn keep_or_refusal(
    alloc: Global,
    dry_run: bool,
    paths: Result<Vec<BootPath>, ReadError>,
) -> Result<Vec<Action>, RunError>
    ensures actions { IfOk result (λ made. (meant : Result (List Path) Refusal) → Says (λ paths. paths.items) paths meant
        → made.items ≡ actions_or_refusal (keep_actions dry_run) meant) }
    ensures counts { (old new : Counts) → CountsReadError paths old new → CountsRunError result old new }
{
    match paths {
        Ok(paths) if is_only_told(dry_run, paths.as_slice()) => {
            Ok(tell(alloc, would_text(alloc, paths.as_slice())?)?)
        }
        Ok(paths) => Ok(removals(alloc, paths.as_slice())?),
        Err(read_error) => refuse(alloc, read_error),
    }
}

// A text that is told, or the refusal.
fn text_or_refusal(alloc: Global, text: Result<Vec<u8>, ReadError>) -> Result<Vec<Action>, RunError>
    ensures actions { IfOk result (λ made. (meant : Result (List ℕ) Refusal) → Says (λ text. text.items) text meant
        → made.items ≡ actions_or_refusal (λ text. Tell text ∷ []) meant) }
    ensures counts { (old new : Counts) → CountsReadError text old new → CountsRunError result old new }
{
    match text {
        Ok(text) => Ok(tell(alloc, text)?),
        Err(read_error) => refuse(alloc, read_error),
    }
}
