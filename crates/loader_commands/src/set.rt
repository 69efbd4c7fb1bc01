//! `loader set-default` and `loader set-timeout`.
ghost use Rattle.std.specs.Prelude.{◌≡◌, IfOk, IsTrue, OnOk};
ghost use Rattle.boot_base.specs.Limits.{text_limit};
ghost use Rattle.boot_machine.specs.Prelude.{Counts, Looks, TakesAtMost, seen};
ghost use Rattle.command_plans.specs.Prelude.{CountsRunError, CountsReadError, DeclinesWords, Means, Plans, PlansAs, RefusesWords, Says};
ghost use Rattle.loader_commands.specs.Places.{within_limit};
ghost use Rattle.loader_commands.specs.Setting.{bad_value, conf_update, conf_words, set_answer, set_result, set_text, changed_text, value_in};
ghost use Rattle.boot_texts.specs.Conf.{IsConfValue, conf_key_name};
ghost use Rattle.boot_texts.specs.FileLines.{text_with_value};
ghost use Rattle.boot_texts.specs.declared.conf_change.ConfKey.TheVariants as keys;

use crate::places::{conf_bytes, conf_path};
use boot_base::{BootPath, Bytes, Refusal, TEXT_LIMIT, Target, Text};
use boot_machine::Machine;
use boot_texts::{ConfKey, may_be_value, with_key};
use command_plans::{
    Change, Outcome, Plan, ReadError, RunError, WordError, answer_or_refusal, too_large,
};
use std::alloc::{AllocError, Global};

/// A change of a loader.conf: where it is written, its whole new text, and what is told of it.
#[derive(Drop)]
struct ConfChange {
    target: Target,
    bytes: Bytes,
    text: Bytes,
}

fn bad_value(alloc: Global, key: ConfKey, word: &str) -> Result<Refusal, AllocError>
    ensures { IfOk result (λ why. why ≡ bad_value key word.now) }
{
    let text = Text::of(alloc, word)?;
    match key {
        ConfKey::Default => Ok(Refusal::BadPattern { text }),
        ConfKey::Timeout => Ok(Refusal::BadNumber { text }),
    }
}

// The word may be written for the key, or the refusal of the word.
fn check_value(alloc: Global, key: ConfKey, word: &str) -> Result<(), WordError>
    ensures means { Means (λ _. word.now) result (value_in key word.now) }
    ensures fits { OnOk result (IsConfValue key word.now) }
{
    if !may_be_value(key, word.as_bytes()) {
        return Err(WordError::Refused(bad_value(alloc, key, word)?));
    }
    Ok(())
}

// The text, unless it is too long for the loader.conf at the path.
fn within_limit(alloc: Global, path: &BootPath, text: Vec<u8>) -> Result<Vec<u8>, ReadError>
    ensures says { Says (λ text. text.items) result (within_limit path.now text.items) }
    ensures counts { (counts : Counts) → CountsReadError result counts counts }
{
    let size = text.len() as u64;
    if size > TEXT_LIMIT {
        return Err(ReadError::Refused(too_large(alloc, path, size)?));
    }
    Ok(text)
}

// The text of the loader.conf at a path with the key's value.
fn changed_text<M: Machine>(
    alloc: Global,
    key: ConfKey,
    value: &str,
    path: &BootPath,
    machine: &mut M,
) -> Result<Vec<u8>, ReadError>
    requires { IsConfValue key value.now }
    ensures says { IsTrue M.tells
        → Says (λ text. text.items) result (changed_text (seen (M.state machine.old)) key value.now path.now) }
    ensures looks { Looks M.tells M.time M.state M.counts (CountsReadError result) machine.old machine.new }
    ensures taken { IsTrue M.tells → TakesAtMost text_limit (M.taken machine.old) (M.taken machine.new) }
{
    let bytes = conf_bytes(alloc, path, machine)?;
    let text = with_key(alloc, &bytes, key, value.as_bytes())?;
    within_limit(alloc, path, text)
}

// What is told of the change.
fn set_text(alloc: Global, key: ConfKey, value: &str) -> Result<Bytes, AllocError>
    ensures { IfOk result (λ text. text ≡ set_text key value.now) }
{
    let key = key.name();
    let text = format!(in alloc; "{key} {value}\n")?;
    Ok(Bytes::from(text.into_bytes()))
}

fn change_of(
    alloc: Global,
    key: ConfKey,
    value: &str,
    path: BootPath,
    bytes: Vec<u8>,
) -> Result<ConfChange, AllocError>
    ensures path { IfOk result (λ change. change.target.path ≡ path) }
    ensures bytes { IfOk result (λ change. change.bytes ≡ bytes.items) }
    ensures text { IfOk result (λ change. change.text ≡ set_text key value.now) }
{
    Ok(ConfChange {
        text: set_text(alloc, key, value)?,
        target: Target::of(alloc, path)?,
        bytes: Bytes::from(bytes),
    })
}

// The change that gives the key of the partition's loader.conf the value.
fn conf_update<M: Machine>(
    alloc: Global,
    key: ConfKey,
    value: &str,
    esp: &str,
    machine: &mut M,
) -> Result<ConfChange, ReadError>
    ensures says { IsTrue M.tells → Says (λ change. (change.target.path, change.bytes)) result
        (conf_update (seen (M.state machine.old)) key value.now esp.now) }
    ensures text { IfOk result (λ change. change.text ≡ set_text key value.now) }
    ensures looks { Looks M.tells M.time M.state M.counts (CountsReadError result) machine.old machine.new }
    ensures taken { IsTrue M.tells → TakesAtMost text_limit (M.taken machine.old) (M.taken machine.new) }
    ensures words { DeclinesWords (conf_words key value.now esp.now) result }
{
    check_value(alloc, key, value)?;
    let path = conf_path(alloc, esp)?;
    let bytes = changed_text(alloc, key, value, &path, machine)?;
    Ok(change_of(alloc, key, value, path, bytes)?)
}

// The plan that gives the key of the partition's loader.conf the value.
fn set_plan<M: Machine>(
    alloc: Global,
    key: ConfKey,
    value: &str,
    esp: &str,
    machine: &mut M,
) -> Result<Plan, ReadError>
    ensures plans { IsTrue M.tells → PlansAs (M.state machine.old) result
        (set_result (seen (M.state machine.old)) key value.now esp.now) }
    ensures looks { Looks M.tells M.time M.state M.counts (CountsReadError result) machine.old machine.new }
    ensures taken { IsTrue M.tells → TakesAtMost text_limit (M.taken machine.old) (M.taken machine.new) }
    ensures words { DeclinesWords (conf_words key value.now esp.now) result }
{
    let change = conf_update(alloc, key, value, esp, machine)?;
    Ok(Plan {
        change: Change::Put {
            target: change.target,
            bytes: change.bytes,
        },
        outcome: Outcome::Done,
        text: change.text,
    })
}

/// What is going to be done where the pattern of the default entry is set in the loader.conf of an EFI system
/// partition.
pub fn plan_default<M: Machine>(
    alloc: Global,
    pattern: &str,
    esp: &str,
    machine: &mut M,
) -> Result<Plan, RunError>
    ensures plans { IfOk result (λ plan. IsTrue M.tells → Plans (M.state machine.old) plan
        (set_answer (seen (M.state machine.old)) keys.Default pattern.now esp.now)) }
    ensures looks { Looks M.tells M.time M.state M.counts (CountsRunError result) machine.old machine.new }
    ensures taken { IsTrue M.tells → TakesAtMost text_limit (M.taken machine.old) (M.taken machine.new) }
    ensures words { RefusesWords (conf_words keys.Default pattern.now esp.now) result }
{
    let plan = set_plan(alloc, ConfKey::Default, pattern, esp, machine);
    answer_or_refusal(alloc, plan)
}

/// What is going to be done where it is set how long the menu waits.
pub fn plan_timeout<M: Machine>(
    alloc: Global,
    value: &str,
    esp: &str,
    machine: &mut M,
) -> Result<Plan, RunError>
    ensures plans { IfOk result (λ plan. IsTrue M.tells → Plans (M.state machine.old) plan
        (set_answer (seen (M.state machine.old)) keys.Timeout value.now esp.now)) }
    ensures looks { Looks M.tells M.time M.state M.counts (CountsRunError result) machine.old machine.new }
    ensures taken { IsTrue M.tells → TakesAtMost text_limit (M.taken machine.old) (M.taken machine.new) }
    ensures words { RefusesWords (conf_words keys.Timeout value.now esp.now) result }
{
    let plan = set_plan(alloc, ConfKey::Timeout, value, esp, machine);
    answer_or_refusal(alloc, plan)
}
