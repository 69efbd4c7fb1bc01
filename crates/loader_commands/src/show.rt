//! `loader show`.
ghost use Rattle.std.specs.Prelude.{◌≡◌, IfOk, IsTrue, option_copied};
ghost use Rattle.boot_machine.specs.Prelude.{Counts, Looks, TakesAtMost, seen};
ghost use Rattle.command_plans.specs.Prelude.{CountsRunError, CountsReadError, DeclinesWords, Plans, RefusesWords, Says};
ghost use Rattle.command_plans.specs.declared.plan.Change.TheVariants.{Nothing};
ghost use Rattle.loader_commands.specs.Places.{loader_paths};
ghost use Rattle.loader_commands.specs.Taking.{show_limit};
ghost use Rattle.loader_commands.specs.Showing.{default_item, menu_shown, show_answer, show_result, show_text, timeout_or_none};

use crate::places::{conf_bytes, loader_paths};
use boot_base::{Bytes, Refusal};
use boot_entries::choose_entry;
use boot_machine::Machine;
use boot_texts::LoaderConf;
use command_plans::{Plan, ReadError, RunError, menu_at, text_or_refusal};
use menu_order::MenuItem;
use std::alloc::{AllocError, Global};

// The entry of the menu that the settings choose.
fn default_item<'a>(
    alloc: Global,
    menu: &'a [MenuItem],
    conf: &LoaderConf,
) -> Result<Option<&'a MenuItem>, AllocError>
    ensures { IfOk result (λ item. option_copied item ≡ default_item conf.now.default menu.now) }
{
    match choose_entry(alloc, menu, conf)? {
        Some(place) => Ok(menu.get(place)),
        None => Ok(None),
    }
}

// How long the menu waits, as it is told.
fn timeout_or_none(timeout: &Option<Bytes>) -> &[u8]
    ensures { result.now ≡ timeout_or_none timeout.now }
{
    match timeout {
        Some(timeout) => timeout.as_slice(),
        None => b"none",
    }
}

// What is told of an entry.
fn show_text(alloc: Global, item: &MenuItem, conf: &LoaderConf) -> Result<Vec<u8>, AllocError>
    ensures { IfOk result (λ text. text.items ≡ show_text item.now conf.now.timeout) }
{
    let mut text = b"chosen ".to_vec(alloc)?;
    text.extend_from_slice(item.id(alloc)?.as_slice())?;
    text.extend_from_slice(b"\nsource /")?;
    text.extend_from_slice(item.path.as_str().as_bytes())?;
    text.extend_from_slice(b"\ntimeout ")?;
    text.extend_from_slice(timeout_or_none(&conf.timeout))?;
    text.push(b'\n')?;
    Ok(text)
}

// What is told of a menu by the bytes of a loader.conf.
fn menu_shown(alloc: Global, bytes: &[u8], menu: &[MenuItem]) -> Result<Vec<u8>, ReadError>
    ensures says { Says (λ text. text.items) result (menu_shown bytes.now menu.now) }
    ensures counts { (counts : Counts) → CountsReadError result counts counts }
{
    let conf = LoaderConf::read(alloc, bytes)?;
    match default_item(alloc, menu, &conf)? {
        Some(item) => Ok(show_text(alloc, item, &conf)?),
        None => Err(ReadError::Refused(Refusal::NoEntries)),
    }
}

fn show_result<M: Machine>(alloc: Global, esp: &str, machine: &mut M) -> Result<Vec<u8>, ReadError>
    ensures says { IsTrue M.tells
        → Says (λ text. text.items) result (show_result (seen (M.state machine.old)) esp.now) }
    ensures looks { Looks M.tells M.time M.state M.counts (CountsReadError result) machine.old machine.new }
    ensures taken { IsTrue M.tells
        → TakesAtMost (show_limit (M.state machine.old).files (loader_paths esp.now)) (M.taken machine.old)
        (M.taken machine.new) }
    ensures words { DeclinesWords (loader_paths esp.now) result }
{
    let paths = loader_paths(alloc, esp)?;
    let bytes = conf_bytes(alloc, &paths.conf, machine)?;
    let menu = menu_at(alloc, &paths.folders, machine)?;
    menu_shown(alloc, &bytes, menu.as_slice())
}

/// What is going to be told of the entry that boots by default in an EFI system partition: its id, its file and how
/// long the menu waits. Of the entries only headers and texts are read, and at most 65,536 bytes of loader.conf.
pub fn plan_show<M: Machine>(alloc: Global, esp: &str, machine: &mut M) -> Result<Plan, RunError>
    ensures plans { IfOk result (λ plan. IsTrue M.tells → Plans (M.state machine.old) plan
        (show_answer (seen (M.state machine.old)) esp.now)) }
    ensures idle { IfOk result (λ plan. plan.change ≡ Nothing) }
    ensures looks { Looks M.tells M.time M.state M.counts (CountsRunError result) machine.old machine.new }
    ensures taken { IsTrue M.tells
        → TakesAtMost (show_limit (M.state machine.old).files (loader_paths esp.now)) (M.taken machine.old)
        (M.taken machine.new) }
    ensures words { RefusesWords (loader_paths esp.now) result }
{
    let text = show_result(alloc, esp, machine);
    text_or_refusal(alloc, text)
}
