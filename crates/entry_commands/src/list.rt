//! `bootctl list`.
ghost use Rattle.std.specs.Prelude.{◌≡◌, IfOk, IsTrue};
ghost use Rattle.boot_machine.specs.Prelude.{Counts, Looks, TakesAtMost, seen};
ghost use Rattle.command_plans.specs.Prelude.{CountsRunError, CountsReadError, DeclinesWords, Plans, RefusesWords, Says, answer_of_read, folders_of, menu_limit, printed_path};
ghost use Rattle.command_plans.specs.declared.plan.Change.TheVariants.{Nothing};
ghost use Rattle.entry_commands.specs.Listing.{json_result, list_result, menu_result};

use boot_base::Refusal;
use boot_entries::list_text;
use boot_machine::Machine;
use command_plans::{
    Plan, ReadError, RunError, folders_in, menu_at, printed_path, text_or_refusal,
};
use list_json::{JsonFault, menu_json};
use menu_order::MenuItem;
use std::alloc::{AllocError, Global};

// The refusal of an entry that JSON can't hold.
fn not_text(alloc: Global, entry: &MenuItem) -> Result<Refusal, AllocError>
    ensures { IfOk result (λ why. why ≡ Refusal.NotText (printed_path entry.now.path)) }
{
    let path = printed_path(alloc, &entry.path)?;
    Ok(Refusal::NotText { path })
}

// The line of a menu.
#[tactic(auto, using(crate::proofs::Untold::told_line, crate::proofs::Untold::told_refusal))]
fn json_text(alloc: Global, menu: &[MenuItem]) -> Result<Vec<u8>, ReadError>
    ensures says { Says (λ text. text.items) result (json_result menu.now) }
    ensures counts { (counts : Counts) → CountsReadError result counts counts }
{
    match menu_json(alloc, menu) {
        Ok(line) => Ok(line),
        Err(JsonFault::Memory) => Err(ReadError::Memory),
        Err(JsonFault::NotText { index }) => {
            let why = not_text(alloc, &menu[index])?;
            Err(ReadError::Refused(why))
        }
    }
}

// The text of a menu, or its line.
fn menu_text(alloc: Global, menu: &[MenuItem], json: bool) -> Result<Vec<u8>, ReadError>
    ensures says { Says (λ text. text.items) result (menu_result json menu.now) }
    ensures counts { (counts : Counts) → CountsReadError result counts counts }
{
    if menu.is_empty() {
        return Err(ReadError::Refused(Refusal::NoEntries));
    }
    if json {
        return json_text(alloc, menu);
    }
    Ok(list_text(alloc, menu)?)
}

fn list_result<M: Machine>(
    alloc: Global,
    esp: &str,
    json: bool,
    machine: &mut M,
) -> Result<Vec<u8>, ReadError>
    ensures says { IsTrue M.tells
        → Says (λ text. text.items) result (list_result (seen (M.state machine.old)) esp.now json) }
    ensures looks { Looks M.tells M.time M.state M.counts (CountsReadError result) machine.old machine.new }
    ensures taken { IsTrue M.tells
        → TakesAtMost (menu_limit (M.state machine.old).files (folders_of esp.now)) (M.taken machine.old)
        (M.taken machine.new) }
    ensures words { DeclinesWords (folders_of esp.now) result }
{
    let folders = folders_in(alloc, esp)?;
    let menu = menu_at(alloc, &folders, machine)?;
    menu_text(alloc, menu.as_slice(), json)
}

/// What is going to be told of the boot menu of an EFI system partition: each entry once, in the order of the menu
/// (UAPI Boot Loader Specification). Only headers and texts are read. As JSON it is one line.
pub fn plan_list<M: Machine>(
    alloc: Global,
    esp: &str,
    json: bool,
    machine: &mut M,
) -> Result<Plan, RunError>
    ensures plans { IfOk result (λ plan. IsTrue M.tells → Plans (M.state machine.old) plan
        (answer_of_read (seen (M.state machine.old)) (list_result (seen (M.state machine.old)) esp.now json))) }
    ensures idle { IfOk result (λ plan. plan.change ≡ Nothing) }
    ensures looks { Looks M.tells M.time M.state M.counts (CountsRunError result) machine.old machine.new }
    ensures taken { IsTrue M.tells
        → TakesAtMost (menu_limit (M.state machine.old).files (folders_of esp.now)) (M.taken machine.old)
        (M.taken machine.new) }
    ensures words { RefusesWords (folders_of esp.now) result }
{
    let text = list_result(alloc, esp, json, machine);
    text_or_refusal(alloc, text)
}
