//! `install`.
ghost use Rattle.std.specs.Prelude.{◌≡◌, ◌≤◌, ◌<◌, length, true, IfOk, IfSome, IsTrue, OnOk, Result, string_bytes, option_map};
ghost use Rattle.boot_base.specs.Limits.{file_limit};
ghost use Rattle.boot_base.specs.Paths.{file_name_of};
ghost use Rattle.menu_order.specs.Splits.{has_suffix};
ghost use Rattle.menu_order.specs.declared.counted.Suffix.TheVariants.{Efi};
ghost use Rattle.boot_entries.specs.Items.{FailsAs, item_counts};
ghost use Rattle.boot_entries.specs.Missing.{missing_text};
ghost use Rattle.boot_entries.specs.Records.{Unfit, uki_of};
ghost use Rattle.boot_entries.specs.Scanning.{image_limit};
ghost use Rattle.boot_machine.specs.Prelude.{Counts, Looks, State, TakesAtMost, contents, seen};
ghost use Rattle.command_plans.specs.Prelude.{CanCopy, CountsRunError, CountsReadError, DeclinesWords, Means, Plans, PlansAs, RefusesWords, Says, ReadErrorFor, if_given, read_error_counts};
ghost use Rattle.entry_commands.specs.Counts.{count_in, counter_limit};
ghost use Rattle.entry_commands.specs.Installing.{IsImageName, ShowsEntry, entry_or, image_name, image_name_in, image_path, install_answer, install_result, installation_of, installed_entry, installed_image};
ghost use Rattle.menu_order.specs.declared.item.MenuItem.{MenuItem};

use crate::counts::count_in;
use boot_base::{BootPath, IMAGES, PeText, Refusal, Text};
use boot_entries::{ItemFault, Missing, uki_item};
use boot_machine::Machine;
use command_plans::{
    Plan, ReadError, RunError, WordError, answer_or_refusal, check_name, file_under,
    installed_text, not_pe, path_in, plan_copy, readable_size,
};
use menu_order::{Counted, Suffix};
use std::alloc::{AllocError, Global};

/// What the words of an installation name.
#[derive(Drop)]
struct Installation {
    /// The image.
    from: BootPath,
    /// Where its bytes come to stand.
    target: BootPath,
}

// The tries that an option gives, if it is there.
fn given_tries(alloc: Global, word: Option<&Text>) -> Result<Option<u32>, WordError>
    ensures means { Means (λ tries. tries) result (if_given count_in (option_map (λ text. text.now) word.entry)) }
    ensures limit { IfOk result (λ tries. IfSome tries (λ n. n ≤ counter_limit)) }
{
    match word {
        Some(word) => Ok(Some(count_in(alloc, word.as_str())?)),
        None => Ok(None),
    }
}

// The name of the image's file.
fn image_name(alloc: Global, name: &str, tries: Option<u32>) -> Result<String, AllocError>
    requires some { 0 < length name.now }
    requires limit { IfSome tries (λ n. n ≤ counter_limit) }
    ensures { IfOk result (λ file. string_bytes file ≡ image_name name.now tries) }
{
    match tries {
        Some(tries) => Counted::join_name(alloc, name, tries, 0, Suffix::Efi),
        None => format!(in alloc; "{name}.efi"),
    }
}

fn image_name_in(alloc: Global, name: &str, tries: Option<&Text>) -> Result<String, WordError>
    ensures means { Means string_bytes result (image_name_in name.now (option_map (λ text. text.now) tries.entry)) }
    ensures name { IfOk result (λ file. IsImageName (string_bytes file)) }
{
    check_name(alloc, name, Suffix::Efi)?;
    let tries = given_tries(alloc, tries)?;
    Ok(image_name(alloc, name, tries)?)
}

fn image_path(alloc: Global, esp: &str, name: &str) -> Result<BootPath, WordError>
    ensures { Means (λ path. path) result (image_path esp.now name.now) }
{
    let esp = path_in(alloc, esp)?;
    file_under(alloc, &esp, IMAGES, name)
}

fn installation_of(
    alloc: Global,
    file: &str,
    name: &str,
    tries: Option<&Text>,
    esp: &str,
) -> Result<Installation, WordError>
    ensures means { Means (λ words. words) result
        (installation_of file.now name.now (option_map (λ text. text.now) tries.entry) esp.now) }
    ensures image { IfOk result (λ words. has_suffix Efi (file_name_of words.target) ≡ true) }
{
    let image = image_name_in(alloc, name, tries)?;
    let from = path_in(alloc, file)?;
    let target = image_path(alloc, esp, image.as_str())?;
    Ok(Installation { from, target })
}

fn not_uki(alloc: Global, missing: Missing) -> Result<Refusal, AllocError>
    ensures { IfOk result (λ why. why ≡ Refusal.NotUki (missing_text missing)) }
{
    let missing = Text::of(alloc, missing.as_str())?;
    Ok(Refusal::NotUki { missing })
}

// Why nothing is installed of a file that is no entry.
fn unfit_read_error(alloc: Global, fault: ItemFault) -> ReadError
    ensures meant { (entry : Result MenuItem Unfit) → FailsAs fault entry → ReadErrorFor result (entry_or entry) }
    ensures counts { (old new : Counts) → item_counts fault old new → read_error_counts result old new }
{
    match fault {
        ItemFault::Memory => ReadError::Memory,
        ItemFault::Disk => ReadError::Disk,
        ItemFault::NotPe { reason, offset } => match not_pe(alloc, reason, offset) {
            Ok(why) => ReadError::Refused(why),
            Err(AllocError) => ReadError::Memory,
        },
        ItemFault::NotUki { missing } => match not_uki(alloc, missing) {
            Ok(why) => ReadError::Refused(why),
            Err(AllocError) => ReadError::Memory,
        },
    }
}

// Whether the menu would show the file of `size` bytes where it comes to stand. The entry itself isn't kept.
fn check_entry<M: Machine>(
    alloc: Global,
    words: &Installation,
    size: u64,
    machine: &mut M,
) -> Result<(), ReadError>
    requires small { size ≤ file_limit }
    requires size { IsTrue M.tells → size ≡ length (contents (M.state machine.old).files words.now.from) }
    requires image { has_suffix Efi (file_name_of words.now.target) ≡ true }
    ensures says { IsTrue M.tells → ShowsEntry result
        (entry_or (uki_of words.now.target (contents (M.state machine.old).files words.now.from))) }
    ensures looks { Looks M.tells M.time M.state M.counts (CountsReadError result) machine.old machine.new }
    ensures taken { IsTrue M.tells → TakesAtMost image_limit (M.taken machine.old) (M.taken machine.new) }
{
    let target = words.target.copy(alloc)?;
    match uki_item(alloc, machine, &words.from, size, target) {
        Ok(entry) => {
            drop(entry);
            Ok(())
        }
        Err(fault) => Err(unfit_read_error(alloc, fault)),
    }
}

// Whether the file can be installed: it has no more bytes than are read, and is an entry.
fn check_image<M: Machine>(
    alloc: Global,
    words: &Installation,
    machine: &mut M,
) -> Result<(), ReadError>
    requires image { has_suffix Efi (file_name_of words.now.target) ≡ true }
    ensures says { IsTrue M.tells → Says (λ _. contents (seen (M.state machine.old)) words.now.from) result
        (installed_image (seen (M.state machine.old)) words.now) }
    ensures can { OnOk result (IsTrue M.tells → CanCopy (M.state machine.old) words.now.from) }
    ensures looks { Looks M.tells M.time M.state M.counts (CountsReadError result) machine.old machine.new }
    ensures taken { IsTrue M.tells → TakesAtMost image_limit (M.taken machine.old) (M.taken machine.new) }
{
    let size = readable_size(alloc, &words.from, machine)?;
    check_entry(alloc, words, size, machine)
}

// The plan of an installation.
fn plan_words(alloc: Global, words: Installation) -> Result<Plan, AllocError>
    ensures { IfOk result (λ plan. (s : State) → CanCopy s words.from
        → Plans s plan (installed_entry (seen s) words (contents (seen s) words.from))) }
{
    let Installation { from, target } = words;
    let text = installed_text(alloc, &target)?;
    plan_copy(alloc, from, target, text)
}

fn install<M: Machine>(
    alloc: Global,
    file: &str,
    name: &str,
    tries: Option<&Text>,
    esp: &str,
    machine: &mut M,
) -> Result<Plan, ReadError>
    ensures plans { IsTrue M.tells → PlansAs (M.state machine.old) result
        (install_result (seen (M.state machine.old)) file.now name.now
        (option_map (λ text. text.now) tries.entry) esp.now) }
    ensures looks { Looks M.tells M.time M.state M.counts (CountsReadError result) machine.old machine.new }
    ensures taken { IsTrue M.tells → TakesAtMost image_limit (M.taken machine.old) (M.taken machine.new) }
    ensures words { DeclinesWords
        (installation_of file.now name.now (option_map (λ text. text.now) tries.entry) esp.now) result }
{
    let words = installation_of(alloc, file, name, tries, esp)?;
    check_image(alloc, &words, machine)?;
    Ok(plan_words(alloc, words)?)
}

/// What the installation of an image is going to do: the file's bytes come to stand among the images, under the name
/// and with the tries that are given. Of the file its headers and its os-release text are read; it is copied piece by
/// piece.
pub fn plan_install<M: Machine>(
    alloc: Global,
    file: &str,
    name: &str,
    tries: Option<&Text>,
    esp: &str,
    machine: &mut M,
) -> Result<Plan, RunError>
    ensures plans { IfOk result (λ plan. IsTrue M.tells → Plans (M.state machine.old) plan
        (install_answer (seen (M.state machine.old)) file.now name.now
        (option_map (λ text. text.now) tries.entry) esp.now)) }
    ensures looks { Looks M.tells M.time M.state M.counts (CountsRunError result) machine.old machine.new }
    ensures taken { IsTrue M.tells → TakesAtMost image_limit (M.taken machine.old) (M.taken machine.new) }
    ensures words { RefusesWords
        (installation_of file.now name.now (option_map (λ text. text.now) tries.entry) esp.now) result }
{
    let plan = install(alloc, file, name, tries, esp, machine);
    answer_or_refusal(alloc, plan)
}
