//! What the words of `type1 install` say, or what they are refused for.
ghost use Rattle.std.specs.Prelude.{◌≡◌, ◌≤◌, ◌∷◌, bytes_eq, length, IfOk, string_bytes};
ghost use Rattle.boot_base.specs.Paths.{file_name_of, under};
ghost use Rattle.command_plans.specs.Prelude.{Means, each, if_given, path_in};
ghost use Rattle.type1_install.specs.Installing.{SourceFiles, entry_file, field_text, files_in, initrds_in, install_plan, place_in, install_source, texts_in};
ghost use Rattle.type1_install.specs.Payloads.{HasRoom, payload_folder};
ghost use Rattle.type1_install.specs.Shown.{AreFields, files_shown, place_shown, plan_shown};

use crate::place::payload_folder;
use boot_base::{BootPath, ENTRIES, Refusal, Text};
use boot_texts::is_field;
use command_plans::{WordError, check_name, file_under, path_in, printed_path, push};
use menu_order::Suffix;
use std::alloc::{AllocError, Global};
use tool_words::{EntryTexts, Type1Words};

/// The most initrds of an entry.
const INITRD_LIMIT: usize = 64;

/// What the words of an installation name.
#[derive(Drop)]
pub(crate) struct InstallPlan {
    /// The files that are to be its payloads.
    pub(crate) files: PayloadFiles,
    /// Where it comes to stand.
    pub(crate) place: EntryRoom,
}

/// The kernel and the initrds.
#[derive(Drop)]
pub(crate) struct PayloadFiles {
    pub(crate) linux: BootPath,
    pub(crate) initrds: Vec<BootPath>,
}

/// An ESP with the folder of its payloads, and the path of an entry's file in it.
#[derive(Drop)]
pub(crate) struct EntryRoom {
    pub(crate) esp: BootPath,
    pub(crate) folder: BootPath,
    pub(crate) entry: BootPath,
}

// The refusal of a text that may not stand in an entry.
fn check_field(alloc: Global, text: &Text) -> Result<(), WordError>
    ensures { Means (λ _. text.now) result (field_text text.now) }
{
    if is_field(text.as_str().as_bytes()) {
        return Ok(());
    }
    let text = Text::of(alloc, text.as_str())?;
    Err(WordError::Refused(Refusal::BadField { text }))
}

fn check_given(alloc: Global, text: &Option<Text>) -> Result<(), WordError>
    ensures { Means (λ _. text.now) result (if_given field_text text.now) }
{
    match text {
        Some(text) => check_field(alloc, text),
        None => Ok(()),
    }
}

// The refusal of the first text that may not stand in an entry.
fn check_texts(alloc: Global, texts: &EntryTexts) -> Result<(), WordError>
    ensures { Means (λ _. texts.now) result (texts_in texts.now) }
{
    check_given(alloc, &texts.title)?;
    check_given(alloc, &texts.version)?;
    check_given(alloc, &texts.machine_id)?;
    check_given(alloc, &texts.sort_key)?;
    check_given(alloc, &texts.options)
}

// The refusal of more initrds than an entry may have.
fn check_count(words: &[Text]) -> Result<(), WordError>
    ensures { Means (λ _. words.now) result (initrds_in words.now) }
{
    if words.len() > INITRD_LIMIT {
        let count = words.len() as u64;
        return Err(WordError::Refused(Refusal::TooManyFiles { count }));
    }
    Ok(())
}

fn entry_file(alloc: Global, words: &Type1Words) -> Result<String, WordError>
    ensures { Means string_bytes result (entry_file words.now) }
{
    let name = words.name.as_str();
    check_name(alloc, name, Suffix::Conf)?;
    check_texts(alloc, &words.texts)?;
    check_count(words.initrds.as_slice())?;
    Ok(format!(in alloc; "{name}.conf")?)
}

// The paths of these words, or the refusal of the first that is none.
fn paths_in(alloc: Global, words: &[Text]) -> Result<Vec<BootPath>, WordError>
    ensures { Means (λ paths. paths.items) result (each path_in words.now) }
{
    let mut paths = Vec::new(alloc);
    for word in words {
        let path = path_in(alloc, word.as_str())?;
        push(&mut paths, path)?;
    }
    Ok(paths)
}

fn files_in(alloc: Global, words: &Type1Words) -> Result<PayloadFiles, WordError>
    ensures { Means files_shown result (files_in words.now) }
{
    let linux = path_in(alloc, words.linux.as_str())?;
    let initrds = paths_in(alloc, words.initrds.as_slice())?;
    Ok(PayloadFiles { linux, initrds })
}

fn place_in(alloc: Global, word: &str, name: &str) -> Result<EntryRoom, WordError>
    ensures means { Means place_shown result (place_in word.now name.now) }
    ensures folder { IfOk result (λ place. place.folder ≡ payload_folder place.esp) }
    ensures room { IfOk result (λ place. HasRoom place.folder) }
{
    let esp = path_in(alloc, word)?;
    let folder = payload_folder(alloc, &esp)?;
    let entry = file_under(alloc, &esp, ENTRIES, name)?;
    Ok(EntryRoom { esp, folder, entry })
}

// The file lies directly in the folder.
fn is_in(alloc: Global, folder: &BootPath, path: &BootPath) -> Result<bool, AllocError>
    ensures { IfOk result (λ is. is ≡ bytes_eq (under folder.now (file_name_of path.now)) path.now) }
{
    let (folder, name) = (folder.as_str(), path.file_name());
    let inside = format!(in alloc; "{folder}/{name}")?;
    Ok(inside.as_str() == path.as_str())
}

// The refusal of a file that lies directly in the ESP's folder of payloads.
fn check_source(alloc: Global, place: &EntryRoom, path: &BootPath) -> Result<(), WordError>
    requires { place.now.folder ≡ payload_folder place.now.esp }
    ensures { Means (λ _. path.now) result (install_source place.now.esp path.now) }
{
    if is_in(alloc, &place.folder, path)? {
        let path = printed_path(alloc, path)?;
        return Err(WordError::Refused(Refusal::PayloadSource { path }));
    }
    Ok(())
}

fn check_initrds(alloc: Global, place: &EntryRoom, paths: &[BootPath]) -> Result<(), WordError>
    requires { place.now.folder ≡ payload_folder place.now.esp }
    ensures { Means (λ _. paths.now) result (each (install_source place.now.esp) paths.now) }
{
    for path in paths {
        check_source(alloc, place, path)?;
    }
    Ok(())
}

// The refusal of the first file that lies directly in the ESP's folder of payloads.
fn check_sources(alloc: Global, place: &EntryRoom, files: &PayloadFiles) -> Result<(), WordError>
    requires { place.now.folder ≡ payload_folder place.now.esp }
    ensures { Means (λ _. files.now.linux ∷ files.now.initrds.items) result
        (each (install_source place.now.esp) (files.now.linux ∷ files.now.initrds.items)) }
{
    check_source(alloc, place, &files.linux)?;
    check_initrds(alloc, place, &files.initrds)
}

/// What the words of an installation say, or what they are refused for.
pub(crate) fn install_plan(alloc: Global, words: &Type1Words) -> Result<InstallPlan, WordError>
    ensures means { Means (plan_shown words.now.texts) result (install_plan words.now) }
    ensures folder { IfOk result (λ plan. plan.place.folder ≡ payload_folder plan.place.esp) }
    ensures room { IfOk result (λ plan. HasRoom plan.place.folder) }
    ensures texts { IfOk result (λ _. AreFields words.now.texts) }
    ensures few { IfOk result (λ plan. length plan.files.initrds.items ≤ 64) }
{
    let name = entry_file(alloc, words)?;
    let files = files_in(alloc, words)?;
    let place = place_in(alloc, words.esp.as_str(), name.as_str())?;
    check_sources(alloc, &place, &files)?;
    Ok(InstallPlan { files, place })
}
