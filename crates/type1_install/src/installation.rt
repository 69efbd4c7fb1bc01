//! The commands that `type1 install` stands for.
ghost use Rattle.std.specs.Prelude.{◌≡◌, ◌≤◌, ◌++◌, ◌∷◌, [], All, IfOk, IsTrue, OnOk, length, map, option_to_list};
ghost use Rattle.boot_machine.specs.Prelude.{Looks, TakesAtMost, seen};
ghost use Rattle.boot_texts.specs.EntryText.{entry_text};
ghost use Rattle.tool_words.specs.declared.action.Action.TheVariants.{Enter};
ghost use Rattle.command_plans.specs.Prelude.{CountsReadError, Says};
ghost use Rattle.type1_install.specs.Installing.{install_expansion, install_plan, installing_length};
ghost use Rattle.type1_install.specs.Shown.{AreFields, HasPayloadName, fields_with, put_in, value_of_payload};
ghost use Rattle.type1_install.specs.Payloads.{HasRoom};

use crate::install_words::{EntryRoom, install_plan};
use crate::payload::{Payload, payload_at, payloads_at};
use crate::place::payload_path;
use boot_base::{BootPath, Bytes, BytesList, PAYLOADS, PIECE_SIZE, Text};
use boot_machine::Machine;
use boot_texts::{Type1, entry_text};
use command_plans::{ReadError, push};
use std::alloc::{AllocError, Global};
use tool_words::{Action, EntryTexts, Type1Words};

fn put_in(alloc: Global, folder: &BootPath, payload: &Payload) -> Result<Action, AllocError>
    requires room { HasRoom folder.now }
    requires name { HasPayloadName payload.now }
    ensures { IfOk result (λ command. command ≡ put_in folder.now payload.now) }
{
    let target = payload_path(alloc, folder, payload.name.as_str())?;
    let file = payload.file.copy(alloc)?;
    Ok(Action::Put { file, target })
}

// Puts the commands behind the others that put these payloads into the folder.
fn add_puts(
    alloc: Global,
    folder: &BootPath,
    payloads: &[Payload],
    commands: &mut Vec<Action>,
) -> Result<(), AllocError>
    requires room { HasRoom folder.now }
    requires names { All HasPayloadName payloads.now }
    ensures { OnOk result (commands.new.items ≡ commands.old.items ++ map (put_in folder.now) payloads.now) }
{
    for payload in payloads {
        let command = put_in(alloc, folder, payload)?;
        push(commands, command)?;
    }
    Ok(())
}

fn value_of_payload(alloc: Global, payload: &Payload) -> Result<Bytes, AllocError>
    ensures { IfOk result (λ value. value ≡ value_of_payload payload.now) }
{
    let name = payload.name.as_str();
    let value = format!(in alloc; "/{PAYLOADS}/{name}")?;
    Ok(Bytes::from(value.into_bytes()))
}

fn values_of(alloc: Global, payloads: &[Payload]) -> Result<BytesList, AllocError>
    ensures { IfOk result (λ values. values ≡ map value_of_payload payloads.now) }
{
    let mut values = BytesList::new(alloc);
    for payload in payloads {
        values.push(value_of_payload(alloc, payload)?)?;
    }
    Ok(values)
}

fn bytes_of(alloc: Global, text: &Option<Text>) -> Result<Option<Bytes>, AllocError>
    ensures { IfOk result (λ bytes. bytes ≡ text.now) }
{
    match text {
        Some(text) => Ok(Some(Bytes::of(alloc, text.as_str().as_bytes())?)),
        None => Ok(None),
    }
}

fn list_of(alloc: Global, text: &Option<Text>) -> Result<BytesList, AllocError>
    ensures { IfOk result (λ list. list ≡ option_to_list text.now) }
{
    let mut list = BytesList::new(alloc);
    if let Some(text) = text {
        list.push(Bytes::of(alloc, text.as_str().as_bytes())?)?;
    }
    Ok(list)
}

// What the entry of these texts and payloads says.
fn fields_with(
    alloc: Global,
    texts: &EntryTexts,
    linux: &Payload,
    initrds: &[Payload],
) -> Result<Type1, AllocError>
    ensures { IfOk result (λ fields. fields ≡ fields_with texts.now linux.now initrds.now) }
{
    Ok(Type1 {
        title: bytes_of(alloc, &texts.title)?,
        version: bytes_of(alloc, &texts.version)?,
        machine_id: bytes_of(alloc, &texts.machine_id)?,
        sort_key: bytes_of(alloc, &texts.sort_key)?,
        linux: Some(value_of_payload(alloc, linux)?),
        efi: None,
        initrds: values_of(alloc, initrds)?,
        options: list_of(alloc, &texts.options)?,
        devicetree: None,
        overlay: None,
        architecture: None,
    })
}

// The command that enters the entry of these texts and payloads.
fn enter_in(
    alloc: Global,
    entry: &BootPath,
    texts: &EntryTexts,
    linux: &Payload,
    initrds: &[Payload],
) -> Result<Action, AllocError>
    requires texts { AreFields texts.now }
    requires linux { HasPayloadName linux.now }
    requires initrds { All HasPayloadName initrds.now }
    requires few { length initrds.now ≤ 64 }
    ensures { IfOk result (λ command. command
        ≡ Enter entry.now (entry_text (fields_with texts.now linux.now initrds.now))) }
{
    let fields = fields_with(alloc, texts, linux, initrds)?;
    let text = entry_text(alloc, &fields)?;
    let path = entry.copy(alloc)?;
    Ok(Action::Enter {
        path,
        text: Bytes::from(text),
    })
}

// The payloads are put and then the entry is entered.
fn install_commands(
    alloc: Global,
    place: &EntryRoom,
    texts: &EntryTexts,
    linux: &Payload,
    initrds: &[Payload],
) -> Result<Vec<Action>, AllocError>
    requires room { HasRoom place.now.folder }
    requires texts { AreFields texts.now }
    requires linux { HasPayloadName linux.now }
    requires initrds { All HasPayloadName initrds.now }
    requires few { length initrds.now ≤ 64 }
    ensures { IfOk result (λ commands. commands.items
        ≡ put_in place.now.folder linux.now ∷ (map (put_in place.now.folder) initrds.now
        ++ Enter place.now.entry (entry_text (fields_with texts.now linux.now initrds.now)) ∷ [])) }
{
    let mut commands = Vec::new(alloc);
    let put = put_in(alloc, &place.folder, linux)?;
    push(&mut commands, put)?;
    add_puts(alloc, &place.folder, initrds, &mut commands)?;
    let enter = enter_in(alloc, &place.entry, texts, linux, initrds)?;
    push(&mut commands, enter)?;
    Ok(commands)
}

/// The commands that an installation stands for, or what it is refused for. Each file is read once, in pieces.
#[tactic(auto, unfolding(crate::specs::Installing::install_expansion))]
pub fn install_expansion<M: Machine>(
    alloc: Global,
    words: &Type1Words,
    machine: &mut M,
) -> Result<Vec<Action>, ReadError>
    ensures says { IsTrue M.tells → Says (λ commands. commands.items) result
        (install_expansion (seen (M.state machine.old)) words.now) }
    ensures looks { Looks M.tells M.time M.state M.counts (CountsReadError result) machine.old machine.new }
    ensures taken { IsTrue M.tells → TakesAtMost
        (installing_length (seen (M.state machine.old)) (install_plan words.now)) (M.taken machine.old)
        (M.taken machine.new) }
{
    let plan = install_plan(alloc, words)?;
    let mut buffer = [0; PIECE_SIZE];
    let linux = payload_at(alloc, &plan.files.linux, machine, &mut buffer)?;
    let initrds = payloads_at(alloc, &plan.files.initrds, machine, &mut buffer)?;
    Ok(install_commands(alloc, &plan.place, &words.texts, &linux, &initrds)?)
}
