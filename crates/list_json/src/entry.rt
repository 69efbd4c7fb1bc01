//! An entry of a menu as JSON: its members are written one behind another, in the order of their keys.
ghost use Rattle.std.specs.Prelude.{◌≡◌, ◌++◌, OnOk, IfOk, map, true};
ghost use Rattle.std.specs.List.{list_all};
ghost use Rattle.std.specs.Option.{option_map_or};
ghost use Rattle.std.specs.Str.{is_utf8};
ghost use Rattle.json.specs.Token.{Token};
ghost use Rattle.list_json.specs.Faults.{TellsText};
ghost use Rattle.list_json.specs.Menus.{entry_data, id_member, is_told, joined_texts, source_member, texts_array, type_name};
ghost use Rattle.list_json.specs.Objects.{are_text, is_text, member_is_text};
ghost use Rattle.list_json.specs.Tokens.{CounterReads, ReadsBack, state_rows, data_tokens, end_rows, entry_rows, front_rows, middle_rows, put_row, put_rows, tries_rows};

use crate::fault::Untold;
use crate::member::{write_bytes, write_item, write_maybe, write_number, write_str};
use boot_base::{BootPath, Bytes};
use boot_entries::{join_texts, status_text, title};
use json::Writer;
use menu_order::{Counter, MenuItem, Suffix};
use std::alloc::{AllocError, Global};

/// Writes the object of an entry.
pub(crate) fn write_entry(alloc: Global, out: &mut Writer, entry: &MenuItem) -> Result<(), Untold>
    ensures tokens { OnOk result (out.new.tokens ≡ out.old.tokens ++ data_tokens (entry_data entry.now)) }
    ensures before { OnOk result (out.new.before ≡ out.old.before) }
    ensures text { TellsText result (is_told entry.now) }
    ensures reads { OnOk result (ReadsBack (entry_data entry.now)) }
{
    out.begin_object()?;
    write_members(alloc, out, entry)?;
    Ok(out.end_object()?)
}

// Writes what an entry has.
fn write_members(alloc: Global, out: &mut Writer, entry: &MenuItem) -> Result<(), Untold>
    ensures tokens { OnOk result (out.new.tokens ≡ put_rows out.old.tokens (entry_rows entry.now)) }
    ensures before { OnOk result (out.new.before ≡ out.old.before) }
    ensures text { TellsText result (are_text (entry_rows entry.now)) }
    ensures reads { OnOk result (CounterReads entry.now.counter) }
{
    write_front(alloc, out, entry)?;
    write_middle(alloc, out, entry)?;
    write_state(out, entry)?;
    write_tries(out, entry.counter)?;
    write_end(out, entry)
}

// From `efi` to `linux`.
#[tactic(auto, unfolding(crate::specs::Tokens::front_rows))]
fn write_front(alloc: Global, out: &mut Writer, entry: &MenuItem) -> Result<(), Untold>
    ensures tokens { OnOk result (out.new.tokens ≡ put_rows out.old.tokens (front_rows entry.now)) }
    ensures before { OnOk result (out.new.before ≡ out.old.before) }
    ensures text { TellsText result (are_text (front_rows entry.now)) }
{
    write_maybe(out, "efi", entry.efi.as_ref())?;
    write_id(alloc, out, entry)?;
    write_texts(out, "initrd", entry.initrds.as_slice())?;
    write_maybe(out, "linux", entry.linux.as_ref())
}

// The name of its file without a counter.
fn write_id(alloc: Global, out: &mut Writer, entry: &MenuItem) -> Result<(), Untold>
    ensures tokens { OnOk result (out.new.tokens ≡ put_row out.old.tokens (id_member entry.now)) }
    ensures before { OnOk result (out.new.before ≡ out.old.before) }
    ensures text { TellsText result (member_is_text (id_member entry.now)) }
{
    let mut id = entry.base.as_slice().to_vec(alloc)?;
    id.extend_from_slice(entry.suffix.as_str().as_bytes())?;
    write_bytes(out, "id", &id)
}

// From `machineId` to `source`.
#[tactic(auto, unfolding(crate::specs::Tokens::middle_rows))]
fn write_middle(alloc: Global, out: &mut Writer, entry: &MenuItem) -> Result<(), Untold>
    ensures tokens { OnOk result (out.new.tokens ≡ put_rows out.old.tokens (middle_rows entry.now)) }
    ensures before { OnOk result (out.new.before ≡ out.old.before) }
    ensures text { TellsText result (are_text (middle_rows entry.now)) }
{
    let options = joined_texts(alloc, entry.options.as_slice())?;
    write_maybe(out, "machineId", entry.machine_id.as_ref())?;
    write_maybe(out, "options", options.as_ref())?;
    write_maybe(out, "sortKey", entry.sort_key.as_ref())?;
    Ok(write_source(alloc, out, &entry.path)?)
}

// Where its file stands.
fn write_source(alloc: Global, out: &mut Writer, path: &BootPath) -> Result<(), AllocError>
    ensures tokens { OnOk result (out.new.tokens ≡ put_row out.old.tokens (source_member path.now)) }
    ensures before { OnOk result (out.new.before ≡ out.old.before) }
    ensures text { OnOk result (member_is_text (source_member path.now) ≡ true) }
{
    let source = format!(in alloc; "{path}")?;
    write_str(out, "source", source.as_str())
}

// How its boots went, and `title`.
#[tactic(auto, unfolding(crate::specs::Tokens::state_rows))]
fn write_state(out: &mut Writer, entry: &MenuItem) -> Result<(), Untold>
    ensures tokens { OnOk result (out.new.tokens ≡ put_rows out.old.tokens (state_rows entry.now)) }
    ensures before { OnOk result (out.new.before ≡ out.old.before) }
    ensures text { TellsText result (are_text (state_rows entry.now)) }
{
    write_str(out, "status", status_text(entry.counter))?;
    write_maybe(out, "title", title(entry))
}

// How many boots were tried, and how many are left.
#[tactic(auto, unfolding(crate::specs::Tokens::tries_rows))]
fn write_tries(out: &mut Writer, counter: Option<Counter>) -> Result<(), AllocError>
    ensures tokens { OnOk result (out.new.tokens ≡ put_rows out.old.tokens (tries_rows counter)) }
    ensures before { OnOk result (out.new.before ≡ out.old.before) }
    ensures text { OnOk result (are_text (tries_rows counter) ≡ true) }
    ensures reads { OnOk result (CounterReads counter) }
{
    match counter {
        None => Ok(()),
        Some(Counter { left, done }) => {
            write_number(out, "triesDone", u64::from(done))?;
            write_number(out, "triesLeft", u64::from(left))
        }
    }
}

// `type` and `version`.
#[tactic(auto, unfolding(crate::specs::Tokens::end_rows))]
fn write_end(out: &mut Writer, entry: &MenuItem) -> Result<(), Untold>
    ensures tokens { OnOk result (out.new.tokens ≡ put_rows out.old.tokens (end_rows entry.now)) }
    ensures before { OnOk result (out.new.before ≡ out.old.before) }
    ensures text { TellsText result (are_text (end_rows entry.now)) }
{
    write_str(out, "type", type_name(entry.suffix))?;
    write_maybe(out, "version", entry.version.as_ref())
}

// Texts as an array, if there are any.
fn write_texts(out: &mut Writer, key: &str, texts: &[Bytes]) -> Result<(), Untold>
    ensures tokens { OnOk result (out.new.tokens ≡ put_row out.old.tokens (key.now, texts_array texts.now)) }
    ensures before { OnOk result (out.new.before ≡ out.old.before) }
    ensures text { TellsText result (option_map_or is_text (texts_array texts.now) true) }
{
    if texts.is_empty() {
        return Ok(());
    }
    out.key(key)?;
    out.begin_array()?;
    write_items(out, texts)?;
    Ok(out.end_array()?)
}

// Each of the texts.
fn write_items(out: &mut Writer, texts: &[Bytes]) -> Result<(), Untold>
    ensures tokens { OnOk result (out.new.tokens ≡ out.old.tokens ++ map Token.string texts.now) }
    ensures before { OnOk result (out.new.before ≡ out.old.before) }
    ensures text { TellsText result (list_all is_utf8 texts.now) }
{
    for text in texts {
        write_item(out, text.as_slice())?;
    }
    Ok(())
}

// Texts with a space between each two, if there are any.
fn joined_texts(alloc: Global, texts: &[Bytes]) -> Result<Option<Bytes>, AllocError>
    ensures { IfOk result (λ joined. joined ≡ joined_texts texts.now) }
{
    let Some((first, later)) = texts.split_first() else {
        return Ok(None);
    };
    let joined = join_texts(alloc, first, later)?;
    Ok(Some(Bytes::from(joined)))
}

fn type_name(suffix: Suffix) -> &'static str
    ensures { result.now ≡ type_name suffix }
{
    match suffix {
        Suffix::Conf => "type1",
        Suffix::Efi => "type2",
    }
}
