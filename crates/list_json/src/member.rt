//! The members of an object, written one behind another.
ghost use Rattle.std.specs.Prelude.{◌≡◌, [], ◌∷◌, ◌++◌, OnOk, Some, option_map, option_copied, true};
ghost use Rattle.std.specs.Str.{is_utf8};
ghost use Rattle.json.specs.Token.{Token};
ghost use Rattle.serde_json.specs.Data.{string};
ghost use Rattle.list_json.specs.Faults.{TellsText};
ghost use Rattle.list_json.specs.Menus.{number_data};
ghost use Rattle.list_json.specs.Objects.{is_text, member_is_text};
ghost use Rattle.list_json.specs.Tokens.{ReadsBack, put_row};

use crate::fault::Untold;
use boot_base::Bytes;
use json::Writer;
use std::alloc::AllocError;
use std::str;

/// Writes a member that is a text.
pub(crate) fn write_str(out: &mut Writer, key: &str, text: &str) -> Result<(), AllocError>
    ensures tokens { OnOk result (out.new.tokens ≡ put_row out.old.tokens (key.now, Some (string text.now))) }
    ensures before { OnOk result (out.new.before ≡ out.old.before) }
    ensures text { is_text (string text.now) ≡ true }
{
    out.key(key)?;
    out.string(text)
}

/// Writes a member that is a number.
pub(crate) fn write_number(out: &mut Writer, key: &str, number: u64) -> Result<(), AllocError>
    ensures tokens { OnOk result (out.new.tokens ≡ put_row out.old.tokens (key.now, Some (number_data number))) }
    ensures before { OnOk result (out.new.before ≡ out.old.before) }
    ensures reads { ReadsBack (number_data number) }
{
    out.key(key)?;
    out.u64(number)
}

/// Writes bytes as a text that is no member.
pub(crate) fn write_item(out: &mut Writer, bytes: &[u8]) -> Result<(), Untold>
    ensures tokens { OnOk result (out.new.tokens ≡ out.old.tokens ++ Token.string bytes.now ∷ []) }
    ensures before { OnOk result (out.new.before ≡ out.old.before) }
    ensures text { TellsText result (is_utf8 bytes.now) }
{
    let Ok(text) = str::from_utf8(bytes) else {
        return Err(Untold::NotText);
    };
    Ok(out.string(text)?)
}

/// Writes a member that is a text of these bytes.
pub(crate) fn write_bytes(out: &mut Writer, key: &str, bytes: &[u8]) -> Result<(), Untold>
    ensures tokens { OnOk result (out.new.tokens ≡ put_row out.old.tokens (key.now, Some (string bytes.now))) }
    ensures before { OnOk result (out.new.before ≡ out.old.before) }
    ensures text { TellsText result (is_text (string bytes.now)) }
{
    out.key(key)?;
    write_item(out, bytes)
}

/// Writes a member that is a text of these bytes, if there are any.
pub(crate) fn write_maybe(out: &mut Writer, key: &str, bytes: Option<&Bytes>) -> Result<(), Untold>
    ensures tokens { OnOk result (out.new.tokens
        ≡ put_row out.old.tokens (key.now, option_map string (option_copied bytes.entry))) }
    ensures before { OnOk result (out.new.before ≡ out.old.before) }
    ensures text { TellsText result (member_is_text (key.now, option_map string (option_copied bytes.entry))) }
{
    match bytes {
        Some(bytes) => write_bytes(out, key, bytes.as_slice()),
        None => Ok(()),
    }
}
