//! The members of an object, which may be absent.
ghost use Rattle.std.specs.Prelude.{◌≡◌, OnOk, Some, option_map};
ghost use Rattle.serde_json.specs.Data.{string};
ghost use Rattle.serde_json.specs.View.{members_view, view};
ghost use Rattle.list_json.specs.Menus.{number_data};
ghost use Rattle.list_json.specs.Objects.{put_some};

use serde_json::{Map, Value, put};
use std::alloc::{AllocError, Global};

/// Puts a member into an object, if it has a value.
pub(crate) fn put_some(
    alloc: Global,
    members: &mut Map<String, Value>,
    key: &str,
    value: Option<Value>,
) -> Result<(), AllocError>
    ensures { OnOk result (members_view members.new.entries
        ≡ put_some (members_view members.old.entries) (key.now, option_map view value)) }
{
    match value {
        Some(value) => put(members, alloc, key, value),
        None => Ok(()),
    }
}

/// Puts a number into an object, if there is one.
pub(crate) fn put_number(
    alloc: Global,
    members: &mut Map<String, Value>,
    key: &str,
    number: Option<u64>,
) -> Result<(), AllocError>
    ensures { OnOk result (members_view members.new.entries
        ≡ put_some (members_view members.old.entries) (key.now, option_map number_data number)) }
{
    put_some(alloc, members, key, number.map(Value::from))
}

/// Puts a text into an object.
pub(crate) fn put_str(
    alloc: Global,
    members: &mut Map<String, Value>,
    key: &str,
    text: &str,
) -> Result<(), AllocError>
    ensures { OnOk result (members_view members.new.entries
        ≡ put_some (members_view members.old.entries) (key.now, Some (string text.now))) }
{
    let value = Value::try_from_str(alloc, text)?;
    put(members, alloc, key, value)
}
