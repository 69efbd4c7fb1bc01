//! The line of a value.
ghost use Rattle.std.specs.Prelude.{◌≡◌, ◌≤◌, IfOk, false};
ghost use Rattle.serde_json.specs.Data.{depth};
ghost use Rattle.serde_json.specs.Read.{max_depth};
ghost use Rattle.serde_json.specs.View.{view};
ghost use Rattle.serde_json.specs.Written.{has_float};
ghost use Rattle.list_json.specs.Lines.{ReadsAs, json_line};

use serde_json::Value;
use std::alloc::{AllocError, Global};

/// The line of a value that has no float and nests no deeper than a reader goes. Want of memory is its one fault.
pub(crate) fn json_line(alloc: Global, value: Value) -> Result<Vec<u8>, AllocError>
    requires whole { has_float (view value) ≡ false }
    requires shallow { depth (view value) ≤ max_depth }
    ensures line { IfOk result (λ line. line.items ≡ json_line (view value)) }
    ensures reads { IfOk result (λ line. ReadsAs line.items (view value)) }
{
    let text = value.to_vec(alloc);
    drop(value);
    let mut line = text?;
    line.push(b'\n')?;
    Ok(line)
}
