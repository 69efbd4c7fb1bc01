//! A menu as JSON, written entry by entry into its line.
ghost use Rattle.std.specs.Prelude.{◌≡◌, IfOk, IfErr, OnOk, None, find};
ghost use Rattle.list_json.specs.Faults.{IsCause};
ghost use Rattle.list_json.specs.Lines.{ReadsAs, json_line};
ghost use Rattle.list_json.specs.Menus.{is_untold, menu_data};

use crate::entry::write_entry;
use crate::fault::{JsonFault, Untold};
use json::Writer;
use menu_order::MenuItem;
use std::alloc::Global;

/// The line of a menu: an array of its entries in order, each an object of the values that it has. Its faults are want
/// of memory, and the first entry with a value that isn't UTF-8.
pub fn menu_json(alloc: Global, entries: &[MenuItem]) -> Result<Vec<u8>, JsonFault>
    ensures line { IfOk result (λ line. line.items ≡ json_line (menu_data entries.now)) }
    ensures reads { IfOk result (λ line. ReadsAs line.items (menu_data entries.now)) }
    ensures told { OnOk result (find is_untold entries.now ≡ None) }
    ensures untold { IfErr result (IsCause entries.now) }
{
    let mut out = Writer::new(Vec::new(alloc));
    out.begin_array()?;
    for (index, entry) in entries.iter().enumerate() {
        match write_entry(alloc, &mut out, entry) {
            Ok(()) => {}
            Err(Untold::Memory) => return Err(JsonFault::Memory),
            Err(Untold::NotText) => return Err(JsonFault::NotText { index }),
        }
    }
    out.end_array()?;
    let mut line = out.into_inner();
    line.push(b'\n')?;
    Ok(line)
}
