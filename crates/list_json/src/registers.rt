//! Values of PCR 11 as JSON.
ghost use Rattle.std.specs.Prelude.{◌≡◌, ◌++◌, ℕ, List, map, IfOk, OnOk};
ghost use Rattle.serde_json.specs.View.{members_view, view};
ghost use Rattle.pcr_values.specs.Prelude.{bank_name, extend_all, fold_of, fold_pcr, HasDistinctPaths, HasDistinctBanks, pcr_bank, pcr_bytes, pcr_value};
ghost use Rattle.pcr_values.specs.declared.bank.Bank.{Bank};
ghost use Rattle.list_json.specs.Lines.{ReadsAs, json_line};
ghost use Rattle.list_json.specs.Objects.{put_some};
ghost use Rattle.list_json.specs.Registers.{bank_member, registers_data, value_data, values_data};

use crate::line::json_line;
use crate::object::{put_number, put_str};
use pcr_values::{Pcr, PhasePath, after_phases};
use serde_json::{Map, Value, put};
use std::alloc::{AllocError, Global};

// The object of a register's value after a path.
fn value_of(alloc: Global, pcr: &Pcr, path: &PhasePath) -> Result<Value, AllocError>
    ensures { IfOk result (λ value. view value ≡ value_data path.now (pcr_bytes pcr.now)) }
{
    let hash = hex::encode(alloc, pcr.bytes())?;
    let phase = format!(in alloc; "{path}")?;
    let mut members = Map::new(alloc);
    put_str(alloc, &mut members, "hash", hash.as_str())?;
    put_number(alloc, &mut members, "pcr", Some(11))?;
    put_str(alloc, &mut members, "phase", phase.as_str())?;
    Ok(Value::Object(members))
}

// Puts a register's values after each path under its bank's name.
fn put_bank(
    alloc: Global,
    members: &mut Map<String, Value>,
    start: Pcr,
    paths: &[PhasePath],
) -> Result<(), AllocError>
    ensures { OnOk result (members_view members.new.entries
        ≡ put_some (members_view members.old.entries)
        (bank_member (extend_all (pcr_bank start) (pcr_bytes start)) (bank_name (pcr_bank start)) paths.now)) }
{
    let mut values = Vec::new(alloc);
    for path in paths {
        values.push(value_of(alloc, &after_phases(start, path), path)?)?;
    }
    put(members, alloc, start.bank().name(), Value::Array(values))
}

/// The line of registers, which are of different banks: an object with a member for each, and in it for each path the
/// register's value after the path's words. If the items of a register's bank have extended it from the start, then its
/// value is that of those items and the path's words. Want of memory is the one fault.
pub fn pcr_json(alloc: Global, starts: &[Pcr], paths: &[PhasePath]) -> Result<Vec<u8>, AllocError>
    requires banks { HasDistinctBanks starts.now }
    requires paths { HasDistinctPaths paths.now }
    ensures line { IfOk result (λ line. line.items ≡ json_line (registers_data starts.now paths.now)) }
    ensures reads { IfOk result (λ line. ReadsAs line.items (registers_data starts.now paths.now)) }
    ensures folds { IfOk result (λ line. (items : Bank → List (List ℕ)) (banks : List Bank)
        → map pcr_value starts.now ≡ map (λ bank. fold_pcr (items bank) bank) banks
        → line.items ≡ json_line (values_data (λ bank path. fold_of bank (items bank ++ path)) banks paths.now)) }
{
    let mut members = Map::new(alloc);
    for start in starts {
        put_bank(alloc, &mut members, *start, paths)?;
    }
    json_line(alloc, Value::Object(members))
}
