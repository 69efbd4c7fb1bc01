//! The sections of an image as JSON.
ghost use Rattle.std.specs.Prelude.{◌≡◌, All, IfOk, map};
ghost use Rattle.pcr_values.specs.Prelude.{bank_of};
ghost use Rattle.pcr_values.specs.declared.bank.Bank.TheVariants as banks;
ghost use Rattle.serde_json.specs.View.{view};
ghost use Rattle.list_json.specs.Lines.{ReadsAs, json_line};
ghost use Rattle.list_json.specs.Sections.{facts_of, section_data, sections_data};

use crate::line::json_line;
use crate::object::{put_number, put_str};
use boot_base::{Bytes, shown_name};
use pcr_values::Digest;
use serde_json::{Map, Value};
use std::alloc::{AllocError, Global};

/// What an inspection tells of a section.
#[derive(Debug, Drop)]
pub struct Inspected {
    /// The bytes of its name.
    pub name: Bytes,
    /// How many bytes are loaded.
    pub size: u64,
    /// The SHA-256 digest of the loaded bytes.
    pub digest: Digest,
}

// The object of a section.
fn section_value(alloc: Global, section: &Inspected) -> Result<Value, AllocError>
    ensures { IfOk result (λ value. view value ≡ section_data (facts_of section.now)) }
{
    let name = shown_name(alloc, section.name.as_slice())?;
    let digest = hex::encode(alloc, section.digest.bytes())?;
    let mut members = Map::new(alloc);
    put_str(alloc, &mut members, "name", name.as_str())?;
    put_str(alloc, &mut members, "sha256", digest.as_str())?;
    put_number(alloc, &mut members, "size", Some(section.size))?;
    Ok(Value::Object(members))
}

/// The line of an inspection: an array of the sections in order. Want of memory is its one fault.
pub fn inspect_json(alloc: Global, sections: &[Inspected]) -> Result<Vec<u8>, AllocError>
    requires sha256 { All (λ section. bank_of section.digest ≡ banks.Sha256) sections.now }
    ensures line { IfOk result (λ line. line.items ≡ json_line (sections_data (map facts_of sections.now))) }
    ensures reads { IfOk result (λ line. ReadsAs line.items (sections_data (map facts_of sections.now))) }
{
    let mut values = Vec::new(alloc);
    for section in sections {
        values.push(section_value(alloc, section)?)?;
    }
    json_line(alloc, Value::Array(values))
}
