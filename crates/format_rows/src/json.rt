//! Sections as JSON.
ghost use Rattle.std.specs.Prelude.{◌≡◌, All, IfOk};
ghost use Rattle.pcr_values.specs.Prelude.{bank_of};
ghost use Rattle.pcr_values.specs.declared.bank.Bank.TheVariants.{Sha256};

use crate::fault::RowFault;
use crate::words::{bytes_of, number, quote_bytes, split_at_mark};
use boot_base::Bytes;
use list_json::{Inspected, inspect_json};
use pcr_values::{Bank, Digest};
use std::alloc::Global;

// A section of that name and size, with the digest of these bytes.
fn section_of(alloc: Global, text: &str) -> Result<Inspected, RowFault>
    ensures { IfOk result (λ section. bank_of section.digest ≡ Sha256) }
{
    let (name, rest) = split_at_mark(text, ':')?;
    let (size, content) = split_at_mark(rest, ':')?;
    let name = bytes_of(alloc, name)?;
    let size = number(size)?;
    let digest = Digest::of(Bank::Sha256, &bytes_of(alloc, content)?);
    Ok(Inspected {
        name: Bytes::from(name),
        size,
        digest,
    })
}

fn sections_of(alloc: Global, rest: &str) -> Result<Vec<Inspected>, RowFault>
    ensures { IfOk result (λ sections. All (λ section. bank_of section.digest ≡ Sha256) sections.items) }
{
    let mut sections = Vec::new(alloc);
    for word in rest.split_whitespace() {
        sections.push(section_of(alloc, word)?)?;
    }
    Ok(sections)
}

/// The JSON of these sections.
pub(crate) fn sections_text(alloc: Global, rest: &str) -> Result<String, RowFault> {
    let sections = sections_of(alloc, rest)?;
    let line = inspect_json(alloc, &sections)?;
    Ok(quote_bytes(alloc, &line)?)
}
