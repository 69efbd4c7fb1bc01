//! The search for a part whose name is taken.

ghost use Rattle.std.specs.Prelude.{◌≡◌, [], IfOk};
ghost use Rattle.std.specs.List.{list_any};
ghost use Rattle.pe_reader.specs.Prelude.{is_named};
ghost use Rattle.pe_builder.specs.Refusals.{first_taken};

use crate::fault::LayoutFault;
use crate::size::PartSize;
use pe_reader::Section;
use std::alloc::{AllocError, Global};
use std::collections::BTreeSet;

// Whether a section has the name.
fn is_section(sections: &[Section], name: &[u8]) -> bool
    ensures { result ≡ list_any (is_named name.now) sections.now }
{
    sections.iter().any(|section| section.is_named(name))
}

/// The first part whose name is taken. A set tells which names earlier parts have, so that many parts take no time that
/// grows with their square.
///
/// # Errors
///
/// Only where there is no memory for the set.
pub fn find_taken(
    alloc: Global,
    sections: &[Section],
    parts: &[PartSize],
) -> Result<Option<LayoutFault>, AllocError>
    ensures { IfOk result (λ found. found ≡ first_taken sections.now [] parts.now) }
{
    let mut names = BTreeSet::new(alloc);
    for part in parts {
        let name = part.name.bytes();
        let is_new = names.insert(name)?;
        if !is_new || is_section(sections, name) {
            return Ok(Some(LayoutFault::SectionTwice { name: part.name }));
        }
    }
    Ok(None)
}
