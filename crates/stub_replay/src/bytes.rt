//! The register after a stub has measured an image whose bytes are in memory: the plain form of `replay_all`, which no
//! command calls.
ghost use Rattle.std.specs.Prelude.{◌≡◌, ◌+◌, ◌<◌, ◌^◌, Ok, IfOk};
ghost use Rattle.pe_reader.specs.Prelude.{pe_of, loaded_bytes, bytes_in, headers_of};
ghost use Rattle.pcr_values.specs.Prelude.{extend_all, fold_of, pcr_bank, pcr_bytes};
ghost use Rattle.stub_replay.specs.Measured.{section_items, measured_list};

use crate::measured::{after_name, measured_names};
use pcr_values::{Bank, Pcr};
use pe_reader::{LoadedRange, Pe, part};
use std::alloc::{AllocError, Global};

/// The register after a stub has measured the image with these bytes, before any word of a phase path. `head`
/// is what the bytes read as.
///
/// # Errors
///
/// Only where there is no memory for the loaded bytes of a section.
#[tactic(auto, unfolding(crate::specs::Measured::measured_by))]
pub fn replay_bytes(alloc: Global, bytes: &[u8], head: &Pe, bank: Bank) -> Result<Pcr, AllocError>
    requires { pe_of bytes.now ≡ Ok (headers_of head.now) }
    ensures bank { IfOk result (λ pcr. pcr_bank pcr ≡ bank) }
    ensures value { IfOk result (λ pcr. pcr_bytes pcr ≡ fold_of bank (measured_list bytes.now)) }
{
    let mut pcr = Pcr::zero(bank);
    for name in measured_names() {
        pcr = after_section(alloc, pcr, bytes, head, name)?;
    }
    Ok(pcr)
}

// The register after the section of that name.
fn after_section(
    alloc: Global,
    pcr: Pcr,
    bytes: &[u8],
    head: &Pe,
    name: &[u8],
) -> Result<Pcr, AllocError>
    requires { pe_of bytes.now ≡ Ok (headers_of head.now) }
    ensures bank { IfOk result (λ after. pcr_bank after ≡ pcr_bank pcr) }
    ensures value { IfOk result (λ after. pcr_bytes after
        ≡ extend_all (pcr_bank pcr) (pcr_bytes pcr) (section_items name.now (loaded_bytes bytes.now name.now))) }
{
    let content = loaded_bytes(alloc, bytes, head, name)?;
    Ok(after_content(pcr, name, &content))
}

// The register after a section of that name with this content.
#[tactic(auto, unfolding(crate::specs::Measured::section_items))]
fn after_content(pcr: Pcr, name: &[u8], content: &[u8]) -> Pcr
    ensures bank { pcr_bank result ≡ pcr_bank pcr }
    ensures value { pcr_bytes result ≡ extend_all (pcr_bank pcr) (pcr_bytes pcr)
        (section_items name.now content.now) }
{
    if content.is_empty() {
        return pcr;
    }
    after_name(pcr, name).extend_data(content)
}

// The loaded bytes of the first section of that name, none where there is no such section.
fn loaded_bytes(alloc: Global, bytes: &[u8], head: &Pe, name: &[u8]) -> Result<Vec<u8>, AllocError>
    requires { pe_of bytes.now ≡ Ok (headers_of head.now) }
    ensures { IfOk result (λ content. content.items ≡ loaded_bytes bytes.now name.now) }
{
    match head.find(name) {
        None => Ok(Vec::new(alloc)),
        Some(index) => bytes_in(alloc, bytes, head.loaded_range(index)),
    }
}

// The bytes of a range of a file, with its zeros.
fn bytes_in(alloc: Global, bytes: &[u8], range: LoadedRange) -> Result<Vec<u8>, AllocError>
    requires place { range.place < 2 ^ 32 }
    requires size { range.length + range.zeros < 2 ^ 32 }
    ensures { IfOk result (λ content. content.items ≡ bytes_in bytes.now range) }
{
    let raw = part(bytes, range.place as usize, range.length as usize);
    let mut content = Vec::from_slice(alloc, raw)?;
    content.resize(content.len() + range.zeros as usize, 0)?;
    Ok(content)
}
