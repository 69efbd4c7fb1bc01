//! Sections and values of PCR 11 as they are told: in lines, or as JSON.
ghost use Rattle.std.specs.Prelude.{◌≡◌, ◌++◌, ℕ, All, List, OnOk, codes, map, IfOk, false, decimal};
ghost use Rattle.pcr_values.specs.Prelude.{fold_of, fold_pcr, HasDistinctPaths, HasDistinctBanks, bank_of, bytes_of_digest, pcr_value};
ghost use Rattle.pcr_values.specs.declared.bank.Bank.{Bank};
ghost use Rattle.pcr_values.specs.declared.bank.Bank.TheVariants as banks;
ghost use Rattle.list_json.specs.Sections.{facts_of};
ghost use Rattle.command_plans.specs.Prelude.{printed_path};
ghost use Rattle.image_commands.specs.Told.{first_line, measures, section_lines, told_sections, told_values};

use boot_base::{BootPath, shown_name};
use list_json::{Inspected, inspect_json, pcr_json};
use pcr_values::{Digest, Pcr, PhasePath, result_lines};
use std::alloc::{AllocError, Global};

// What is printed behind a section's name.
fn measures(alloc: Global, size: u64, digest: &Digest) -> Result<Vec<u8>, AllocError>
    ensures { IfOk result (λ lines. lines.items ≡ measures size (bytes_of_digest digest.now)) }
{
    let digest = hex::encode(alloc, digest.bytes())?;
    let lines = format!(in alloc; ":\n  size: {size} bytes\n  sha256: {digest}\n")?;
    Ok(lines.into_bytes())
}

// Puts the lines of a section behind `out`.
fn append_section(alloc: Global, out: &mut Vec<u8>, section: &Inspected) -> Result<(), AllocError>
    ensures { OnOk result (out.new.items ≡ out.old.items ++ section_lines (facts_of section.now)) }
{
    let name = shown_name(alloc, section.name.as_slice())?;
    let lines = measures(alloc, section.size, &section.digest)?;
    out.extend_from_slice(name.as_bytes())?;
    out.extend_from_slice(lines.as_slice())
}

// The path, and how many sections there are.
fn first_line(alloc: Global, path: &BootPath, count: usize) -> Result<Vec<u8>, AllocError>
    ensures { IfOk result (λ line. line.items ≡ first_line path.now count) }
{
    let line = format!(in alloc; "{path}: {count} sections\n")?;
    Ok(line.into_bytes())
}

// The first line, and those of each section.
fn inspection_lines(
    alloc: Global,
    path: &BootPath,
    sections: &[Inspected],
) -> Result<Vec<u8>, AllocError>
    ensures { IfOk result (λ text. text.items ≡ told_sections false path.now (map facts_of sections.now)) }
{
    let mut text = first_line(alloc, path, sections.len())?;
    for section in sections {
        append_section(alloc, &mut text, section)?;
    }
    Ok(text)
}

/// The sections of the image at a path, in lines or as JSON.
pub(crate) fn told_sections(
    alloc: Global,
    path: &BootPath,
    sections: &[Inspected],
    json: bool,
) -> Result<Vec<u8>, AllocError>
    requires sha256 { All (λ section. bank_of section.digest ≡ banks.Sha256) sections.now }
    ensures { IfOk result (λ text. text.items ≡ told_sections json path.now (map facts_of sections.now)) }
{
    if json {
        inspect_json(alloc, sections)
    } else {
        inspection_lines(alloc, path, sections)
    }
}

/// The values of registers after each path, in lines or as JSON.
pub(crate) fn told_values(
    alloc: Global,
    starts: &[Pcr],
    paths: &[PhasePath],
    json: bool,
) -> Result<Vec<u8>, AllocError>
    requires banks { HasDistinctBanks starts.now }
    requires paths { HasDistinctPaths paths.now }
    ensures { IfOk result (λ text. (items : Bank → List (List ℕ)) (banks : List Bank)
        → map pcr_value starts.now ≡ map (λ bank. fold_pcr (items bank) bank) banks
        → text.items ≡ told_values json (λ bank path. fold_of bank (items bank ++ path)) banks paths.now) }
{
    if json {
        pcr_json(alloc, starts, paths)
    } else {
        result_lines(alloc, starts, paths)
    }
}
