//! The lines that predict PCR 11.
ghost use Rattle.std.specs.Prelude.{◌≡◌, ◌++◌, ℕ, List, map, IfOk, OnOk, OnErr, flat_map};
ghost use Rattle.pcr_values.specs.Prelude.{fold_of, fold_pcr, pcr_bank, pcr_bytes, pcr_value, HasDistinctPaths};
ghost use Rattle.pcr_values.specs.declared.bank.Bank.{Bank};
ghost use Rattle.pcr_values.specs.ValueLines.{
  HasDistinctBanks,
  heading_of,
  line_after,
  register_lines,
  value_line,
  value_lines,
};

use crate::pcr::Pcr;
use crate::phase_path::{PhasePath, after_phases};
use std::alloc::{AllocError, Global};

/// Appends the path's heading, `# PCR[11] Phase <PATH>` and a newline: its words joined by colons,
/// and `:` for the path without words. After want of memory `out` is as it was.
#[tactic(auto, unfolding(crate::specs::ValueLines::heading_of))]
pub fn append_heading(out: &mut Vec<u8>, path: &PhasePath) -> Result<(), AllocError>
    ensures ok { OnOk result (out.new.items ≡ out.old.items ++ heading_of path.now) }
    ensures err { OnErr result (out.new.items ≡ out.old.items) }
{
    let heading = format!(in *out.allocator(); "# PCR[11] Phase <{path}>\n")?;
    out.extend_from_slice(heading.as_bytes())
}

/// Appends the register's value, `11:NAME=HEX` and a newline: its bank's name, and its bytes in
/// lower-case hex. After want of memory `out` is as it was.
#[tactic(auto, unfolding(crate::specs::ValueLines::value_line))]
pub fn append_value(alloc: Global, out: &mut Vec<u8>, pcr: &Pcr) -> Result<(), AllocError>
    ensures ok { OnOk result (out.new.items ≡ out.old.items ++ value_line (pcr_bank pcr.now) (pcr_bytes pcr.now)) }
    ensures err { OnErr result (out.new.items ≡ out.old.items) }
{
    let name = pcr.bank().name();
    let hex = hex::encode(alloc, pcr.bytes())?;
    let line = format!(in alloc; "11:{name}={hex}\n")?;
    out.extend_from_slice(line.as_bytes())
}

// Appends the path's heading, and below it the value of each register after the path's words.
fn append_lines(
    alloc: Global,
    out: &mut Vec<u8>,
    starts: &[Pcr],
    path: &PhasePath,
) -> Result<(), AllocError>
    ensures { OnOk result (out.new.items
        ≡ out.old.items ++ (heading_of path.now ++ flat_map (line_after path.now) starts.now)) }
{
    append_heading(out, path)?;
    for start in starts {
        append_value(alloc, out, &after_phases(*start, path))?;
    }
    Ok(())
}

/// The lines of registers, which are of different banks: for each path its heading, and below it a
/// value for each register after the path's words. If the items of a register's bank have extended
/// it from the start, then its value is that of those items and the path's words.
pub fn result_lines(
    alloc: Global,
    starts: &[Pcr],
    paths: &[PhasePath],
) -> Result<Vec<u8>, AllocError>
    requires banks { HasDistinctBanks starts.now }
    requires paths { HasDistinctPaths paths.now }
    ensures lines { IfOk result (λ lines. lines.items ≡ register_lines starts.now paths.now) }
    ensures folds { IfOk result (λ lines. (items : Bank → List (List ℕ)) (banks : List Bank)
        → map pcr_value starts.now ≡ map (λ bank. fold_pcr (items bank) bank) banks
        → lines.items ≡ value_lines (λ bank path. fold_of bank (items bank ++ path)) banks paths.now) }
{
    let mut out = Vec::new(alloc);
    for path in paths {
        append_lines(alloc, &mut out, starts, path)?;
    }
    Ok(out)
}
