//! The payloads that no entry names.
ghost use Rattle.std.specs.Prelude.{◌≡◌, ◌++◌, All, Contains, IfOk, OnOk, bytes_eq, filter, map, not, filter_map, flat_map, option_to_list};
ghost use Rattle.std.specs.List.{list_any};
ghost use Rattle.std.specs.List.Sorted.{IsStrictlySortedBy};
ghost use Rattle.boot_base.specs.Paths.{Path, under};
ghost use Rattle.boot_machine.specs.Prelude.{path_cmp};
ghost use Rattle.boot_texts.specs.EntryText.{is_payload_name};
ghost use Rattle.type1_install.specs.Payloads.{HasRoom, path_of_value};
ghost use Rattle.type1_install.specs.Unnamed.{paths_named_by, unnamed_among};

use crate::place::payload_path;
use boot_base::{BootPath, Bytes, FileName, PathFault};
use boot_texts::is_payload_name;
use menu_order::MenuItem;
use std::alloc::{AllocError, Global};
use std::str;

// Puts the path behind the others that a value names below the ESP, if it names one.
fn add_value(
    alloc: Global,
    esp: &BootPath,
    value: &Bytes,
    named: &mut Vec<BootPath>,
) -> Result<(), AllocError>
    ensures { OnOk result (named.new.items ≡ named.old.items ++ option_to_list (path_of_value esp.now value.now)) }
{
    let Ok(below) = str::from_utf8(value.as_slice()) else {
        return Ok(());
    };
    match BootPath::under(alloc, esp, below) {
        Ok(path) => Ok(named.push(path)?),
        Err(PathFault::BadPath) => Ok(()),
        Err(PathFault::Memory) => Err(AllocError),
    }
}

fn add_given(
    alloc: Global,
    esp: &BootPath,
    value: &Option<Bytes>,
    named: &mut Vec<BootPath>,
) -> Result<(), AllocError>
    ensures { OnOk result (named.new.items ≡ named.old.items
        ++ filter_map (path_of_value esp.now) (option_to_list value.now)) }
{
    match value {
        Some(value) => add_value(alloc, esp, value, named),
        None => Ok(()),
    }
}

fn add_values(
    alloc: Global,
    esp: &BootPath,
    values: &[Bytes],
    named: &mut Vec<BootPath>,
) -> Result<(), AllocError>
    ensures { OnOk result (named.new.items ≡ named.old.items ++ filter_map (path_of_value esp.now) values.now) }
{
    for value in values {
        add_value(alloc, esp, value, named)?;
    }
    Ok(())
}

fn add_item(
    alloc: Global,
    esp: &BootPath,
    item: &MenuItem,
    named: &mut Vec<BootPath>,
) -> Result<(), AllocError>
    ensures { OnOk result (named.new.items ≡ named.old.items ++ paths_named_by esp.now item.now) }
{
    add_given(alloc, esp, &item.linux, named)?;
    add_given(alloc, esp, &item.efi, named)?;
    add_values(alloc, esp, item.initrds.as_slice(), named)
}

// The paths below the ESP that these entries name.
fn named_paths(
    alloc: Global,
    esp: &BootPath,
    items: &[MenuItem],
) -> Result<Vec<BootPath>, AllocError>
    ensures { IfOk result (λ named. named.items ≡ flat_map (paths_named_by esp.now) items.now) }
{
    let mut named = Vec::new(alloc);
    for item in items {
        add_item(alloc, esp, item, &mut named)?;
    }
    Ok(named)
}

fn is_among(named: &[BootPath], path: &BootPath) -> bool
    ensures { result ≡ list_any (λ other. bytes_eq other path.now) named.now }
{
    named.iter().any(|other| other.as_str() == path.as_str())
}

// The paths of the payloads among the files of these names in a folder.
fn payload_paths(
    alloc: Global,
    folder: &BootPath,
    names: &[FileName],
) -> Result<Vec<BootPath>, AllocError>
    requires room { HasRoom folder.now }
    ensures { IfOk result (λ paths. paths.items ≡ map (under folder.now) (filter is_payload_name names.now)) }
{
    let mut paths = Vec::new(alloc);
    for name in names {
        if is_payload_name(name.as_str().as_bytes()) {
            let path = payload_path(alloc, folder, name.as_str())?;
            paths.push(path)?;
        }
    }
    Ok(paths)
}

// The paths that aren't among the others.
fn paths_without(mut paths: Vec<BootPath>, named: &[BootPath]) -> Vec<BootPath>
    ensures { result.items ≡ filter (λ path. not (list_any (λ other. bytes_eq other path) named.now)) paths.items }
{
    paths.retain(|path| !is_among(named, path));
    paths
}

// Sorts the paths in ascending order, and leaves each once.
fn in_order(mut paths: Vec<BootPath>) -> Vec<BootPath>
    ensures sorted { IsStrictlySortedBy path_cmp result.items }
    ensures among { (path : Path) → Contains result.items path → Contains paths.items path }
    ensures all { (path : Path) → Contains paths.items path → Contains result.items path }
{
    paths.sort_unstable();
    paths.dedup();
    paths
}

/// Of the files of these names in the folder of payloads the paths of those that are payloads and that none of the
/// entries names, ascending and each once.
pub(crate) fn unnamed(
    alloc: Global,
    esp: &BootPath,
    folder: &BootPath,
    items: &[MenuItem],
    names: &[FileName],
) -> Result<Vec<BootPath>, AllocError>
    requires room { HasRoom folder.now }
    ensures sorted { IfOk result (λ paths. IsStrictlySortedBy path_cmp paths.items) }
    ensures among { IfOk result (λ paths. (path : Path) → Contains paths.items path
        → Contains (unnamed_among esp.now folder.now items.now names.now) path) }
    ensures all { IfOk result (λ paths. (path : Path)
        → Contains (unnamed_among esp.now folder.now items.now names.now) path → Contains paths.items path) }
{
    let named = named_paths(alloc, esp, items)?;
    let paths = payload_paths(alloc, folder, names)?;
    Ok(in_order(paths_without(paths, &named)))
}
