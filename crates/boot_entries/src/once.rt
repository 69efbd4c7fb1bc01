//! Names that stand once, and entries with paths of their own, in the order of the menu.
ghost use Rattle.std.specs.Prelude.{◌≡◌, ℕ, List, AllPairs, Contains, IfOk, IsPermutation, OnOk, bytes_eq, IsSorted};
ghost use Rattle.std.specs.List.{IsDistinct};
ghost use Rattle.boot_entries.specs.Scanning.{path_order};
ghost use Rattle.boot_machine.specs.Prelude.{path_cmp};
ghost use Rattle.menu_order.specs.Menu.{HaveOwnPaths, IsBefore};
ghost use Rattle.menu_order.specs.declared.item.MenuItem.{MenuItem};

use boot_base::FileName;
use menu_order::{MenuItem, sort_menu};
use std::alloc::{AllocError, Global};

/// The names, each once. No machine that tells its files gives a name twice, but another may.
pub(crate) fn each_name_once(mut names: Vec<FileName>) -> Result<Vec<FileName>, AllocError>
    ensures distinct { IfOk result (λ once. IsDistinct bytes_eq once.items) }
    ensures among { IfOk result (λ once. (name : List ℕ) → Contains once.items name → Contains names.items name) }
    ensures all { IfOk result (λ once. (name : List ℕ) → Contains names.items name → Contains once.items name) }
{
    sort_names(&mut names)?;
    names.dedup_by(|a, b| a.as_str() == b.as_str());
    Ok(names)
}

// Puts the names in the order of their bytes.
fn sort_names(names: &mut Vec<FileName>) -> Result<(), AllocError>
    ensures same { IsPermutation names.old.items names.new.items }
    ensures sorted { OnOk result (IsSorted path_cmp names.new.items) }
{
    names.sort_by(|a, b| a.as_str().cmp(b.as_str()))
}

/// The menu of these entries. Where several have one path, as no machine gives them that tells its files, one counts.
pub(crate) fn menu_of(alloc: Global, items: Vec<MenuItem>) -> Result<Vec<MenuItem>, AllocError>
    ensures own_paths { IfOk result (λ menu. HaveOwnPaths menu.items) }
    ensures ordered { IfOk result (λ menu. AllPairs IsBefore menu.items) }
    ensures among { IfOk result (λ menu. (item : MenuItem) → Contains menu.items item → Contains items.items item) }
    ensures all { IfOk result (λ menu. (item : MenuItem) → Contains items.items item
        → (other : MenuItem) × Contains menu.items other × (other.path ≡ item.path)) }
{
    let once = each_path_once(items)?;
    sort_menu(alloc, once)
}

// One entry of each path among these.
fn each_path_once(mut items: Vec<MenuItem>) -> Result<Vec<MenuItem>, AllocError>
    ensures own_paths { IfOk result (λ once. HaveOwnPaths once.items) }
    ensures among { IfOk result (λ once. (item : MenuItem) → Contains once.items item → Contains items.items item) }
    ensures all { IfOk result (λ once. (item : MenuItem) → Contains items.items item
        → (other : MenuItem) × Contains once.items other × (other.path ≡ item.path)) }
{
    sort_by_path(&mut items)?;
    items.dedup_by(|a, b| a.path.as_str() == b.path.as_str());
    Ok(items)
}

// Puts the entries in the order of their paths.
fn sort_by_path(items: &mut Vec<MenuItem>) -> Result<(), AllocError>
    ensures same { IsPermutation items.old.items items.new.items }
    ensures sorted { OnOk result (IsSorted path_order items.new.items) }
{
    items.sort_by(|a, b| a.path.as_str().cmp(b.path.as_str()))
}
