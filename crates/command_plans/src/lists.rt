//! Lists that grow, and lists without what is there twice.
ghost use Rattle.std.specs.Prelude.{◌≡◌, ◌++◌, ◌∷◌, [], Contains, OnOk, bytes_eq};
ghost use Rattle.std.specs.List.{IsDistinct};
ghost use Rattle.boot_base.specs.Paths.{Path};

use boot_base::TempPath;
use std::alloc::AllocError;

/// Puts an item behind the others.
pub fn push<T: Drop>(items: &mut Vec<T>, item: T) -> Result<(), AllocError>
    ensures { OnOk result (items.new.items ≡ items.old.items ++ item ∷ []) }
{
    items.push(item)?;
    Ok(())
}

/// Sorts the paths of temporary files, and leaves each once.
pub fn each_once(mut temps: Vec<TempPath>) -> Vec<TempPath>
    ensures distinct { IsDistinct bytes_eq result.items }
    ensures among { (temp : Path) → Contains result.items temp → Contains temps.items temp }
    ensures all { (temp : Path) → Contains temps.items temp → Contains result.items temp }
{
    temps.sort_unstable();
    temps.dedup();
    temps
}
