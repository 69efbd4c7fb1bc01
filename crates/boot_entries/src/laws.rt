//! The laws of the entries of boot files.
ghost use Rattle.boot_entries.specs.Laws.{EntriesMenu, OwnPaths, RemovalCount, RemovalMenu, ViewCount, ViewMenu};

/// The laws of the entries of boot files, which hold of all files: `boot_menu` gives the menu of the entries, and
/// neither it nor the number of entry files depends on temporary files. No two entries of a menu have one path. If
/// files go, the menu is without their entries and has all others in their order, and there are no more entry files.
pub fn entries_laws()
    ensures menu { EntriesMenu }
    ensures view_menu { ViewMenu }
    ensures view_count { ViewCount }
    ensures own { OwnPaths }
    ensures removal_menu { RemovalMenu }
    ensures removal_count { RemovalCount }
{}
