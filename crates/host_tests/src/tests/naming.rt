// What a sync of names syncs, and in which order.
use super::Act::{Create, Rename, RenameTemp};
use super::Change::{MakeFolder, Write};
use super::Step::{Beside, Does, Fails, Faults, Holds, Names, Size, Syncs};
use super::noted::{NOTES, NotedSystem};
use super::{Step, run};
use std::test::Fail;

// Each renamed file, then each changed folder, the nearest first and the new name's before the old one's, and last
// what was only looked at.
const CHANGED: &[u8] = b"efi/EFI/a\nnew/c/d\nefi/EFI\nefi\nnew/c\nnew\n.\nefi/loader\n";

const LOOKED_AT: &[u8] = b"efi/loader\nefi\n.\n";

static SYNCED: [Step; 20] = [
    Beside(MakeFolder("efi/loader")),
    Beside(Write("efi/b", b"b")),
    // looks at a file, and at the names in a folder
    Size("k", None),
    Names("efi/loader", 0),
    Beside(Write(NOTES, b"")),
    Syncs(true),
    Holds(NOTES, LOOKED_AT),
    Size("k", None),
    Names("efi/loader", 0),
    // makes a file, and moves another to a folder that isn't there, for which it is looked for once more
    Does("efi/EFI/a", Create),
    Does("efi/EFI/a", RenameTemp),
    Does("efi/b", Rename("new/c/d")),
    Fails("efi/b", Rename("new/c/d")),
    Beside(Write(NOTES, b"")),
    Syncs(true),
    Holds(NOTES, CHANGED),
    Beside(Write(NOTES, b"")),
    Syncs(true),
    Holds(NOTES, b""),
    Faults(1),
];

#[test]
fn folders_with_all_above_them(rt: HostRuntime) -> Result<(), Fail> {
    run(&rt, NotedSystem { rt }, &SYNCED)
}
