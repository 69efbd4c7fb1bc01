//! What the notes of a run keep.
ghost use Rattle.name_syncs.specs.Folders.{FoldersAreAbove, NotedAreListed};
ghost use Rattle.name_syncs.specs.Named.{NamesAreCovered, RenamesAreCovered, SettledAreCovered};

/// It says which folders are noted for a path, and that each is gone through; and does nothing.
pub fn note_laws()
    ensures above { FoldersAreAbove }
    ensures listed { NotedAreListed }
    ensures names { NamesAreCovered }
    ensures renames { RenamesAreCovered }
    ensures settled { SettledAreCovered }
{}
