//! What the rules keep.
ghost use Rattle.fat_rules.specs.Aliases.{AliasExamples, CountedAreNone, GeneratedAreAliases, PlusesAreNone};
ghost use Rattle.fat_rules.specs.Entries.{NamesAreOfOneEntry, OwnMovesAreBelieved};
ghost use Rattle.fat_rules.specs.Slots.{ChecksOnce, FreesNothingShared, KeepsTheBytes, KeepsTheBytesOfOne, KeepsTheLastName};
ghost use Rattle.fat_rules.specs.Twins.{RenamesAreSeen, TwinlessSharesNothing};

/// It says which names are aliases, and does nothing: each that the driver makes, and none with a plus,
/// so none with a boot counter.
pub fn alias_laws()
    ensures generated { GeneratedAreAliases }
    ensures pluses { PlusesAreNone }
    ensures counted { CountedAreNone }
    ensures examples { AliasExamples }
{}

/// It says what a recovery keeps in a folder of FAT, and does nothing.
pub fn recovery_laws()
    ensures shared { FreesNothingShared }
    ensures bytes { KeepsTheBytes }
    ensures bytes_of_one { KeepsTheBytesOfOne }
    ensures last { KeepsTheLastName }
    ensures once { ChecksOnce }
{}

/// It says which moves are believed, and does nothing: each that `boot` or `bless` makes between names of one entry.
pub fn move_laws()
    ensures names { NamesAreOfOneEntry }
    ensures moves { OwnMovesAreBelieved }
{}

/// It says which names are looked at before one is changed, and does nothing: each that a rename of this program can leave
/// over the same clusters.
pub fn twin_laws()
    ensures renames { RenamesAreSeen }
    ensures twins { TwinlessSharesNothing }
{}
