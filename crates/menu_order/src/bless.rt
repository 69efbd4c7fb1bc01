//! What a blessing renames, as systemd-bless-boot.service(8) has it.
ghost use Rattle.std.specs.Prelude.{◌≡◌};
ghost use Rattle.menu_order.specs.Bless.{choice_of};

/// What a boot is found to be.
#[derive(Clone, Copy, PartialEq, Eq, Debug)]
pub enum BlessVerb {
    /// The boot was good: the entry loses its counter.
    Good,
    /// The boot was bad: the entry has no boot left.
    Bad,
    /// Nothing is known: the entry has the counter that was reported.
    Indeterminate,
}

/// Which of an entry's three names are there.
#[derive(Clone, Copy, PartialEq, Eq, Debug)]
pub struct Present {
    /// The name without a counter.
    pub good: bool,
    /// The name that was reported, with its counter.
    pub counted: bool,
    /// The name with no boot left.
    pub bad: bool,
}

/// What a blessing renames to the name that its verb wants.
#[derive(Clone, Copy, PartialEq, Eq, Debug)]
pub enum BlessChoice {
    /// Nothing: the wanted name is there.
    Nothing,
    /// The name without a counter.
    FromGood,
    /// The name that was reported.
    FromCounted,
    /// The name with no boot left.
    FromBad,
    /// No name that could be renamed is there.
    NoSource,
}

/// What a verb renames to its target, as systemd-bless-boot.service(8) has it: nothing where the
/// target is there, else the first of its sources that is. It takes no memory.
pub fn bless_choice(verb: BlessVerb, present: Present) -> BlessChoice
    ensures { result ≡ choice_of verb present }
{
    match verb {
        BlessVerb::Good if present.good => BlessChoice::Nothing,
        BlessVerb::Good if present.counted => BlessChoice::FromCounted,
        BlessVerb::Good if present.bad => BlessChoice::FromBad,
        BlessVerb::Bad if present.bad => BlessChoice::Nothing,
        BlessVerb::Bad if present.counted => BlessChoice::FromCounted,
        BlessVerb::Bad if present.good => BlessChoice::FromGood,
        BlessVerb::Indeterminate if present.counted => BlessChoice::Nothing,
        BlessVerb::Indeterminate if present.good => BlessChoice::FromGood,
        BlessVerb::Indeterminate if present.bad => BlessChoice::FromBad,
        _ => BlessChoice::NoSource,
    }
}
