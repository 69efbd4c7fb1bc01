//! What the list of recent paths is good for.
ghost use Rattle.run_looks.specs.Recent.{ForgettingKeepsRecent, ListedOnesStand, LooksAreListed, NamesKeepRecent, RepliesKeepRecent};

/// It says that the paths that are checked after a reply are all that were looked at since then, and does nothing. Each
/// step of a run keeps the list whole, unless there was no memory for a look.
pub fn look_laws()
    ensures looks { LooksAreListed }
    ensures names { NamesKeepRecent }
    ensures forgets { ForgettingKeepsRecent }
    ensures replies { RepliesKeepRecent }
    ensures stand { ListedOnesStand }
{}
