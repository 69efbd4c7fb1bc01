//! The laws of keeping the newest.
ghost use Rattle.menu_order.specs.KeepLaws.{KeepsFew, KeepsFirst, KeepsGood, KeepsGroup, KeepsOn, KeepsOnce, KeptWithout, PartsMenu, PlacesDescend, PlacesDoomed};

/// The laws of keeping the newest, which hold of all menus: what is kept and what is doomed are the menu; the places are
/// those of the doomed entries, and descend; of each group its first n entries are kept, and if none of these is good its
/// first good one, and no others; of what is kept nothing is doomed. If each entry has a path of its own, what is kept is
/// the menu without the entries at the doomed paths; and if the first of the doomed are gone, the others are doomed
/// still, and no more.
pub fn keeping_laws()
    ensures parts { PartsMenu }
    ensures places { PlacesDoomed }
    ensures descend { PlacesDescend }
    ensures group { KeepsGroup }
    ensures first { KeepsFirst }
    ensures few { KeepsFew }
    ensures good { KeepsGood }
    ensures once { KeepsOnce }
    ensures without { KeptWithout }
    ensures on { KeepsOn }
{}
