//! The entries that go.
ghost use Rattle.std.specs.Prelude.{◌≡◌, ◌<◌, ◌+◌, ◌^◌, All, IfOk, length, map, not, ◌||◌, ◌&&◌, nat_lt, slice_get, [], filter_map};
ghost use Rattle.menu_order.specs.Doomed.{doomed_records, doomed_places, group_of, is_good, places_behind};
ghost use Rattle.menu_order.specs.KeepLaws.{doomed_paths};
ghost use Rattle.menu_order.specs.Tallies.{key_in};

use crate::item::MenuItem;
use boot_base::BootPath;
use std::alloc::{AllocError, Global};
use std::collections::BTreeMap;

/// What was seen of a group: how many entries, and whether one of them is good.
#[derive(Clone, Copy)]
struct Tally {
    size: u64,
    has_good: bool,
}

const NO_TALLY: Tally = Tally {
    size: 0,
    has_good: false,
};

// An entry without a boot counter is good.
fn is_good(item: &MenuItem) -> bool
    ensures { result ≡ is_good item.now }
{
    item.counter.is_none()
}

// What tells the group of an entry: its sort-key, or nothing if all entries are one group.
fn group_of(item: &MenuItem, per_key: bool) -> Option<&[u8]>
    ensures { key_in result ≡ group_of per_key item.now }
{
    if !per_key {
        return None;
    }
    match &item.sort_key {
        Some(key) => Some(key.as_slice()),
        None => None,
    }
}

// Whether an entry is kept behind those that its group has so far.
fn is_kept(before: Tally, item: &MenuItem, n: u32) -> bool
    ensures { result ≡ (nat_lt before.size n || (is_good item.now && not before.has_good)) }
{
    before.size < u64::from(n) || (is_good(item) && !before.has_good)
}

// What was seen of a group, with one entry more.
fn with_one(before: Tally, item: &MenuItem) -> Tally
    requires { before.size + 1 < 2 ^ 64 }
    ensures size { result.size ≡ before.size + 1 }
    ensures has_good { result.has_good ≡ (before.has_good || is_good item.now) }
{
    Tally {
        size: before.size + 1,
        has_good: before.has_good || is_good(item),
    }
}

// The places of the entries that go, the first of them first. A map tells what was seen of each group, so that many
// groups take no time that grows with their square.
fn places(
    alloc: Global,
    items: &[MenuItem],
    n: u32,
    per_key: bool,
) -> Result<Vec<usize>, AllocError>
    ensures { IfOk result (λ places. places.items ≡ places_behind n per_key [] items.now) }
{
    let mut tallies = BTreeMap::new(alloc);
    let mut places = Vec::new(alloc);
    for (place, item) in items.iter().enumerate() {
        let group = group_of(item, per_key);
        let before = tallies.get(&group).copied().unwrap_or(NO_TALLY);
        if !is_kept(before, item, n) {
            places.push(place)?;
        }
        tallies.insert(group, with_one(before, item))?;
    }
    Ok(places)
}

/// The places of the entries that go if of each group of a menu the first n are kept, and if none of these is good its
/// first good one: the last of the menu first. With `per_key` the entries of one sort-key are a group, and those without
/// one too; else all entries are one group. Want of memory is its one fault.
pub fn doomed(
    alloc: Global,
    items: &[MenuItem],
    n: u32,
    per_key: bool,
) -> Result<Vec<usize>, AllocError>
    ensures places { IfOk result (λ places. places.items ≡ doomed_places n per_key items.now) }
    ensures within { IfOk result (λ places. All (λ place. place < length items.now) places.items) }
    ensures entries { IfOk result (λ places. filter_map (slice_get items.now) places.items
        ≡ doomed_records n per_key items.now) }
{
    let mut places = places(alloc, items, n, per_key)?;
    places.reverse();
    Ok(places)
}

// The paths of the entries at these places.
fn paths_at(
    alloc: Global,
    items: &[MenuItem],
    places: &[usize],
) -> Result<Vec<BootPath>, AllocError>
    requires { All (λ place. place < length items.now) places.now }
    ensures { IfOk result (λ paths. paths.items
        ≡ map (λ item. item.path) (filter_map (slice_get items.now) places.now)) }
{
    let mut paths = Vec::new(alloc);
    for place in places {
        paths.push(items[*place].path.copy(alloc)?)?;
    }
    Ok(paths)
}

/// The paths of the entries that go, in the order of `doomed`. Want of memory is its one fault.
pub fn doomed_paths(
    alloc: Global,
    items: &[MenuItem],
    n: u32,
    per_key: bool,
) -> Result<Vec<BootPath>, AllocError>
    ensures { IfOk result (λ paths. paths.items ≡ doomed_paths n per_key items.now) }
{
    let places = doomed(alloc, items, n, per_key)?;
    paths_at(alloc, items, places.as_slice())
}
