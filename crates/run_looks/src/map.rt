//! Maps from paths.
ghost use Rattle.std.specs.Prelude.{◌≡◌, OnOk, OnErr};
ghost use Rattle.std.specs.Option.{option_copied};
ghost use Rattle.std.specs.FinMap as map;

use crate::identity::Look;
use std::alloc::{AllocError, Global};
use std::collections::HashMap;
use std::collections::hash_map::Iter;
use std::marker::Model;

/// What is kept for each of some paths. Contracts see the map from the bytes of the paths.
#[derive(Drop)]
pub struct PathMap<V: Drop> {
    alloc: Global,
    entries: HashMap<String, V>,
}

impl<V: Drop> Model for PathMap<V> {
    ghost use Rattle.std.specs.Ordering.{nat_cmp};
    ghost use Rattle.std.specs.Cmp.Lexicographic.{slice_cmp};
    ghost use Rattle.std.specs.Coded.{coded_ℕ, coded_list};
    ghost use Rattle.std.specs.FinMap as map;
    ghost use Rattle.run_looks.specs.Maps.{by_text};

    ghost Value = { map.FinMap (slice_cmp nat_cmp) V };

    ghost coded = { map.code (coded_list coded_ℕ) V.code };

    ghost view = { λ m. map.from_entries (by_text m.entries.entries) };
}

impl<V: Drop> PathMap<V> {
    ghost use Rattle.std.specs.String.{string_eq};
    ghost use Rattle.std.specs.List.{IsDistinct};
    ghost use Rattle.std.specs.Map.{keys_of};
    ghost use Rattle.run_looks.specs.Maps.{by_text};

    // Nothing for any path. It takes no memory.
    pub(crate) fn new(alloc: Global) -> Self
        ensures { result ≡ map.empty }
    {
        PathMap {
            alloc,
            entries: HashMap::new(alloc),
        }
    }

    // What is kept for a path.
    pub(crate) fn get(&self, path: &str) -> Option<&V>
        ensures { option_copied result ≡ map.get self.now path.now }
    {
        self.entries.get(path)
    }

    // Whether something is kept for a path.
    pub(crate) fn has(&self, path: &str) -> bool
        ensures { result ≡ map.contains_key self.now path.now }
    {
        self.entries.contains_key(path)
    }

    // Keeps something for a path, in the place of what was kept before.
    pub(crate) fn insert(&mut self, path: &str, value: V) -> Result<(), AllocError>
        ensures ok { OnOk result (self.new ≡ map.insert self.old path.now value) }
        ensures err { OnErr result (self.new ≡ self.old) }
    {
        let path = String::from_str(self.alloc, path)?;
        self.entries.insert(path, value)?;
        Ok(())
    }

    // Keeps nothing for a path.
    pub(crate) fn remove(&mut self, path: &str)
        ensures { self.new ≡ map.remove self.old path.now }
    {
        drop(self.entries.remove(path));
    }

    /// The paths, and what is kept for each.
    pub fn iter(&self) -> Iter<'_, String, V>
        ensures entries { map.from_entries (by_text result) ≡ self.now }
        ensures each_once { IsDistinct string_eq (keys_of result) }
    {
        self.entries.iter()
    }
}

impl PathMap<Look> {
    ghost use Rattle.run_looks.specs.Looks.{touched_at};

    // A path is looked at after so many replies. It gives the look as it was before, if there is one.
    pub(crate) fn touch(&mut self, path: &str, reply: u64) -> Option<Look>
        ensures before { result ≡ map.get self.old path.now }
        ensures after { self.new ≡ touched_at self.old path.now reply }
    {
        let Some(look) = self.entries.get_mut(path) else {
            return None;
        };
        let before = *look;
        look.reply = reply;
        Some(before)
    }
}
