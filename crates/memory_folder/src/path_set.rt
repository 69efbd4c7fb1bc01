//! Paths that are noted, and struck out again.
ghost use Rattle.std.specs.Prelude.{◌≡◌, [], OnOk, OnErr, false};
ghost use Rattle.name_syncs.specs.Paths.{has_path, paths_without, with_path};
ghost use Rattle.memory_folder.specs.Paths.{AddsNone, AddsOnly};

use boot_base::Text;
use std::alloc::{AllocError, Global};
use std::marker::Model;

/// Paths in the order in which they came, each once.
#[derive(Drop)]
pub(crate) struct PathSet {
    items: Vec<Text>,
}

impl Model for PathSet {
    ghost use Rattle.std.specs.Prelude.{List, ℕ};

    ghost Value = { List (List ℕ) };

    ghost view = { λ paths. paths.items.items };
}

impl PathSet {
    // No paths. It takes no memory.
    pub(crate) fn new(alloc: Global) -> Self
        ensures { result ≡ [] }
    {
        let items = Vec::new(alloc);
        PathSet { items }
    }

    // Whether a path is among them.
    pub(crate) fn has(&self, path: &str) -> bool
        ensures { result ≡ has_path self.now path.now }
    {
        self.items.iter().any(|known| known.as_str() == path)
    }

    // Adds a path behind the others, unless it is among them.
    pub(crate) fn add(&mut self, path: &str) -> Result<(), AllocError>
        ensures ok { OnOk result (self.new ≡ with_path self.old path.now) }
        ensures err { OnErr result (self.new ≡ self.old) }
        ensures adds { AddsOnly path.now self.old self.new }
    {
        if !self.has(path) {
            let path = Text::of(*self.items.allocator(), path)?;
            self.items.push(path)?;
        }
        Ok(())
    }

    // Takes a path away. It takes no memory.
    pub(crate) fn remove(&mut self, path: &str)
        ensures rest { self.new ≡ paths_without self.old path.now }
        ensures gone { has_path self.new path.now ≡ false }
        ensures adds { AddsNone self.old self.new }
    {
        self.items.retain(|known| known.as_str() != path);
    }
}
