//! Paths, each once.
ghost use Rattle.std.specs.Prelude.{◌≡◌, [], OnOk, OnErr};
ghost use Rattle.name_syncs.specs.Paths.{has_path, paths_without, with_path};

use boot_base::Text;
use std::alloc::{AllocError, Global};
use std::marker::Model;

/// Paths in the order in which they came, each once.
#[derive(Drop)]
pub struct Paths {
    items: Vec<Text>,
}

impl Model for Paths {
    ghost use Rattle.std.specs.Prelude.{List, ℕ};

    ghost Value = { List (List ℕ) };

    ghost view = { λ paths. paths.items.items };
}

impl Paths {
    /// No paths. It takes no memory.
    pub fn new(alloc: Global) -> Self
        ensures { result ≡ [] }
    {
        let items = Vec::new(alloc);
        Paths { items }
    }

    /// The paths.
    pub fn as_slice(&self) -> &[Text]
        ensures { result.now ≡ self.now }
    {
        self.items.as_slice()
    }

    /// Whether a path is among them.
    pub fn has(&self, path: &str) -> bool
        ensures { result ≡ has_path self.now path.now }
    {
        self.items.iter().any(|known| known.as_str() == path)
    }

    /// Adds a path behind the others, unless it is among them.
    pub fn add(&mut self, path: &str) -> Result<(), AllocError>
        ensures ok { OnOk result (self.new ≡ with_path self.old path.now) }
        ensures err { OnErr result (self.new ≡ self.old) }
    {
        if !self.has(path) {
            let path = Text::of(*self.items.allocator(), path)?;
            self.items.push(path)?;
        }
        Ok(())
    }

    /// Takes a path away. It takes no memory.
    pub fn remove(&mut self, path: &str)
        ensures { self.new ≡ paths_without self.old path.now }
    {
        self.items.retain(|known| known.as_str() != path);
    }

    /// Leaves none of them.
    pub fn clear(&mut self)
        ensures { self.new ≡ [] }
    {
        self.items.clear();
    }
}
