//! The names of a folder.
ghost use Rattle.std.specs.Prelude.{◌≡◌, ◌↔◌, IfOk, IsTrue, map, string_bytes};
ghost use Rattle.std.specs.FinSet as set;
ghost use Rattle.run_looks.specs.Names.{lasting, names_of_list};

use boot_base::ends_as_temp;
use std::alloc::{AllocError, Global};
use std::collections::HashSet;
use std::marker::Model;

/// The names that a folder has, without those of temporary files: they come and go with every run that writes.
#[derive(Drop)]
pub struct LastingNames {
    names: HashSet<String>,
}

impl Model for LastingNames {
    ghost use Rattle.std.specs.Coded.{coded_ℕ, coded_list};
    ghost use Rattle.std.specs.FinSet as set;
    ghost use Rattle.run_looks.specs.Names.{NameSet, names_of_list};

    ghost Value = { NameSet };

    ghost coded = { set.code (coded_list coded_ℕ) };

    ghost view = { λ s. names_of_list s.names.keys };
}

impl LastingNames {
    // Those among the names that a folder has.
    pub(crate) fn of(alloc: Global, names: Vec<String>) -> Result<Self, AllocError>
        ensures { IfOk result (λ made. made ≡ lasting (names_of_list names.items)) }
    {
        let mut lasting = HashSet::new(alloc);
        for name in names {
            if !ends_as_temp(name.as_str()) {
                lasting.insert(name)?;
            }
        }
        Ok(LastingNames { names: lasting })
    }

    // Whether a name is among them.
    pub(crate) fn has(&self, name: &str) -> bool
        ensures { result ≡ set.contains self.now name.now }
    {
        self.names.contains(name)
    }

    // Whether they are the same names.
    pub(crate) fn is_same(&self, other: &LastingNames) -> bool
        ensures { IsTrue result ↔ (self.now ≡ other.now) }
    {
        self.names == other.names
    }
}
