//! The parts of an image in the order in which they are appended.

ghost use Rattle.std.specs.Prelude.{◌≡◌, ◌≤◌, ◌<◌, [], length, OnOk, OnErr, All};
ghost use Rattle.std.specs.List.{position_or_len};
ghost use Rattle.uki_parts.specs.Parts.{part_place, with_part, is_after, HasBytes};
ghost use Rattle.std.specs.List.Sorted.{IsNonDecreasingBy};

use crate::kind::PartKind;
use crate::part::Part;
use std::alloc::{AllocError, Global};
use std::marker::Model;

/// Parts in append order: that of their kinds, and of one kind in the order in which they were added. None of them
/// is empty. Contracts see the list of the parts.
#[derive(Debug, Drop)]
pub struct PartList {
    items: Vec<Part>,
}

impl Model for PartList {
    ghost use Rattle.std.specs.Prelude.{List, All};
    ghost use Rattle.std.specs.List.Sorted.{IsNonDecreasingBy};
    ghost use Rattle.uki_parts.specs.declared.part.Part.{Part};
    ghost use Rattle.uki_parts.specs.Parts.{part_place, HasBytes};

    ghost Value = { List Part };

    ghost view = { λ list. list.items.items };

    ghost invariant = { λ list. IsNonDecreasingBy part_place list.items.items × All HasBytes list.items.items };
}

impl PartList {
    /// The empty list. It takes no memory.
    pub fn new(alloc: Global) -> PartList
        ensures { result ≡ [] }
    {
        PartList {
            items: Vec::new(alloc),
        }
    }

    /// Puts a part at its place in the append order, after earlier parts of its kind. A part of length 0 is dropped.
    ///
    /// # Errors
    ///
    /// Where there is no memory for it; then the list is as before, and the part is given up.
    pub fn add(&mut self, part: Part) -> Result<(), AllocError>
        ensures ok { OnOk result (self.new ≡ with_part part self.old) }
        ensures err { OnErr result (self.new ≡ self.old) }
    {
        if part.length == 0 {
            return Ok(());
        }
        let place = place_for(self.items.as_slice(), part.kind);
        self.items.insert(place, part)?;
        Ok(())
    }

    /// The parts in append order.
    pub fn parts(&self) -> &[Part]
        ensures items { result.now ≡ self.now }
        ensures order { IsNonDecreasingBy part_place self.now }
        ensures filled { All HasBytes self.now }
    {
        self.items.as_slice()
    }
}

// The index behind the parts of that kind and of those before it. It is looked for by halves, so that many parts take
// no time that grows with their square.
fn place_for(parts: &[Part], kind: PartKind) -> usize
    requires { IsNonDecreasingBy part_place parts.now }
    ensures place { result ≡ position_or_len (is_after kind) parts.now }
    ensures inside { result ≤ length parts.now }
{
    parts.partition_point(|part| !part.kind.comes_after(kind))
}
