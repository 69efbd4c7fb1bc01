//! Where the bytes of an image come from.

ghost use Rattle.std.specs.Prelude.{◌≡◌};
ghost use Rattle.image_writer.specs.Sourced.{stub_path, part_list, new_sbat};

use boot_base::BootPath;
use uki_parts::{Part, PartList};

/// Where the bytes of an image come from: the file of its stub, its parts, and the new `.sbat` that takes the place of
/// the stub's where the plan says so.
#[derive(Debug, Drop)]
pub struct Sources {
    pub(crate) stub: BootPath,
    pub(crate) parts: PartList,
    pub(crate) sbat: Vec<u8>,
}

impl Sources {
    /// The sources with that stub's file, those parts and those bytes of a new `.sbat`, which aren't used where none is
    /// replaced. It takes no memory.
    pub fn new(stub: BootPath, parts: PartList, sbat: Vec<u8>) -> Sources
        ensures stub { stub_path result ≡ stub }
        ensures parts { part_list result ≡ parts }
        ensures sbat { new_sbat result ≡ sbat.items }
    {
        Sources { stub, parts, sbat }
    }

    /// The path of the stub.
    pub fn stub(&self) -> &BootPath
        ensures { result.now ≡ stub_path self.now }
    {
        &self.stub
    }

    /// The parts, in append order.
    pub fn parts(&self) -> &[Part]
        ensures { result.now ≡ part_list self.now }
    {
        self.parts.parts()
    }

    /// The bytes of the new `.sbat`.
    pub fn sbat(&self) -> &[u8]
        ensures { result.now ≡ new_sbat self.now }
    {
        &self.sbat
    }
}
