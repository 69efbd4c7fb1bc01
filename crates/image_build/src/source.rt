//! Where the bytes of an image come from, before they are read.

use boot_base::{BootPath, Bytes};
use uki_parts::{PartKind, SectionName};

/// Where bytes come from.
#[derive(Debug, Drop)]
pub enum Source {
    /// These bytes, which the words say.
    Said(Bytes),
    /// The file at this path.
    At(BootPath),
}

/// A part of an image, with where its bytes come from, one behind the other. Only the initrds' has several.
#[derive(Debug, Drop)]
pub struct PartSources {
    pub kind: PartKind,
    pub name: SectionName,
    pub sources: Vec<Source>,
}

/// What the words of a build name.
#[derive(Debug, Drop)]
pub struct BuildSources {
    /// The path of the stub.
    pub stub: BootPath,
    /// The path of the kernel.
    pub linux: BootPath,
    /// The other parts but for the SBAT text, in append order.
    pub parts: Vec<PartSources>,
    /// The text of `--sbat`.
    pub sbat: Option<Source>,
    /// Where the image is to stand.
    pub output: BootPath,
}
