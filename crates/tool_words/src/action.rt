//! The actions of a command that has several.

use boot_base::{BootPath, Bytes, Refusal};

/// An action of a command of several. No words say so.
#[derive(Debug, Drop)]
pub enum Action {
    /// A file's bytes come to stand at another path too.
    Put { file: BootPath, target: BootPath },
    /// An entry's text comes to stand at a path.
    Enter { path: BootPath, text: Bytes },
    /// A file goes.
    Remove { path: BootPath },
    /// The command is refused.
    Refuse { why: Refusal },
    /// Nothing is changed, and a text is told. An empty one is told as an empty line.
    Tell { text: Bytes },
}
