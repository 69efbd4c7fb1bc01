//! What a command is going to do, and say.
ghost use Rattle.std.proofs.Props.{props};
ghost use Rattle.command_plans.specs.Makeable.{IsIdleIfRefused, IsMakeable, SaysCleaned};
ghost use Rattle.command_plans.specs.proofs.Facts.{is_makeable_prop};

use crate::outcome::Outcome;
use boot_base::{BootPath, Bytes, Target, TempPath};
use image_writer::Sources;
use install_steps::Intent;

/// A refusal as it is printed: its number, and the whole line.
#[derive(Debug, Drop)]
pub struct RefusalLine {
    pub number: u8,
    pub line: Bytes,
}

/// What a command changes.
#[derive(Debug, Drop)]
pub enum Change {
    /// Nothing.
    Nothing,
    /// The boot file at `path` goes. `gone` is the refusal that is printed instead where a machine has no such file
    /// any more, though it has told of one.
    Remove {
        path: BootPath,
        gone: RefusalLine,
    },
    /// These temporary files go.
    Leftovers(Vec<TempPath>),
    /// The finished image by a plan of these sources comes to stand at the target, in place of a file that is
    /// there.
    Write {
        image: pe_builder::ImageLayout,
        sources: Sources,
        target: Target,
    },
    /// These bytes come to stand at the target, in place of a file that is there.
    Put {
        target: Target,
        bytes: Bytes,
    },
    /// The bytes of the boot file at `from` come to stand at the target too, in place of a file that is there. `gone`
    /// is the refusal that is printed instead where a machine has no file at `from` any more, though it has told of
    /// one.
    Copy {
        from: BootPath,
        target: Target,
        gone: RefusalLine,
    },
    /// The boot file at `from` comes to stand at `to`, where none is. While it is moved, the intent says which of
    /// the two names counts after a stop. `gone` is the refusal that is printed instead where a machine has no file
    /// at `from` any more, though it has told of one, and `exists` that where it has one at `to`, though it has told
    /// of none.
    Move {
        from: BootPath,
        to: BootPath,
        intent: Intent,
        gone: RefusalLine,
        exists: RefusalLine,
    },
}

/// What a command is going to do, with all its texts and paths made.
#[derive(Debug, Drop)]
pub struct Plan {
    pub change: Change,
    pub outcome: Outcome,
    /// The whole reply.
    pub text: Bytes,
    /// The change can be made on any machine.
    pub ghost makeable: { IsMakeable change } by { is_makeable_prop change },
    /// A refused command changes nothing.
    pub ghost idle: { IsIdleIfRefused outcome change } by { Prim.hlevel props },
    /// Who drops the temporary files of others says `cleaned`.
    pub ghost says: { SaysCleaned change text } by { Prim.hlevel props },
}
