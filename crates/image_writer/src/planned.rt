//! A whole image, from its plan to its place among the boot files.

ghost use Rattle.std.specs.Prelude.{[], ◌∷◌, ◌≡◌, ℕ, List, IsTrue, OnOk};
ghost use Rattle.std.specs.FinMap as map;
ghost use Rattle.boot_machine.specs.Prelude.{CountsDisk, IsFirm, TakesAtMost, recovered_view, view};
ghost use Rattle.install_steps.specs.Steps.{CanStep, IsDone, LeavesAlone, LeavesReady, StepsTo};
ghost use Rattle.image_writer.specs.Sourced.{IsSourced, IsPlannedImage};
ghost use Rattle.image_writer.specs.Taken.{writing_length};

use crate::image::write_image;
use crate::sources::Sources;
use boot_base::{Buffer, Target};
use boot_machine::{DiskFault, Machine};
use install_steps::put_in_place;
use pe_builder::ImageLayout;

/// Writes the finished image by a plan of these sources at the target, in place of a file that is there, which may be
/// one of the sources (UAPI Unified Kernel Image). Its bytes go through the buffer in pieces, and no memory is taken. A
/// stop at any moment leaves what boot saw before, or that with the whole image. After a fault of the disk either
/// stands, and a temporary file may be left. The plan was made for these sources; zeros stand for bytes that the
/// machine doesn't give.
pub fn write_planned<M: Machine>(
    machine: &mut M,
    plan: &ImageLayout,
    sources: &Sources,
    target: &Target,
    buffer: &mut Buffer,
) -> Result<(), DiskFault>
    requires ready { IsTrue M.tells → CanStep (M.state machine.old) }
    requires sourced { IsTrue M.tells → IsSourced plan.now sources.now (view (M.state machine.old).files) }
    ensures done { OnOk result (IsTrue M.tells → IsFirm (M.state machine.old)
        → (image : List ℕ) → IsPlannedImage plan.now sources.now (view (M.state machine.old).files) image
        → IsDone (M.state machine.new)
        (map.insert (recovered_view (M.state machine.old).files) target.now.path image)) }
    ensures step { IsTrue M.tells → IsFirm (M.state machine.old)
        → (image : List ℕ) → IsPlannedImage plan.now sources.now (view (M.state machine.old).files) image
        → StepsTo M.time M.state
        (map.insert (recovered_view (M.state machine.old).files) target.now.path image) machine.old machine.new }
    ensures ready { OnOk result (IsTrue M.tells → LeavesReady (M.state machine.old) (M.state machine.new)) }
    ensures alone { LeavesAlone M.tells M.time M.state M.counts (CountsDisk result) (target.now.temp ∷ []) machine.old
        machine.new }
    ensures taken { IsTrue M.tells → TakesAtMost (writing_length plan.now sources.now)
        (M.taken machine.old) (M.taken machine.new) }
{
    target.path.know();
    target.temp.know();
    machine.create(&target.temp)?;
    write_image(plan, sources, buffer, &target.temp, machine)?;
    put_in_place(machine, &target.temp, &target.path)
}
