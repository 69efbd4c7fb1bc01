//! An image that is planned.

use crate::build_plan::ImagePlan;
use boot_base::BootPath;
use pe_reader::Pe;

/// The image of a build, what its stub reads as, and where it is to stand.
#[derive(Drop)]
pub(crate) struct PlannedBuild {
    pub(crate) image: ImagePlan,
    pub(crate) head: Pe,
    pub(crate) output: BootPath,
}
