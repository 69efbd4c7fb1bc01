//! What a build of a unified kernel image names, reads and plans (ukify(1), UAPI Unified Kernel Image).
//!
//! The words of `ukify build` are read into sources, which are texts and paths of files. The files are found with their
//! sizes, and the SBAT texts and the headers are read. Of these the image is planned, and no part's bytes are read for
//! that. Where the image is measured, its values are predicted from the files before it is written.
#![tactic(auto)]

mod build;
mod build_plan;
mod build_reads;
mod build_values;
mod build_words;
mod laws;
mod planned;
mod source;

pub use build::plan_build;
pub use build_plan::{ImagePlan, StubFile, plan_image_of};
pub use build_reads::{BuildParts, read_build};
pub use build_words::build_sources;
pub use laws::{builds_are_countable, built_values_are_the_stubs};
pub use source::{BuildSources, PartSources, Source};
