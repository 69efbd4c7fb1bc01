//! The commands on unified kernel images, each planned by reads alone.
#![tactic(auto)]

mod calculate;
mod identify;
mod image;
mod inspect;
mod laws;
mod told;

pub use calculate::plan_calculate;
pub use identify::plan_identify;
pub use image::plan_image;
pub use inspect::plan_inspect;
pub use laws::{
    calculated_parts_are_the_measured_ones, calculated_values_are_the_stubs,
    printed_json_reads_back,
};
