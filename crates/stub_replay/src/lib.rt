//! The value of PCR 11 that systemd-stub comes to by the sections of a unified kernel image (UAPI Unified Kernel
//! Image, systemd's TPM2 PCR document).
//!
//! The stub measures the sections of some names in a fixed order, each by its name with one NUL and then by its loaded
//! bytes. The value is taken from a finished image's bytes, from a machine's file that is read in pieces, or from the
//! parts that an image is going to have. Laws join them: an image shows the parts that it was built of, and what is
//! predicted from parts is the value of each image that shows them.
#![tactic(auto)]

mod bytes;
mod file;
mod laws;
mod measurable;
mod measured;
mod pieces;
mod prediction;
mod register;

pub use bytes::replay_bytes;
pub use file::{range_digest, replay, replay_all};
pub use laws::{
    image_shows_its_parts, prediction_is_replay, prediction_of_ordered_parts,
    prediction_of_parts_is_replay,
};
pub use measurable::{Content, Measurable, push_part};
pub use measured::{after_name, measured_names};
pub use prediction::predict;
