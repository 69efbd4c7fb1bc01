//! Values of a TPM's platform configuration registers, computed without a TPM, and the phases of a boot that extend
//! PCR 11.
//!
//! A register of a bank begins as zeros of the bank's length. Extending it by a digest makes it the digest of its
//! old bytes followed by the digest's bytes (TPM 2.0 Library, `TPM2_PCR_Extend`), and extending it by data is
//! extending it by the data's digest. The four banks are SHA-1, SHA-256, SHA-384 and SHA-512 of FIPS 180-4. None of
//! this takes memory.
//!
//! After a unified kernel has measured its sections, systemd extends PCR 11 by a word at each phase that the boot
//! enters (`systemd-pcrphase.service`). A phase path is the list of the words so far. This crate reads phase paths,
//! extends registers by them, and prints the lines of `systemd-measure calculate`: a heading for each path, and
//! below it a value for each bank.
#![tactic(auto)]

mod bank;
mod data_hash;
mod digest;
mod pcr;
mod phase_path;
mod value_lines;

pub use bank::Bank;
pub use data_hash::DataHash;
pub use digest::Digest;
pub use pcr::Pcr;
pub use phase_path::{PhasePath, after_phases, default_paths, printed_paths_read_back};
pub use value_lines::{append_heading, append_value, result_lines};
