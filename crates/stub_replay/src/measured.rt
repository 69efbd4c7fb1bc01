//! The names of the measured sections, and how a register takes one.
ghost use Rattle.std.specs.Prelude.{◌≡◌, ◌++◌, ◌∷◌, [], map};
ghost use Rattle.pcr_values.specs.Prelude.{extend_data, pcr_bank, pcr_bytes};
ghost use Rattle.stub_replay.specs.Measured.{measured_names};

use pcr_values::{DataHash, Pcr};

/// The names of the measured sections, in the order in which a stub measures them.
pub fn measured_names() -> &'static [&'static [u8]]
    ensures { map (λ name. name.now) result.now ≡ measured_names }
{
    &[
        b".linux",
        b".osrel",
        b".cmdline",
        b".initrd",
        b".ucode",
        b".splash",
        b".dtb",
        b".uname",
        b".sbat",
        b".pcrpkey",
    ]
}

/// The register after a section's name with one NUL has extended it, as a stub measures the name before the
/// section's bytes (systemd's TPM2 PCR document, PCR 11). It takes no memory.
pub fn after_name(pcr: Pcr, name: &[u8]) -> Pcr
    ensures bank { pcr_bank result ≡ pcr_bank pcr }
    ensures bytes { pcr_bytes result ≡ extend_data (pcr_bank pcr) (pcr_bytes pcr) (name.now ++ 0 ∷ []) }
{
    let mut hash = DataHash::new(pcr.bank());
    hash.update(name);
    hash.update(&[0]);
    pcr.extend_digest(&hash.finish())
}
