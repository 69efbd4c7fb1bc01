//! Values of a register.
ghost use Rattle.std.specs.Prelude.{◌≡◌, length};
ghost use Rattle.pcr_values.specs.Prelude.{digest_length, extend_data, extend_digest, zero_of, bank_of, bytes_of_digest, pcr_bank, pcr_bytes};

use crate::bank::Bank;
use crate::data_hash::DataHash;
use crate::digest::Digest;

/// The value of a register of a bank.
#[derive(Clone, Copy, Debug, PartialEq, Eq)]
pub struct Pcr {
    value: Digest,
}

impl Pcr {
    /// The value at the start: zeros of the bank's length.
    pub fn zero(bank: Bank) -> Pcr
        ensures bank { pcr_bank result ≡ bank }
        ensures bytes { pcr_bytes result ≡ zero_of bank }
    {
        Pcr {
            value: Digest::zeros(bank),
        }
    }

    /// The bank that the register is of.
    pub fn bank(&self) -> Bank
        ensures { result ≡ pcr_bank self.now }
    {
        self.value.bank()
    }

    /// The register's bytes, as many as the length of its bank.
    pub fn bytes(&self) -> &[u8]
        ensures value { result.now ≡ pcr_bytes self.now }
        ensures length { length result.now ≡ digest_length (pcr_bank self.now) }
    {
        self.value.bytes()
    }

    /// The value after extending it by a digest of its own bank: the digest of the old bytes
    /// followed by those of `digest`.
    pub fn extend_digest(self, digest: &Digest) -> Pcr
        requires { bank_of digest.now ≡ pcr_bank self }
        ensures bank { pcr_bank result ≡ pcr_bank self }
        ensures bytes { pcr_bytes result
            ≡ extend_digest (pcr_bank self) (pcr_bytes self) (bytes_of_digest digest.now) }
    {
        let mut hash = DataHash::new(self.bank());
        hash.update(self.bytes());
        hash.update(digest.bytes());
        Pcr {
            value: hash.finish(),
        }
    }

    /// The value after extending it by data: by the digest of `bytes` in its own bank.
    pub fn extend_data(self, bytes: &[u8]) -> Pcr
        ensures bank { pcr_bank result ≡ pcr_bank self }
        ensures bytes { pcr_bytes result ≡ extend_data (pcr_bank self) (pcr_bytes self) bytes.now }
    {
        let digest = Digest::of(self.bank(), bytes);
        self.extend_digest(&digest)
    }
}
