//! Digests of a bank.
ghost use Rattle.std.specs.Prelude.{◌≡◌, ◌↔◌, length, IsSome, IfSome};
ghost use Rattle.pcr_values.specs.Prelude.{digest_length, digest_of, zero_of, bank_of, bytes_of_digest};

use crate::bank::Bank;
use crate::data_hash::DataHash;

/// The bytes of a digest, in the array of its bank.
#[derive(Clone, Copy, Debug, PartialEq, Eq)]
pub(crate) enum DigestBytes {
    Sha1([u8; 20]),
    Sha256([u8; 32]),
    Sha384([u8; 48]),
    Sha512([u8; 64]),
}

/// A digest of a bank: as many bytes as the bank's hash function gives.
#[derive(Clone, Copy, Debug, PartialEq, Eq)]
pub struct Digest {
    pub(crate) bytes: DigestBytes,
}

impl Digest {
    /// The bytes as a digest of the bank; `None` exactly where their number isn't the bank's length.
    pub fn read(bank: Bank, bytes: &[u8]) -> Option<Digest>
        ensures found { IsSome result ↔ (length bytes.now ≡ digest_length bank) }
        ensures bank { IfSome result (λ digest. bank_of digest ≡ bank) }
        ensures bytes { IfSome result (λ digest. bytes_of_digest digest ≡ bytes.now) }
    {
        let bytes = match bank {
            Bank::Sha1 => DigestBytes::Sha1(bytes.try_into().ok()?),
            Bank::Sha256 => DigestBytes::Sha256(bytes.try_into().ok()?),
            Bank::Sha384 => DigestBytes::Sha384(bytes.try_into().ok()?),
            Bank::Sha512 => DigestBytes::Sha512(bytes.try_into().ok()?),
        };
        Some(Digest { bytes })
    }

    /// The digest of the bytes: the bank's function of FIPS 180-4.
    pub fn of(bank: Bank, bytes: &[u8]) -> Digest
        ensures bank { bank_of result ≡ bank }
        ensures bytes { bytes_of_digest result ≡ digest_of bank bytes.now }
    {
        let mut hash = DataHash::new(bank);
        hash.update(bytes);
        hash.finish()
    }

    /// The digest's bytes, as many as the length of its bank.
    pub fn bytes(&self) -> &[u8]
        ensures value { result.now ≡ bytes_of_digest self.now }
        ensures length { length result.now ≡ digest_length (bank_of self.now) }
    {
        match &self.bytes {
            DigestBytes::Sha1(bytes) => bytes,
            DigestBytes::Sha256(bytes) => bytes,
            DigestBytes::Sha384(bytes) => bytes,
            DigestBytes::Sha512(bytes) => bytes,
        }
    }

    /// Zeros of the bank's length.
    pub(crate) fn zeros(bank: Bank) -> Digest
        ensures bank { bank_of result ≡ bank }
        ensures bytes { bytes_of_digest result ≡ zero_of bank }
    {
        let bytes = match bank {
            Bank::Sha1 => DigestBytes::Sha1([0; 20]),
            Bank::Sha256 => DigestBytes::Sha256([0; 32]),
            Bank::Sha384 => DigestBytes::Sha384([0; 48]),
            Bank::Sha512 => DigestBytes::Sha512([0; 64]),
        };
        Digest { bytes }
    }

    /// The digest's bank.
    pub(crate) fn bank(&self) -> Bank
        ensures { result ≡ bank_of self.now }
    {
        match self.bytes {
            DigestBytes::Sha1(_) => Bank::Sha1,
            DigestBytes::Sha256(_) => Bank::Sha256,
            DigestBytes::Sha384(_) => Bank::Sha384,
            DigestBytes::Sha512(_) => Bank::Sha512,
        }
    }
}
