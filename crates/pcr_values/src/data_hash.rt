//! The digest of data that comes in pieces.
ghost use Rattle.std.specs.Prelude.{◌≡◌, ◌++◌, [], List, ℕ};
ghost use Rattle.pcr_values.specs.declared.bank.Bank.{Bank};
ghost use Rattle.pcr_values.specs.Prelude.{digest_of, bank_of, bytes_of_digest, HoldsData};

use crate::bank::Bank;
use crate::digest::{Digest, DigestBytes};
use sha1::Sha1;
use sha2::{Digest as _, Sha256, Sha384, Sha512};

/// The hasher of a bank.
#[derive(Drop)]
enum Hasher {
    Sha1(Sha1),
    Sha256(Sha256),
    Sha384(Sha384),
    Sha512(Sha512),
}

/// The digest of data that comes in pieces: `new`, an `update` for each piece, and `finish`. Only
/// the pieces joined matter, and not where the data is cut.
#[derive(Drop)]
pub struct DataHash {
    hasher: Hasher,
}

impl DataHash {
    /// The hash of a bank that has taken no data yet.
    #[tactic(auto, unfolding(crate::specs::Hashes::HoldsData))]
    pub fn new(bank: Bank) -> DataHash
        ensures { HoldsData result bank [] }
    {
        let hasher = match bank {
            Bank::Sha1 => Hasher::Sha1(Sha1::new()),
            Bank::Sha256 => Hasher::Sha256(Sha256::new()),
            Bank::Sha384 => Hasher::Sha384(Sha384::new()),
            Bank::Sha512 => Hasher::Sha512(Sha512::new()),
        };
        DataHash { hasher }
    }

    /// Takes the bytes in behind the data that it has taken.
    #[tactic(auto, unfolding(crate::specs::Hashes::HoldsData))]
    pub fn update(&mut self, bytes: &[u8])
        ensures { (bank : Bank) (taken : List ℕ) → HoldsData self.old bank taken
            → HoldsData self.new bank (taken ++ bytes.now) }
    {
        match &mut self.hasher {
            Hasher::Sha1(hasher) => hasher.update(bytes),
            Hasher::Sha256(hasher) => hasher.update(bytes),
            Hasher::Sha384(hasher) => hasher.update(bytes),
            Hasher::Sha512(hasher) => hasher.update(bytes),
        }
    }

    /// The digest of the data that it has taken.
    #[tactic(auto, unfolding(crate::specs::Banks::digest_of, crate::specs::Hashes::HoldsData))]
    pub fn finish(self) -> Digest
        ensures bank { (bank : Bank) (taken : List ℕ) → HoldsData self bank taken → bank_of result ≡ bank }
        ensures bytes { (bank : Bank) (taken : List ℕ) → HoldsData self bank taken
            → bytes_of_digest result ≡ digest_of bank taken }
    {
        let bytes = match self.hasher {
            Hasher::Sha1(hasher) => DigestBytes::Sha1(hasher.finalize()),
            Hasher::Sha256(hasher) => DigestBytes::Sha256(hasher.finalize()),
            Hasher::Sha384(hasher) => DigestBytes::Sha384(hasher.finalize()),
            Hasher::Sha512(hasher) => DigestBytes::Sha512(hasher.finalize()),
        };
        Digest { bytes }
    }
}
