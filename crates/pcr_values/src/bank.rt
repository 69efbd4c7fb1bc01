//! The banks of a TPM.
ghost use Rattle.std.specs.Prelude.{◌≡◌};
ghost use Rattle.pcr_values.specs.Prelude.{bank_name, bank_named, digest_length};

/// A bank of registers, named for its hash function.
#[derive(Clone, Copy, Debug, PartialEq, Eq)]
pub enum Bank {
    /// SHA-1.
    Sha1,
    /// SHA-256.
    Sha256,
    /// SHA-384.
    Sha384,
    /// SHA-512.
    Sha512,
}

impl Bank {
    /// All banks in their order.
    pub const ALL: [Bank; 4] = [Bank::Sha1, Bank::Sha256, Bank::Sha384, Bank::Sha512];

    /// The bank of a name; `None` where no bank has it.
    pub fn from_name(name: &str) -> Option<Bank>
        ensures { result ≡ bank_named name.now }
    {
        Bank::ALL.iter().copied().find(|bank| bank.name() == name)
    }

    /// How many bytes a digest of the bank has, which is the length of its registers as well.
    pub fn length(&self) -> usize
        ensures { result ≡ digest_length self.now }
    {
        match self {
            Bank::Sha1 => 20,
            Bank::Sha256 => 32,
            Bank::Sha384 => 48,
            Bank::Sha512 => 64,
        }
    }

    /// The bank's name as systemd's tools write it: `sha1`, `sha256`, `sha384` or `sha512`.
    pub fn name(&self) -> &'static str
        ensures { result.now ≡ bank_name self.now }
    {
        match self {
            Bank::Sha1 => "sha1",
            Bank::Sha256 => "sha256",
            Bank::Sha384 => "sha384",
            Bank::Sha512 => "sha512",
        }
    }
}
