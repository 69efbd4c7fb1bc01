//! Where boot files stand below a partition.

/// The folder of the entries of type 1 (UAPI Boot Loader Specification).
pub const ENTRIES: &str = "loader/entries";

/// The folder of the entries of type 2, which are unified kernel images (UAPI Boot Loader Specification).
pub const IMAGES: &str = "EFI/Linux";

/// The folder of the payloads that this program puts there: kernels and initrds, each under the digest of its bytes.
pub const PAYLOADS: &str = "boot_tools";
