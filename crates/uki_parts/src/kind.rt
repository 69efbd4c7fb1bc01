//! What a part of an image is.

/// What a part of an image is, in the order in which parts are appended.
#[derive(Clone, Copy, Debug, PartialEq, Eq)]
pub enum PartKind {
    /// `.osrel`: the os-release file of the system that the image boots.
    Osrel,
    /// `.cmdline`: the kernel's command line.
    Cmdline,
    /// `.dtb`: the devicetree.
    Dtb,
    /// `.uname`: the kernel's version.
    Uname,
    /// `.splash`: the picture that is shown before the kernel starts.
    Splash,
    /// `.pcrpkey`: the public key of signed PCR values.
    Pcrpkey,
    /// `.initrd`: the initial RAM disk.
    Initrd,
    /// `.ucode`: the microcode that the stub gives to the kernel before the initrd.
    Ucode,
    /// A section with a name that the user gives.
    Extra,
    /// `.sbat`: the metadata by which the boot loader's revocations go.
    Sbat,
    /// `.linux`: the kernel.
    Linux,
}

impl PartKind {
    ghost use Rattle.std.specs.Prelude.{◌≡◌, ◌≤◌, nat_lt, length, IfSome, option_map};
    ghost use Rattle.uki_parts.specs.Kinds.{append_place, kind_name};

    /// Whether parts of this kind are appended after those of the other.
    pub(crate) fn comes_after(self, other: PartKind) -> bool
        ensures { result ≡ nat_lt (append_place other) (append_place self) }
    {
        other.append_place() < self.append_place()
    }

    /// The section name that all parts of the kind have, where they have one.
    pub(crate) fn section_name(self) -> Option<&'static [u8]>
        ensures value { option_map (λ name. name.now) result ≡ kind_name self }
        ensures short { IfSome result (λ name. length name.now ≤ 8) }
    {
        match self {
            PartKind::Osrel => Some(b".osrel"),
            PartKind::Cmdline => Some(b".cmdline"),
            PartKind::Dtb => Some(b".dtb"),
            PartKind::Uname => Some(b".uname"),
            PartKind::Splash => Some(b".splash"),
            PartKind::Pcrpkey => Some(b".pcrpkey"),
            PartKind::Initrd => Some(b".initrd"),
            PartKind::Ucode => Some(b".ucode"),
            PartKind::Extra => None,
            PartKind::Sbat => Some(b".sbat"),
            PartKind::Linux => Some(b".linux"),
        }
    }

    // The place of the kind in the append order, which is that of the variants.
    #[tactic(auto, unfolding(crate::specs::Kinds::append_place))]
    fn append_place(self) -> u8
        ensures { result ≡ append_place self }
    {
        self as u8
    }
}
