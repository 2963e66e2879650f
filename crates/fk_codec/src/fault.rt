use fk_base::NoMemory;

/// Why a text is no plaintext, in the order in which it is tested. Parts are counted from 1.
#[derive(Clone, Copy, Debug, PartialEq, Eq)]
pub enum DecodeFault {
    /// The text ends before this part.
    Missing(u32),
    /// The first part that breaks its rule, or that is one too many.
    Bad(u32),
    /// A type of request that is not served: any from 0 to 6 but 1 and 3.
    KindOut(u8),
    /// No hash has a digest of this length.
    DigestLength,
    /// The digest is not that of the parts before it.
    DigestDiffers,
    NoMemory,
}

impl From<NoMemory> for DecodeFault {
    ghost use Rattle.std.specs.Prelude.{◌≡◌};
    ghost use Rattle.fk_codec.specs.declared.fault.DecodeFault.TheVariants.{NoMemory as OutOfMemory};

    ghost from_gives = { λ _ e. e ≡ OutOfMemory };

    fn from(_: NoMemory) -> Self {
        DecodeFault::NoMemory
    }
}
