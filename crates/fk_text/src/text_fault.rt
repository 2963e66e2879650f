use fk_base::NoMemory;

/// Why bytes are no text, in the order in which it is tested.
#[derive(Clone, Copy, Debug, PartialEq, Eq)]
pub enum TextFault {
    /// The first place whose byte is no letter.
    BadByte(usize),
    /// All bytes are letters, and no list of bytes has a text of this length.
    BadLength,
    /// The last letter holds bits past the last byte that are not zero.
    LooseBits,
    NoMemory,
}

impl From<NoMemory> for TextFault {
    ghost use Rattle.std.specs.Prelude.{◌≡◌};
    ghost use Rattle.fk_text.specs.declared.text_fault.TextFault.TheVariants.{NoMemory as OutOfMemory};

    ghost from_gives = { λ _ e. e ≡ OutOfMemory };

    fn from(_: NoMemory) -> Self {
        TextFault::NoMemory
    }
}
