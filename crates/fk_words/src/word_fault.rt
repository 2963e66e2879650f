use fk_base::NoMemory;

/// Why a command line asks for nothing, in the order in which it is tested. Places are counted from 1.
#[derive(Clone, Copy, Debug, PartialEq, Eq)]
pub enum WordFault {
    /// The word at this place is no option, and no command or operand of `fko`.
    Unknown(usize),
    /// The option at this place stood before.
    Twice(usize),
    /// No value follows the option at this place.
    NoValue(usize),
    /// The word at this place is no value of the option before it, or none of the operand that it is to be.
    BadValue(usize),
    /// The options make no set, or an operand is missing.
    Modes,
    NoMemory,
}

impl From<NoMemory> for WordFault {
    ghost use Rattle.std.specs.Prelude.{◌≡◌};
    ghost use Rattle.fk_words.specs.declared.word_fault.WordFault.TheVariants.{NoMemory as OutOfMemory};

    ghost from_gives = { λ _ e. e ≡ OutOfMemory };

    fn from(_: NoMemory) -> Self {
        WordFault::NoMemory
    }
}
