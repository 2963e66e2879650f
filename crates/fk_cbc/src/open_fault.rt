use fk_base::NoMemory;
use std::alloc::AllocError;

/// Why sealed bytes are not opened, in the order in which it is tested.
#[derive(Clone, Copy, Debug, PartialEq, Eq)]
pub enum OpenFault {
    /// The first eight bytes are not `Salted__`.
    NotSalted,
    /// Fewer than 32 bytes, or no multiple of 16.
    BadLength,
    /// The deciphered text does not end in n bytes of one value n from 1 to 16.
    BadPadding,
    NoMemory,
}

impl From<NoMemory> for OpenFault {
    ghost use Rattle.std.specs.Prelude.{◌≡◌};
    ghost use Rattle.fk_cbc.specs.declared.open_fault.OpenFault.TheVariants.{NoMemory as OutOfMemory};

    ghost from_gives = { λ _ e. e ≡ OutOfMemory };

    fn from(_: NoMemory) -> Self {
        OpenFault::NoMemory
    }
}

impl From<AllocError> for OpenFault {
    ghost use Rattle.std.specs.Prelude.{◌≡◌};
    ghost use Rattle.fk_cbc.specs.declared.open_fault.OpenFault.TheVariants.{NoMemory as OutOfMemory};

    ghost from_gives = { λ _ e. e ≡ OutOfMemory };

    fn from(_: AllocError) -> Self {
        OpenFault::NoMemory
    }
}
