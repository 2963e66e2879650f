use fk_base::NoMemory;
use std::alloc::{AllocError, AllocFailed};

/// Why a text is no command's template, in the order in which it is tested.
#[derive(Clone, Copy, Debug, PartialEq, Eq)]
pub enum CommandFault {
    /// There is no word.
    Empty,
    /// The text has more than 512 bytes or more than 32 words.
    TooLong,
    /// The place, from 0, of the first `$` whose name is none of these.
    UnknownName(usize),
    NoMemory,
}

impl From<NoMemory> for CommandFault {
    ghost use Rattle.std.specs.Prelude.{◌≡◌};
    ghost use Rattle.fk_subst.specs.declared.fault.CommandFault.TheVariants.{NoMemory as OutOfMemory};

    ghost from_gives = { λ _ e. e ≡ OutOfMemory };

    fn from(_: NoMemory) -> Self {
        CommandFault::NoMemory
    }
}
