ghost use Rattle.std.specs.Prelude.{◌≡◌};
ghost use Rattle.fk_journal.specs.declared.fault.JournalErr.TheVariants.{Disk, NoMemory as Short};

use fk_base::{Failed, NoMemory};
use std::alloc::{AllocError, AllocFailed};

/// Why a journal can't be opened or read.
#[derive(Debug, Drop)]
pub enum JournalErr {
    /// A call of the disk failed.
    Disk,
    /// The first place at which the area is not in the format.
    Damaged(u64),
    NoMemory,
}

impl From<Failed> for JournalErr {
    ghost from_gives = { λ _ e. e ≡ Disk };

    fn from(_: Failed) -> Self {
        JournalErr::Disk
    }
}

impl From<NoMemory> for JournalErr {
    ghost from_gives = { λ _ e. e ≡ Short };

    fn from(_: NoMemory) -> Self {
        JournalErr::NoMemory
    }
}

impl From<AllocError> for JournalErr {
    ghost from_gives = { λ _ e. e ≡ Short };

    fn from(_: AllocError) -> Self {
        JournalErr::NoMemory
    }
}

impl<T: Drop> From<AllocFailed<T>> for JournalErr {
    ghost from_gives = { λ _ e. e ≡ Short };

    fn from(_: AllocFailed<T>) -> Self {
        JournalErr::NoMemory
    }
}
