use fk_base::NoMemory;

/// Why a turn is cut, and with it the run.
#[derive(Clone, Copy, Debug, PartialEq, Eq)]
pub enum TurnErr {
    /// A call of the disk failed.
    Disk,
    NoMemory,
}

impl From<NoMemory> for TurnErr {
    ghost use Rattle.std.specs.Prelude.{◌≡◌};
    ghost use Rattle.fk_turn.specs.declared.turn_err.TurnErr.TheVariants.{NoMemory as OutOfMemory};

    ghost from_gives = { λ _ e. e ≡ OutOfMemory };

    fn from(_: NoMemory) -> Self {
        TurnErr::NoMemory
    }
}
