ghost use Rattle.std.specs.Prelude.{◌≡◌};

use std::marker::Model;

/// The end of a clean close that ended well. Only `Machine::ended` makes one, so a record is settled by nothing else.
#[derive(Drop)]
pub struct CloseEnd {
    id: u64,
}

impl Model for CloseEnd {
    ghost use Rattle.std.specs.Prelude.{ℕ};

    ghost Value = { ℕ };

    ghost view = { λ e. e.id };
}

impl CloseEnd {
    pub(crate) fn new(id: u64) -> Self
        ensures { result ≡ id }
    {
        CloseEnd { id }
    }

    /// The number of the record that is settled.
    pub fn id(&self) -> u64
        ensures { result ≡ self.now }
    {
        self.id
    }
}

/// What follows from the end of a child.
#[derive(Drop)]
pub enum Act {
    Nothing,
    /// A close ended well while its record's open runs. The record is idle again when that open ends.
    Wait,
    /// The record is settled, and is no longer kept.
    Settle(CloseEnd),
}
