ghost use Rattle.std.specs.Prelude.{◌≡◌};

use std::marker::Model;

/// The close of one live record, which is owed until it has ended well. `Ledger::open` and `Ledger::record` alone hand one out,
/// and `Ledger::settle` and `Ledger::park` alone take it.
pub struct Owed {
    id: u64,
}

impl Model for Owed {
    ghost use Rattle.std.specs.Prelude.{ℕ};

    ghost Value = { ℕ };

    ghost view = { λ o. o.id };
}

impl Owed {
    pub(crate) fn new(id: u64) -> Self
        ensures { result ≡ id }
    {
        Owed { id }
    }

    /// The number of the record.
    pub fn id(&self) -> u64
        ensures { result ≡ self.now }
    {
        self.id
    }

    pub(crate) fn spend(self) {
        let Owed { id: _ } = self;
    }
}
