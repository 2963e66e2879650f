ghost use Rattle.std.specs.Prelude.{◌≡◌, ◌≤◌, SomeIff};

use std::marker::Model;

/// The last second that twelve decimal digits can write.
pub const GREATEST_MOMENT: u64 = 999_999_999_999;

/// The longest time for which a door opens, in seconds: a week.
pub const LONGEST_TIME: u64 = 604_800;

/// A time of day, in whole seconds since the start of 1970.
#[derive(Clone, Copy, Debug, PartialEq, Eq)]
pub struct Moment {
    value: u64,
}

impl Model for Moment {
    ghost use Rattle.std.specs.Prelude.{ℕ, ◌≤◌};
    ghost use Rattle.fk_base.specs.declared.moment.TheConstants.{GREATEST_MOMENT};

    ghost Value = { ℕ };

    ghost view = { λ m. m.value };

    ghost invariant = { λ m. m.value ≤ GREATEST_MOMENT };

    ghost inverse = { λ n. record { value = n } };
}

impl Moment {
    /// `None` past the greatest moment.
    pub fn new(value: u64) -> Option<Self>
        ensures { SomeIff result (value ≤ GREATEST_MOMENT) value }
    {
        if value <= GREATEST_MOMENT {
            Some(Moment { value })
        } else {
            None
        }
    }

    /// The seconds since the start of 1970.
    pub fn get(self) -> u64
        ensures value { result ≡ self }
        ensures bound { result ≤ GREATEST_MOMENT }
    {
        self.value
    }
}
