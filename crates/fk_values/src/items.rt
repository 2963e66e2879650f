ghost use Rattle.std.specs.Prelude.{◌≡◌, [], ◌∷◌, MatchOption};
ghost use Rattle.fk_values.specs.Values.{items_of};

use fk_base::Parts;
use fk_lines::trim_front;
use std::marker::Model;

/// The items of a list that are left: what stands between its commas, without the blanks behind them.
#[derive(Drop)]
pub struct Items<'a> {
    parts: Parts<'a>,
    // whether the first part was taken
    begun: bool,
}

impl<'a> Model for Items<'a> {
    ghost use Rattle.std.specs.Prelude.{List, ℕ};
    ghost use Rattle.fk_values.specs.Private.{items_left};

    ghost Value = { List (List ℕ) };

    ghost view = { λ i. items_left i.begun i.parts };
}

impl<'a> Items<'a> {
    pub fn new(list: &'a [u8]) -> Self
        ensures { result ≡ items_of list.now }
    {
        Items {
            parts: Parts::new(list, b','),
            begun: false,
        }
    }

    /// Takes the next item.
    pub fn next(&mut self) -> Option<&'a [u8]>
        ensures { MatchOption result ((self.old ≡ []) × (self.new ≡ [])) (λ item. self.old ≡ item.now ∷ self.new) }
    {
        let part = self.parts.next()?;
        if self.begun {
            return Some(trim_front(part));
        }
        self.begun = true;
        Some(part)
    }
}
