ghost use Rattle.std.specs.Prelude.{◌≡◌, ◌<◌, ◌↔◌, [], ◌∷◌, ◌++◌, length, slice_get, IsErr, OnErr, OnOk, Some};

use crate::Pair;
use std::marker::Model;

/// The most pairs in a list.
pub const PAIRS_LIMIT: usize = 16;

/// A list has no room for another pair.
#[derive(Clone, Copy, Debug, PartialEq, Eq)]
pub struct PairsFull;

/// A list of 1 to 16 pairs. It takes no memory.
#[derive(Clone, Drop)]
pub struct Pairs {
    items: [Pair; 16],
    len: usize,
}

impl Model for Pairs {
    ghost use Rattle.std.specs.Prelude.{List, ◌≤◌, length, take};
    ghost use Rattle.fk_base.specs.declared.pair.Pair.{Pair};
    ghost use Rattle.fk_base.specs.Pairs.{IsPairs};

    ghost Value = { List Pair };

    ghost view = { λ p. take p.len p.items };

    ghost invariant = { λ p. (p.len ≤ length p.items) × IsPairs (take p.len p.items) };
}

impl Pairs {
    ghost use Rattle.fk_base.specs.Pairs.{IsPairs};

    pub fn one(pair: Pair) -> Self
        ensures { result ≡ pair ∷ [] }
    {
        Pairs {
            items: [pair; 16],
            len: 1,
        }
    }

    pub fn count(&self) -> usize
        ensures count { result ≡ length self.now }
        ensures bounds { IsPairs self.now }
    {
        self.len
    }

    pub fn get(&self, at: usize) -> Pair
        requires { at < length self.now }
        ensures { slice_get self.now at ≡ Some result }
    {
        let pairs = self.as_slice();
        pairs[at]
    }

    pub fn first(&self) -> Pair
        ensures { slice_get self.now 0 ≡ Some result }
    {
        let pairs = self.as_slice();
        pairs[0]
    }

    /// Adds the pair at the end.
    pub fn push(&mut self, pair: Pair) -> Result<(), PairsFull>
        ensures ok { OnOk result (self.new ≡ self.old ++ pair ∷ []) }
        ensures err { OnErr result (self.new ≡ self.old) }
        ensures full { IsErr result ↔ (length self.old ≡ PAIRS_LIMIT) }
    {
        if self.len == PAIRS_LIMIT {
            return Err(PairsFull);
        }
        self.items[self.len] = pair;
        self.len += 1;
        Ok(())
    }

    /// The pairs in their order.
    pub fn as_slice(&self) -> &[Pair]
        ensures items { result.now ≡ self.now }
        ensures bounds { IsPairs self.now }
    {
        &self.items[..self.len]
    }
}
