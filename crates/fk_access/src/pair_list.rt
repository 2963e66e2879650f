ghost use Rattle.std.specs.Prelude.{◌≡◌, ◌<◌, ◌≤◌, [], ◌∷◌, ◌++◌, length, slice_get, Some};
ghost use Rattle.std.specs.Bool.{OnFalse, OnTrue};
ghost use Rattle.fk_access.specs.AccessValues.{pairs_in};

use fk_base::{Pair, find_pair};
use fk_values::Items;
use std::marker::Model;

/// The most pairs of a stanza's list.
const PAIRS_LIMIT: usize = 64;

/// The pairs that a stanza permits or bars: 1 to 64. It takes no memory.
#[derive(Drop)]
pub struct PairList {
    items: [Pair; 64],
    len: usize,
}

impl Model for PairList {
    ghost use Rattle.std.specs.Prelude.{List, ◌≤◌, length, take};
    ghost use Rattle.fk_base.specs.declared.pair.Pair.{Pair};

    ghost Value = { List Pair };

    ghost view = { λ p. take p.len p.items };

    ghost invariant = { λ p. (1 ≤ p.len) × (p.len ≤ length p.items) × (length p.items ≤ 64) };
}

impl PairList {
    fn one(pair: Pair) -> Self
        ensures { result ≡ pair ∷ [] }
    {
        PairList {
            items: [pair; 64],
            len: 1,
        }
    }

    pub fn count(&self) -> usize
        ensures count { result ≡ length self.now }
        ensures bounds { (1 ≤ result) × (result ≤ 64) }
    {
        self.len
    }

    pub fn get(&self, at: usize) -> Pair
        requires { at < length self.now }
        ensures { slice_get self.now at ≡ Some result }
    {
        let pairs = self.as_slice();
        pairs[at]
    }

    /// The pairs in their order.
    pub fn as_slice(&self) -> &[Pair]
        ensures { result.now ≡ self.now }
    {
        &self.items[..self.len]
    }

    /// Adds the pair at the end, where there is room.
    fn push(&mut self, pair: Pair) -> bool
        ensures ok { OnTrue result ((length self.old < PAIRS_LIMIT) × (self.new ≡ self.old ++ pair ∷ [])) }
        ensures full { OnFalse result (length self.old ≡ PAIRS_LIMIT) }
    {
        if self.len == PAIRS_LIMIT {
            return false;
        }
        self.items[self.len] = pair;
        self.len += 1;
        true
    }
}

/// The pairs of a list of 1 to 64 of them.
pub(crate) fn read_pairs(value: &[u8]) -> Option<PairList>
    ensures { result ≡ pairs_in value.now }
{
    let mut items = Items::new(value);
    let mut pairs = PairList::one(find_pair(items.next()?)?);
    while let Some(item) = items.next() {
        if !pairs.push(find_pair(item)?) {
            return None;
        }
    }
    Some(pairs)
}
