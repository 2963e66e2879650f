ghost use Rattle.std.specs.Prelude.{◌≡◌, ◌<◌, ◌≤◌, [], ◌∷◌, ◌++◌, length, map, slice_get, Some};
ghost use Rattle.std.specs.Option.{option_map};
ghost use Rattle.fk_values.specs.Given.{given_at, said_by};
ghost use Rattle.fk_access.specs.AccessTable.{given_in};
ghost use Rattle.fk_access.specs.PairGiven.{pair_given};

use crate::access_name::AccessName;
use crate::key_ring::RING_LIMIT;
use fk_lines::Line;
use fk_values::Given;
use std::marker::Model;

/// The lines of one pair of keys.
#[derive(Clone, Copy)]
pub(crate) struct PairLines<'a> {
    pub(crate) key: Option<Line<'a>>,
    pub(crate) mac_key: Option<Line<'a>>,
    pub(crate) kind: Option<Line<'a>>,
    /// The line that ends it.
    pub(crate) until: Option<Line<'a>>,
}

impl<'a> PairLines<'a> {
    /// Those that are given.
    pub(crate) fn of(given: &Given<'a>) -> Self
        ensures key { given_in (given_at given.now) AccessName.Key ≡ option_map said_by result.key }
        ensures mac_key { given_in (given_at given.now) AccessName.HmacKey ≡ option_map said_by result.mac_key }
        ensures kind { given_in (given_at given.now) AccessName.HmacDigestType ≡ option_map said_by result.kind }
        ensures until { given_in (given_at given.now) AccessName.KeysUntil ≡ option_map said_by result.until }
    {
        PairLines {
            key: AccessName::Key.line_in(given),
            mac_key: AccessName::HmacKey.line_in(given),
            kind: AccessName::HmacDigestType.line_in(given),
            until: AccessName::KeysUntil.line_in(given),
        }
    }

    fn none() -> Self {
        PairLines {
            key: None,
            mac_key: None,
            kind: None,
            until: None,
        }
    }
}

/// The lines of the pairs that a stanza has ended, at most 4. They take no memory.
#[derive(Drop)]
pub(crate) struct EndedPairs<'a> {
    items: [PairLines<'a>; 4],
    len: usize,
}

impl<'a> Model for EndedPairs<'a> {
    ghost use Rattle.std.specs.Prelude.{◌≡◌, List, Option, ◌≤◌, length, map, take};
    ghost use Rattle.fk_lines.specs.Lines.{Setting};
    ghost use Rattle.fk_access.specs.PairGiven.{pair_given};

    ghost Value = { List (List (Option Setting)) };

    ghost view = { λ p. map pair_given (take p.len p.items) };

    ghost invariant = { λ p. (p.len ≤ 4) × (length p.items ≡ 4) };
}

impl<'a> EndedPairs<'a> {
    pub(crate) fn new() -> Self
        ensures { result ≡ [] }
    {
        EndedPairs {
            items: [PairLines::none(); 4],
            len: 0,
        }
    }

    pub(crate) fn count(&self) -> usize
        ensures count { result ≡ length self.now }
        ensures bound { result ≤ RING_LIMIT }
    {
        self.len
    }

    #[tactic(auto, using(crate::proofs::PairsKept::at_kept, crate::proofs::PairsKept::lines_kept))]
    pub(crate) fn get(&self, at: usize) -> PairLines<'a>
        requires { at < length self.now }
        ensures { slice_get self.now at ≡ Some (pair_given result) }
    {
        let pairs = self.as_slice();
        pairs[at]
    }

    fn as_slice(&self) -> &[PairLines<'a>]
        ensures { map pair_given result.now ≡ self.now }
    {
        &self.items[..self.len]
    }

    /// Adds the lines of a pair behind the others.
    pub(crate) fn push(&mut self, pair: PairLines<'a>)
        requires { length self.old < RING_LIMIT }
        ensures { self.new ≡ self.old ++ pair_given pair.entry ∷ [] }
    {
        self.items[self.len] = pair;
        self.len += 1;
    }
}
