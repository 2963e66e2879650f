ghost use Rattle.std.specs.Prelude.{◌≡◌, ◌<◌, ◌≤◌, length, slice_get, Some};

use fk_mac::PreparedKeys;
use std::marker::Model;

/// The most pairs of keys of a stanza.
pub const RING_LIMIT: usize = 4;

/// A pair of keys, and how long it is used.
#[derive(Drop)]
pub struct TimedKeys {
    pub keys: PreparedKeys,
    /// The last moment at which it lets anybody in, in seconds since the start of 1970; without one it has no end.
    pub until: Option<u64>,
}

/// The pairs of keys of a stanza, in the order of the file: 1 to 4.
#[derive(Drop)]
pub struct KeyRing {
    pairs: Vec<TimedKeys>,
}

impl Model for KeyRing {
    ghost use Rattle.std.specs.Prelude.{List, ◌≤◌, length};
    ghost use Rattle.fk_access.specs.declared.key_ring.TimedKeys.{TimedKeys};

    ghost Value = { List TimedKeys };

    ghost view = { λ r. r.pairs.items };

    ghost invariant = { λ r. (1 ≤ length r.pairs.items) × (length r.pairs.items ≤ 4) };
}

impl KeyRing {
    pub(crate) fn of(pairs: Vec<TimedKeys>) -> Self
        requires { (1 ≤ length pairs.items) × (length pairs.items ≤ RING_LIMIT) }
        ensures { result ≡ pairs.items }
    {
        KeyRing { pairs }
    }

    pub fn count(&self) -> usize
        ensures count { result ≡ length self.now }
        ensures bounds { (1 ≤ result) × (result ≤ RING_LIMIT) }
    {
        self.pairs.len()
    }

    pub fn get(&self, at: usize) -> &TimedKeys
        requires { at < length self.now }
        ensures { slice_get self.now at ≡ Some result.now }
    {
        &self.pairs[at]
    }
}
