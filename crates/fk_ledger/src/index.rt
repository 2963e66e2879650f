//! The digests that a ledger has kept, found by their hash.
ghost use Rattle.std.specs.Prelude.{◌≡◌, ℕ, nat_eq, ◌||◌, List, [], ◌∷◌, ◌++◌, ◌+◌, ◌≤◌, ◌<◌, length, OnOk};
ghost use Rattle.std.specs.Cmp.Lexicographic.{pointwise};
ghost use Rattle.std.specs.HashSet.{hash_set_len, spare};
ghost use Rattle.fk_trace.specs.declared.change.Change.{Change};
ghost use Rattle.fk_ledger.specs.Index.{holds, Indexes};

use fk_base::Digest;
use fk_trace::Change;
use std::alloc::{AllocError, Global};
use std::collections::HashSet;

/// The digests of a ledger's records.
pub(crate) type Index = HashSet<[u8; 32]>;

/// The index of the ledger that has no change.
pub(crate) fn empty_index(alloc: Global) -> Index
    ensures { Indexes result [] }
{
    HashSet::new(alloc)
}

/// Whether a record has this digest.
pub(crate) fn holds(index: &Index, digest: &Digest) -> bool
    ensures { result ≡ holds digest.now.0 index.now }
{
    index.contains(&digest.0)
}

/// Makes room for the digests of so many changes more.
pub(crate) fn widen(index: &mut Index, more: usize) -> Result<(), AllocError>
    ensures same { (digest : List ℕ) → holds digest index.new ≡ holds digest index.old }
    ensures ok { OnOk result (more ≤ spare index.new) }
    ensures len { hash_set_len index.new ≡ hash_set_len index.old }
    ensures spare { spare index.old ≤ spare index.new }
{
    index.reserve(more)
}

/// Adds the digest that the change has, if any. No memory is taken.
pub(crate) fn add(index: &mut Index, change: &Change)
    requires { 0 < spare index.old }
    ensures held { (ledger : List Change) → Indexes index.old ledger → Indexes index.new (ledger ++ change.now ∷ []) }
    ensures spare { spare index.old ≤ spare index.new + 1 }
{
    match change {
        Change::Open(item) => insert(index, &item.digest),
        Change::Settled { digest, .. } => insert(index, digest),
        Change::Done(_) => (),
        Change::Floor { .. } => (),
    }
}

/// Adds a digest. No memory is taken.
fn insert(index: &mut Index, digest: &Digest)
    requires { 0 < spare index.old }
    ensures held { (other : List ℕ) → holds other index.new ≡ (pointwise nat_eq digest.now.0 other || holds other index.old) }
    ensures spare { spare index.old ≤ spare index.new + 1 }
{
    let _fits = index.insert(digest.0);
}

/// Makes it the index of these changes. No memory is taken.
pub(crate) fn index_anew(index: &mut Index, changes: &[Change])
    requires { length changes.now ≤ hash_set_len index.old + spare index.old }
    ensures held { Indexes index.new changes.now }
    ensures spare { hash_set_len index.old + spare index.old ≤ spare index.new + length changes.now }
{
    index.clear();
    for change in changes {
        add(index, change);
    }
}
