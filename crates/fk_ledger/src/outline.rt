//! What the changes that were read say of those that may follow.
ghost use Rattle.std.specs.Prelude.{◌≡◌, ℕ, nat_eq, nat_le, ◌||◌, ◌&&◌, List, [], ◌∷◌, ◌++◌, ◌<◌, ◌^◌, OnOk};
ghost use Rattle.std.specs.HashSet.{contains};
ghost use Rattle.fk_trace.specs.declared.change.Change.{Change};
ghost use Rattle.fk_trace.specs.Ledger.{next_by};
ghost use Rattle.fk_ledger.specs.Private.{is_below, opens_id, settles_id};
ghost use Rattle.fk_ledger.specs.Index.{Outlines, above_by};

use crate::changes::next_by;
use crate::index::{Index, add, empty_index, widen};
use fk_trace::Change;
use std::alloc::{AllocError, Global};
use std::collections::HashSet;

/// What the changes so far say of those that may follow.
#[derive(Drop)]
pub(crate) struct Outline {
    pub(crate) next: u64,
    // no record has this number or one above it
    pub(crate) above: u64,
    pub(crate) digests: Index,
    // the numbers of the records that stand in the ledger whole
    pub(crate) opened: HashSet<u64>,
    // the numbers of those that are closed for good
    pub(crate) closed: HashSet<u64>,
}

/// What no change says.
pub(crate) fn empty_outline(alloc: Global) -> Outline
    ensures { Outlines result [] }
{
    Outline {
        next: 1,
        above: 0,
        digests: empty_index(alloc),
        opened: HashSet::new(alloc),
        closed: HashSet::new(alloc),
    }
}

/// Notes what one change more says.
pub(crate) fn note(outline: &mut Outline, change: &Change) -> Result<(), AllocError>
    requires { next_by change.now outline.old.next < 2 ^ 64 }
    ensures { OnOk result ((ledger : List Change) → Outlines outline.old ledger → Outlines outline.new (ledger ++ change.now ∷ [])) }
{
    widen(&mut outline.digests, 1)?;
    add(&mut outline.digests, change);
    note_opened(&mut outline.opened, change)?;
    note_closed(&mut outline.closed, change)?;
    outline.above = above_by(change, outline.above, outline.next);
    outline.next = next_by(change, outline.next);
    Ok(())
}

/// The number above those of the records, where it was this one before the change.
fn above_by(change: &Change, above: u64, next: u64) -> u64
    requires { next_by change.now next < 2 ^ 64 }
    ensures { result ≡ above_by change.now above }
{
    match change {
        Change::Open(item) => above.max(item.id + 1),
        Change::Done(_) => above,
        Change::Settled { id, .. } => above.max(*id + 1),
        Change::Floor { .. } => above,
    }
}

fn note_opened(opened: &mut HashSet<u64>, change: &Change) -> Result<(), AllocError>
    ensures { OnOk result ((id : ℕ) → contains nat_eq opened.new id ≡ (opens_id id change.now || contains nat_eq opened.old id)) }
{
    match change {
        Change::Open(item) => put(opened, item.id),
        Change::Done(_) => Ok(()),
        Change::Settled { .. } => Ok(()),
        Change::Floor { .. } => Ok(()),
    }
}

fn note_closed(closed: &mut HashSet<u64>, change: &Change) -> Result<(), AllocError>
    ensures { OnOk result ((id : ℕ) → contains nat_eq closed.new id ≡ (settles_id id change.now || contains nat_eq closed.old id)) }
{
    match change {
        Change::Open(_) => Ok(()),
        Change::Done(id) => put(closed, *id),
        Change::Settled { .. } => Ok(()),
        Change::Floor { .. } => Ok(()),
    }
}

fn put(numbers: &mut HashSet<u64>, number: u64) -> Result<(), AllocError>
    ensures { OnOk result ((id : ℕ) → contains nat_eq numbers.new id ≡ (nat_eq number id || contains nat_eq numbers.old id)) }
{
    numbers.reserve(1)?;
    let _fits = numbers.insert(number);
    Ok(())
}
