//! Lists of changes: read from a journal's entries, and asked for what they say.
ghost use Rattle.std.specs.Prelude.{◌≡◌, ◌↔◌, ℕ, List, ◌==◌, nat_eq, nat_le, not, ◌&&◌, ◌<◌, ◌^◌, [], ◌∷◌, IfOk, IsErrOf, IsTrue};
ghost use Rattle.std.specs.List.{find, list_any};
ghost use Rattle.std.specs.Option.{option_copied, option_to_list};
ghost use Rattle.fk_trace.specs.declared.change.Change.{Change};
ghost use Rattle.fk_trace.specs.Ledger.{live, opened_by, opens, floor_by, floor_of, first_free, next_by, next_id, IsNumber, IsSeen, MayFollow};
ghost use Rattle.fk_journal.specs.Entries.{ArePlacedFrom, content_of_entry, contents_of};
ghost use Rattle.fk_journal.specs.declared.fault.JournalErr.TheVariants.{Disk as DiskFails};
ghost use Rattle.fk_ledger.specs.Book.{live_ids};
ghost use Rattle.fk_ledger.specs.Holds.{Breaks, IsBroken};
ghost use Rattle.fk_ledger.specs.Payloads.{content_of, IsChange};
ghost use Rattle.fk_ledger.specs.Private.{AreLedger, said_in, has_digest, ids_of, opens_id, settles_id};
ghost use Rattle.fk_ledger.specs.Index.{Outlines};
ghost use Rattle.std.specs.HashSet.{contains};

use crate::index::holds;
use crate::older::{Format, change_of};
use crate::outline::{Outline, empty_outline, note};
use crate::reading::PayloadErr;
use crate::{LedgerErr, Owed};
use fk_base::Digest;
use fk_journal::Entry;
use fk_trace::{Change, OpenRecord};
use std::alloc::{AllocError, Global};

/// The ledger that the entries are, or the place of the first that is broken.
pub(crate) fn changes_of(
    alloc: Global,
    entries: &[Entry],
    format: Format,
) -> Result<Vec<Change>, LedgerErr>
    requires { ArePlacedFrom 1 entries.now }
    ensures held { IfOk result (λ changes. AreLedger (said_in format) (contents_of entries.now) changes.items) }
    ensures numbers { IfOk result (λ changes. next_id changes.items < 2 ^ 64) }
    ensures damaged { (place : ℕ) → IsErrOf result (LedgerErr.Damaged place) → Breaks (said_in format) (contents_of entries.now) place }
    ensures other { IsErrOf result DiskFails → ⊥ }
{
    match outlined_changes_of(alloc, entries, format) {
        Ok((changes, _outline)) => Ok(changes),
        Err(fault) => Err(fault),
    }
}

/// The ledger that the entries are, and its outline, or the place of the first that is broken.
pub(crate) fn outlined_changes_of(
    alloc: Global,
    entries: &[Entry],
    format: Format,
) -> Result<(Vec<Change>, Outline), LedgerErr>
    requires { ArePlacedFrom 1 entries.now }
    ensures held { IfOk result (λ r. AreLedger (said_in format) (contents_of entries.now) r.0.items) }
    ensures numbers { IfOk result (λ r. next_id r.0.items < 2 ^ 64) }
    ensures outline { IfOk result (λ r. Outlines r.1 r.0.items) }
    ensures damaged { (place : ℕ) → IsErrOf result (LedgerErr.Damaged place) → Breaks (said_in format) (contents_of entries.now) place }
    ensures other { IsErrOf result DiskFails → ⊥ }
{
    let mut changes = Vec::new(alloc);
    let mut outline = empty_outline(alloc);
    for entry in entries {
        let change = next_change(alloc, &changes, &outline, entry, format)?;
        note(&mut outline, &change)?;
        changes.push(change)?;
    }
    Ok((changes, outline))
}

/// The change that the entry says, where it may stand behind the others.
fn next_change(
    alloc: Global,
    changes: &[Change],
    outline: &Outline,
    entry: &Entry,
    format: Format,
) -> Result<Change, LedgerErr>
    requires { Outlines outline.now changes.now }
    ensures found { IfOk result (λ change. IsChange change × (said_in format (content_of_entry entry.now) ≡ content_of change) × MayFollow changes.now change) }
    ensures damaged { (place : ℕ) → IsErrOf result (LedgerErr.Damaged place) → (place ≡ entry.now.place) × IsBroken changes.now (said_in format (content_of_entry entry.now)) }
    ensures other { IsErrOf result DiskFails → ⊥ }
{
    match change_of(alloc, format, entry.kind, entry.payload.as_slice()) {
        Ok(change) => {
            if may_follow(changes, outline, &change) {
                Ok(change)
            } else {
                Err(LedgerErr::Damaged(entry.place))
            }
        }
        Err(PayloadErr::Malformed) => Err(LedgerErr::Damaged(entry.place)),
        Err(PayloadErr::NoMemory) => Err(LedgerErr::NoMemory),
    }
}

/// Whether the change may stand behind the others.
fn may_follow(changes: &[Change], outline: &Outline, change: &Change) -> bool
    requires { Outlines outline.now changes.now }
    ensures { IsTrue result ↔ MayFollow changes.now change.now }
{
    match change {
        Change::Open(item) => is_new(changes, outline, item.id, &item.digest),
        Change::Done(id) => is_live(outline, *id),
        Change::Settled { id, digest, .. } => is_new(changes, outline, *id, digest),
        Change::Floor { .. } => changes.is_empty(),
    }
}

/// Whether a record may have this number and digest.
fn is_new(changes: &[Change], outline: &Outline, id: u64, digest: &Digest) -> bool
    requires { Outlines outline.now changes.now }
    ensures { IsTrue result ↔ (IsNumber changes.now id × (IsSeen digest.now.0 changes.now → ⊥)) }
{
    is_number(changes, outline, id) && !holds(&outline.digests, digest)
}

/// Whether a record may have this number.
fn is_number(changes: &[Change], outline: &Outline, id: u64) -> bool
    requires { Outlines outline.now changes.now }
    ensures { IsTrue result ↔ IsNumber changes.now id }
{
    are_below(outline, id) && (id < first_free(changes) || id == outline.next)
}

/// Whether each record has a number below this one.
fn are_below(outline: &Outline, id: u64) -> bool
    ensures { result ≡ nat_le outline.now.above id }
{
    outline.above <= id
}

/// Whether a record of this number is there that is not closed for good.
fn is_live(outline: &Outline, id: u64) -> bool
    ensures { result ≡ (contains nat_eq outline.now.opened id && not (contains nat_eq outline.now.closed id)) }
{
    outline.opened.contains(&id) && !outline.closed.contains(&id)
}

/// The first number that was free where the ledger began.
fn first_free(changes: &[Change]) -> u64
    ensures { result ≡ first_free changes.now }
{
    match changes.first() {
        Some(Change::Floor { next, .. }) => *next,
        _ => 1,
    }
}

/// The number of the next record after the change, where it was this one before it.
pub(crate) fn next_by(change: &Change, next: u64) -> u64
    requires { next_by change.now next < 2 ^ 64 }
    ensures { result ≡ next_by change.now next }
{
    match change {
        Change::Open(item) => next.max(item.id + 1),
        Change::Done(_) => next,
        Change::Settled { id, .. } => next.max(*id + 1),
        Change::Floor { next: first, .. } => next.max(*first),
    }
}

/// The floor.
pub(crate) fn floor_of(changes: &[Change]) -> u64
    ensures { result ≡ floor_of changes.now }
{
    let mut lower = 0;
    for change in changes {
        lower = floor_by(change, lower);
    }
    lower
}

fn floor_by(change: &Change, lower: u64) -> u64
    ensures { result ≡ floor_by change.now lower }
{
    match change {
        Change::Floor { floor, .. } => *floor,
        _ => lower,
    }
}

/// The live record of this number.
pub(crate) fn live_record(changes: &[Change], id: u64) -> Option<&OpenRecord>
    ensures { option_copied result ≡ find (λ item. item.id == id) (live changes.now) }
{
    if is_done(changes, id) {
        return None;
    }
    opened_by(opening(changes, id)?)
}

/// The record that the change made.
fn opened_by(change: &Change) -> Option<&OpenRecord>
    ensures { option_copied result ≡ opened_by change.now }
{
    match change {
        Change::Open(item) => Some(item),
        _ => None,
    }
}

/// The change that made the record of this number.
fn opening(changes: &[Change], id: u64) -> Option<&Change>
    ensures { option_copied result ≡ find (opens_id id) changes.now }
{
    changes.iter().find(|change| opens_id(change, id))
}

fn opens_id(change: &Change, id: u64) -> bool
    ensures { result ≡ opens_id id change.now }
{
    match change {
        Change::Open(item) => item.id == id,
        _ => false,
    }
}

/// Whether the record of this number is closed for good.
fn is_done(changes: &[Change], id: u64) -> bool
    ensures { result ≡ list_any (settles_id id) changes.now }
{
    changes.iter().any(|change| settles_id(change, id))
}

fn settles_id(change: &Change, id: u64) -> bool
    ensures { result ≡ settles_id id change.now }
{
    match change {
        Change::Done(done) => *done == id,
        _ => false,
    }
}

/// The numbers of the live records, rising.
pub(crate) fn live_ids(
    alloc: Global,
    changes: &[Change],
    outline: &Outline,
) -> Result<Vec<u64>, AllocError>
    requires { Outlines outline.now changes.now }
    ensures { IfOk result (λ ids. ids.items ≡ live_ids changes.now) }
{
    let mut ids = Vec::new(alloc);
    for change in changes {
        if let Some(id) = live_id(outline, change) {
            ids.push(id)?;
        }
    }
    Ok(ids)
}

/// The number of the record that the change made, if it is live.
fn live_id(outline: &Outline, change: &Change) -> Option<u64>
    ensures { (ledger : List Change) → Outlines outline.now ledger → option_to_list result ≡ ids_of ledger (opens (change.now ∷ [])) }
{
    match change {
        Change::Open(item) => {
            if outline.closed.contains(&item.id) {
                None
            } else {
                Some(item.id)
            }
        }
        Change::Done(_) => None,
        Change::Settled { .. } => None,
        Change::Floor { .. } => None,
    }
}

/// One `Owed` for each number.
pub(crate) fn owed_of(alloc: Global, ids: &[u64]) -> Result<Vec<Owed>, AllocError>
    ensures { IfOk result (λ owed. owed.items ≡ ids.now) }
{
    let mut owed = Vec::with_capacity(alloc, ids.len())?;
    for id in ids {
        owed.push_reserved(Owed::new(*id));
    }
    Ok(owed)
}

/// Spends each of them.
pub(crate) fn spend_all(mut owed: Vec<Owed>) {
    while let Some(last) = owed.pop() {
        last.spend();
    }
    owed.destroy_empty();
}
