//! A ledger of the format before this one is written in this one.
ghost use Rattle.std.specs.Prelude.{◌≡◌, ◌≤◌, ℕ, IfOk, IfSome, IsErrOf, is_ok, length, vec_capacity};
ghost use Rattle.std.specs.List.{AllByRecursion};
ghost use Rattle.fk_host.specs.Count.{HasCauseBy};
ghost use Rattle.fk_host.specs.Disk.{IfTold, LeavesAreas, LeavesHost};
ghost use Rattle.fk_journal.specs.Entries.{ArePlacedFrom, area_bytes, contents_of};
ghost use Rattle.fk_journal.specs.Keeps.{selected, IsSettled, is_disk_fault};
ghost use Rattle.fk_journal.specs.declared.fault.JournalErr.TheVariants.{Disk as DiskFails};
ghost use Rattle.fk_ledger.specs.Anew.{entry_of};
ghost use Rattle.fk_ledger.specs.Holds.{Breaks};
ghost use Rattle.fk_ledger.specs.Older.{stamped};
ghost use Rattle.fk_ledger.specs.Payloads.{content_of, ledger_contents, IsChange};
ghost use Rattle.fk_ledger.specs.Private.{IsNoOlderAt, MigratesTo};
ghost use Rattle.fk_ledger.specs.Stretch.{Migrates, UnlessOlder};

use crate::LedgerErr;
use crate::anew::begin_anew;
use crate::changes::{live_ids, outlined_changes_of};
use crate::older::Format;
use crate::writing::{write_done, write_floor, write_record, write_settled};
use fk_base::NoMemory;
use fk_host::Disk;
use fk_journal::{Entry, add_to_list, begin_list, close_list, read_older, replace};
use fk_trace::Change;
use std::alloc::Global;

/// The greatest number that a Floor gives to the next record.
const GREATEST_NEXT: u64 = 9_223_372_036_854_775_808;

/// How many bytes the payload of a record has at most.
const LONGEST: usize = 12_136;

/// Writes the ledger of an area of the older format in this one: it begins anew with the floor 0, in the other area, which Head selects
/// then. `Damaged(0)` is answered where the area is not of that format.
pub(crate) fn migrate<D: Disk>(alloc: Global, disk: &mut D) -> Result<(), LedgerErr>
    requires { IfSome (D.told disk.old) (λ now. IsSettled now (D.may_leave disk.old)) }
    ensures damaged { (place : ℕ) → IsErrOf result (LedgerErr.Damaged place) → IfTold (D.told disk.old) (D.told disk.new) (λ before after.
        IsNoOlderAt (selected before.areas) place) }
    ensures moments { IfTold (D.told disk.old) (D.told disk.new) (Migrates (is_ok result) (D.may_leave disk.old) (D.may_leave disk.new)) }
    ensures areas { IfTold (D.told disk.old) (D.told disk.new) (UnlessOlder (LeavesAreas (D.may_leave disk.old) (D.may_leave disk.new))) }
    ensures host { LeavesHost D.told D.above disk.old disk.new }
    ensures cause { HasCauseBy is_disk_fault (D.faults disk.old) (D.faults disk.new) result }
{
    let entries = read_older(alloc, disk)?;
    let bytes = migrated(alloc, &entries)?;
    replace(disk, &bytes)?;
    Ok(())
}

/// The bytes of the ledger that entries of the older format are, as it begins anew with the floor 0.
fn migrated(alloc: Global, entries: &[Entry]) -> Result<Vec<u8>, LedgerErr>
    requires { ArePlacedFrom 1 entries.now }
    ensures held { IfOk result (λ bytes. MigratesTo (contents_of entries.now) bytes.items) }
    ensures damaged { (place : ℕ) → IsErrOf result (LedgerErr.Damaged place) → Breaks stamped (contents_of entries.now) place }
    ensures other { IsErrOf result DiskFails → ⊥ }
{
    let (mut changes, outline) = outlined_changes_of(alloc, entries, Format::Older)?;
    let ids = live_ids(alloc, &changes, &outline)?;
    if outline.next > GREATEST_NEXT {
        // no memory holds so many records
        return Err(LedgerErr::NoMemory);
    }
    changes.reserve(1)?;
    begin_anew(&mut changes, &ids, 0, outline.next);
    Ok(list_of(alloc, &changes)?)
}

/// What is written for these changes.
fn list_of(alloc: Global, changes: &[Change]) -> Result<Vec<u8>, NoMemory>
    requires { AllByRecursion IsChange changes.now }
    ensures { IfOk result (λ bytes. bytes.items ≡ area_bytes (ledger_contents changes.now)) }
{
    let mut bytes = begin_list(alloc)?;
    let mut payload = Vec::with_capacity(alloc, LONGEST)?;
    for change in changes {
        let kind = write_change(&mut payload, change);
        add_to_list(&mut bytes, kind, &payload)?;
    }
    close_list(&mut bytes)?;
    Ok(bytes)
}

/// Writes the payload of the change, and says of which kind its entry is.
fn write_change(payload: &mut Vec<u8>, change: &Change) -> u8
    requires room { 12136 ≤ vec_capacity payload.old }
    requires change { IsChange change.now }
    ensures entry { entry_of payload.new.items result ≡ content_of change.now }
    ensures bound { length payload.new.items ≤ 12136 }
    ensures capacity { vec_capacity payload.new ≡ vec_capacity payload.old }
{
    match change {
        Change::Open(item) => {
            write_record(payload, item);
            1
        }
        Change::Done(id) => {
            write_done(payload, *id);
            2
        }
        Change::Settled { id, stamp, digest } => {
            write_settled(payload, *id, *stamp, digest);
            3
        }
        Change::Floor { floor, next } => {
            write_floor(payload, *floor, *next);
            4
        }
    }
}
