//! What stays of a ledger is copied into the journal's other area, which is then the one that counts.
ghost use Rattle.std.specs.Prelude.{◌≡◌, ◌+◌, ◌≤◌, List, [], ◌∷◌, true, false, is_ok, length, IfSome, OnErr, OnOk, vec_capacity};
ghost use Rattle.std.specs.List.{AllByRecursion, filter_map};
ghost use Rattle.std.specs.Option.{option_map, option_to_list};
ghost use Rattle.fk_host.specs.Count.{HasCause};
ghost use Rattle.fk_host.specs.Disk.{IfTold, LeavesHost};
ghost use Rattle.fk_trace.specs.declared.change.Change.TheVariants.{Floor};
ghost use Rattle.fk_trace.specs.Ledger.{after_one, next_id, IsLedger};
ghost use Rattle.fk_journal.specs.Entries.{Content, IsContent};
ghost use Rattle.fk_journal.specs.Head.{other_area};
ghost use Rattle.fk_journal.specs.Keeps.{Copies, Keeps, StandsOn};
ghost use Rattle.fk_ledger.specs.Anew.{entry_of, kept_as, CopiesOn, FailsOn};
ghost use Rattle.fk_ledger.specs.Book.{calls_of_one, live_ids, used};
ghost use Rattle.fk_ledger.specs.Holds.{KeepsLedger};
ghost use Rattle.fk_ledger.specs.Payloads.{content_of, ledger_contents, IsChange};
ghost use Rattle.fk_ledger.specs.Stretch.{StretchOf};

use crate::writing::{write_floor, write_record, write_settled};
use fk_base::Failed;
use fk_host::Disk;
use fk_journal::Journal;
use fk_trace::Change;

/// Lets the journal begin anew with this floor, on its other area: two calls of the disk empty that, one copies each entry, and four
/// switch to it.
pub(crate) fn compact<D: Disk>(
    journal: &mut Journal,
    disk: &mut D,
    payload: &mut Vec<u8>,
    changes: &[Change],
    live: &[u64],
    floor: u64,
    next: u64,
) -> Result<(), Failed>
    requires unspent { journal.old.is_spent ≡ false }
    requires idle { journal.old.is_copying ≡ false }
    requires room { (12136 ≤ journal.old.reserved) × (12136 ≤ vec_capacity payload.old) }
    requires live { live.now ≡ live_ids changes.now }
    requires next { next ≡ next_id changes.now }
    requires floor { IsChange (Floor floor next) }
    requires keeps { KeepsLedger changes.now (D.told disk.old) (D.may_leave disk.old) }
    requires stands { StandsOn journal.old.area (D.told disk.old) }
    requires used { used changes.now ≡ journal.old.end + 1 }
    ensures ok { OnOk result (journal.new ≡ record journal.old { area = other_area journal.old.area; end = journal.new.end; copied_end = journal.new.copied_end }) }
    ensures err { OnErr result (journal.new ≡ record journal.old { is_copying = journal.new.is_copying; copied_end = journal.new.copied_end; is_spent = true }) }
    ensures used { OnOk result (used (after_one changes.now (Floor floor next)) ≡ journal.new.end + 1) }
    ensures keeps { OnOk result (KeepsLedger (after_one changes.now (Floor floor next)) (D.told disk.new) (D.may_leave disk.new)) }
    ensures stands { OnOk result (StandsOn journal.new.area (D.told disk.new)) }
    ensures moments { StretchOf D.Disk disk.old disk.new changes.now (Floor floor next ∷ []) (is_ok result) }
    ensures calls { OnOk result (IfTold (D.told disk.old) (D.told disk.new) (λ before after.
        after.moments ≡ before.moments + calls_of_one changes.now (Floor floor next))) }
    ensures capacity { vec_capacity payload.new ≡ vec_capacity payload.old }
    ensures host { LeavesHost D.told D.above disk.old disk.new }
    ensures cause { HasCause (D.faults disk.old) (D.faults disk.new) result }
{
    journal.begin_copy(disk)?;
    write_floor(payload, floor, next);
    journal.copy(disk, 4, payload)?;
    copy_all(journal, disk, payload, changes, live, floor)?;
    journal.switch(disk)
}

/// Copies what stays of each change.
fn copy_all<D: Disk>(
    journal: &mut Journal,
    disk: &mut D,
    payload: &mut Vec<u8>,
    changes: &[Change],
    live: &[u64],
    floor: u64,
) -> Result<(), Failed>
    requires unspent { journal.old.is_spent ≡ false }
    requires room { (12136 ≤ journal.old.reserved) × (12136 ≤ vec_capacity payload.old) }
    requires each { AllByRecursion IsChange changes.now }
    requires keeps { (contents : List Content) × Keeps journal.old contents (D.told disk.old) (D.may_leave disk.old) }
    requires copies { (front : List Content) × Copies journal.old front (D.told disk.old) }
    ensures ok { OnOk result (CopiesOn journal.old journal.new (ledger_contents (filter_map (kept_as floor live.now) changes.now))
        (D.told disk.old) (D.told disk.new) (D.may_leave disk.old) (D.may_leave disk.new)) }
    ensures err { OnErr result (FailsOn journal.old journal.new (D.told disk.old) (D.told disk.new) (D.may_leave disk.old) (D.may_leave disk.new)) }
    ensures capacity { vec_capacity payload.new ≡ vec_capacity payload.old }
    ensures host { LeavesHost D.told D.above disk.old disk.new }
    ensures cause { HasCause (D.faults disk.old) (D.faults disk.new) result }
{
    for change in changes {
        copy_kept(journal, disk, payload, change, live, floor)?;
    }
    Ok(())
}

/// Copies what stays of the change.
fn copy_kept<D: Disk>(
    journal: &mut Journal,
    disk: &mut D,
    payload: &mut Vec<u8>,
    change: &Change,
    live: &[u64],
    floor: u64,
) -> Result<(), Failed>
    requires unspent { journal.old.is_spent ≡ false }
    requires room { (12136 ≤ journal.old.reserved) × (12136 ≤ vec_capacity payload.old) }
    requires change { IsChange change.now }
    requires keeps { (contents : List Content) × Keeps journal.old contents (D.told disk.old) (D.may_leave disk.old) }
    requires copies { (front : List Content) × Copies journal.old front (D.told disk.old) }
    ensures ok { OnOk result (CopiesOn journal.old journal.new (ledger_contents (option_to_list (kept_as floor live.now change.now)))
        (D.told disk.old) (D.told disk.new) (D.may_leave disk.old) (D.may_leave disk.new)) }
    ensures err { OnErr result (FailsOn journal.old journal.new (D.told disk.old) (D.told disk.new) (D.may_leave disk.old) (D.may_leave disk.new)) }
    ensures capacity { vec_capacity payload.new ≡ vec_capacity payload.old }
    ensures host { LeavesHost D.told D.above disk.old disk.new }
    ensures cause { HasCause (D.faults disk.old) (D.faults disk.new) result }
{
    match write_kept(payload, change, live, floor) {
        Some(kind) => journal.copy(disk, kind, payload),
        None => Ok(()),
    }
}

/// Writes the payload of what stays of the change, and says of which kind its entry is.
fn write_kept(payload: &mut Vec<u8>, change: &Change, live: &[u64], floor: u64) -> Option<u8>
    requires room { 12136 ≤ vec_capacity payload.old }
    requires change { IsChange change.now }
    ensures entry { option_map (entry_of payload.new.items) result ≡ option_map content_of (kept_as floor live.now change.now) }
    ensures content { IfSome result (λ kind. IsContent (entry_of payload.new.items kind)) }
    ensures bound { IfSome result (λ kind. length payload.new.items ≤ 12136) }
    ensures capacity { vec_capacity payload.new ≡ vec_capacity payload.old }
{
    match change {
        Change::Open(item) => {
            if live.contains(&item.id) {
                write_record(payload, item);
                return Some(1);
            }
            if item.stamp < floor {
                return None;
            }
            write_settled(payload, item.id, item.stamp, &item.digest);
            Some(3)
        }
        Change::Done(_) => None,
        Change::Settled { id, stamp, digest } => {
            if *stamp < floor {
                return None;
            }
            write_settled(payload, *id, *stamp, digest);
            Some(3)
        }
        Change::Floor { .. } => None,
    }
}
