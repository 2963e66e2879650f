ghost use Rattle.std.specs.Prelude.{◌≡◌, ◌↔◌, ℕ, max, ◌+◌, ◌-◌, ◌^◌, ◌==◌, ◌<◌, ◌≤◌, List, [], ◌∷◌, true, false, None, is_ok, length, IfErr, IfOk, IfSome, IsErrOf, OnOk, vec_capacity};
ghost use Rattle.std.specs.List.{find, AllByRecursion, Contains};
ghost use Rattle.std.specs.List.Sorted.{IsPermutation};
ghost use Rattle.std.specs.Option.{option_copied, option_map};
ghost use Rattle.fk_base.specs.CommandWords.{AreCommandWords};
ghost use Rattle.fk_host.specs.Count.{HasCauseBy};
ghost use Rattle.fk_host.specs.Disk.{IfTold, LeavesAreas, LeavesHost};
ghost use Rattle.fk_trace.specs.declared.change.Change.{Change};
ghost use Rattle.fk_trace.specs.declared.change.Change.TheVariants.{Open, Done, Floor};
ghost use Rattle.fk_trace.specs.Ledger.{after, live, AreNoFloors, is_seen, floor_of, next_id, MayMake, IsLedger};
ghost use Rattle.fk_journal.specs.Entries.{area_bytes};
ghost use Rattle.fk_journal.specs.Keeps.{selected, StandsOn, IsSettled, IsOpening, LeavesOthers, is_disk_fault};
ghost use Rattle.fk_ledger.specs.Book.{making_record, calls_of, live_ids, is_disk_record_fault};
ghost use Rattle.fk_ledger.specs.Holds.{HoldsCurrent, HoldsOlder, HoldsChanges, HoldsLedger, IsCurrentDamagedAt, IsLedgerDamagedAt, KeepsLedger};
ghost use Rattle.fk_ledger.specs.Private.{is_other_format, IsNoOlderAt};
ghost use Rattle.fk_ledger.specs.Payloads.{greatest_stamp, record_bytes, IsChange};
ghost use Rattle.fk_ledger.specs.Anew.{made_by};
ghost use Rattle.fk_ledger.specs.Stretch.{StretchOf, IsLedgerOpening, IsKeptOpening, UnlessOlder};

use crate::anew::{Way, begin_anew, room_left};
use crate::changes::{
    changes_of, floor_of, live_ids, live_record, outlined_changes_of, owed_of, spend_all,
};
use crate::compaction::compact;
use crate::index::{Index, add, holds, index_anew, widen};
use crate::migration::migrate;
use crate::older::Format;
use crate::outline::Outline;
use crate::writing::{record_len, write_record};
use crate::{LedgerErr, Owed, RecordFault};
use fk_base::{Digest, Failed, NoMemory};
use fk_cycle::CloseEnd;
use fk_host::Disk;
use fk_journal::{Journal, read_older};
use fk_trace::{Change, OpenRecord};
use std::alloc::Global;
use std::marker::Model;

/// The number of each record is below it.
const NUMBERS_END: u64 = 9_223_372_036_854_775_808;

/// How many bytes the payload of a record has at most.
const LONGEST: usize = 12_136;

/// How many bytes a journal has that begins anew, before what stays: the format byte, its Floor, and the closing gate.
const BEGUN: u64 = 1 + 22 + 1;

/// A ledger on a journal of the disk, which nobody else writes.
#[derive(Drop)]
pub struct Ledger {
    journal: Journal,
    // with room for a Done of each live record
    changes: Vec<Change>,
    // their digests, with room for one more where a record is reserved
    index: Index,
    // the numbers of the live records, rising, with room for as many as may be live
    live: Vec<u64>,
    next: u64,
    floor: u64,
    limit: u32,
    keep: u32,
    // the payload of a record as it is written: cleared before each
    payload: Vec<u8>,
}

impl Model for Ledger {
    ghost use Rattle.std.specs.Prelude.{vec_capacity};
    ghost use Rattle.fk_ledger.specs.Book.{Book};

    ghost Value = { Book };

    ghost use Rattle.fk_ledger.specs.Private.{book_of, IsInOrder};

    ghost view = { book_of };

    ghost invariant = { IsInOrder };
}

impl Ledger {
    /// Syncs Head and the area that it selects and reads the ledger that it holds, and hands out one `Owed` for each live record, by rising
    /// number. A ledger of the older format is written in this one. The journal may use `room` bytes, `live` records may be live at once,
    /// and a digest is kept for `keep` seconds at least.
    pub fn open<D: Disk>(
        alloc: Global,
        disk: &mut D,
        room: u64,
        live: u32,
        keep: u32,
    ) -> Result<(Self, Vec<Owed>), LedgerErr>
        ensures held { IfOk result (λ r. IfTold (D.told disk.old) (D.told disk.new) (λ before after. HoldsLedger before.areas r.0.changes)) }
        ensures owed { IfOk result (λ r. r.1.items ≡ live_ids r.0.changes) }
        ensures fresh { IfOk result (λ r. (r.0.room ≡ room) × (r.0.limit ≡ live) × (r.0.keep ≡ keep) × (r.0.is_spent ≡ false)) }
        ensures keeps { IfOk result (λ r. KeepsLedger r.0.changes (D.told disk.new) (D.may_leave disk.new)) }
        ensures stands { IfOk result (λ r. StandsOn r.0.area (D.told disk.new)) }
        // A short area is made the two bytes of an empty journal.
        ensures made { IfOk result (λ r. IfTold (D.told disk.old) (D.told disk.new) (λ before after.
            length (selected before.areas) < 3 → selected after.areas ≡ area_bytes [])) }
        ensures damaged { (place : ℕ) → IsErrOf result (LedgerErr.Damaged place) → IfTold (D.told disk.old) (D.told disk.new) (λ before after.
            IsLedgerDamagedAt before.areas place) }
        // What a crash at any moment of the call leaves, where the area held a ledger.
        ensures moments { (ledger : List Change) → IfTold (D.told disk.old) (D.told disk.new) (λ before after. HoldsLedger before.areas ledger
            → IsLedgerOpening ledger (is_ok result) (D.may_leave disk.old) (D.may_leave disk.new) before after) }
        // What it leaves, whatever the area held.
        ensures kept { IfTold (D.told disk.old) (D.told disk.new) (IsKeptOpening (D.may_leave disk.old) (D.may_leave disk.new)) }
        ensures entries { IfTold (D.told disk.old) (D.told disk.new) (UnlessOlder (IsOpening (D.may_leave disk.old) (D.may_leave disk.new))) }
        ensures others { IfTold (D.told disk.old) (D.told disk.new) (UnlessOlder (LeavesOthers (D.may_leave disk.old) (D.may_leave disk.new))) }
        ensures host { LeavesHost D.told D.above disk.old disk.new }
        ensures cause { HasCauseBy is_disk_fault (D.faults disk.old) (D.faults disk.new) result }
    {
        let fault = match Self::open_current(alloc, disk, room, live, keep) {
            Ok(opened) => return Ok(opened),
            Err(fault) => fault,
        };
        if !is_other_format(&fault) {
            return Err(fault);
        }
        migrate(alloc, disk)?;
        Self::open_current(alloc, disk, room, live, keep)
    }

    /// The same of an area of this format.
    fn open_current<D: Disk>(
        alloc: Global,
        disk: &mut D,
        room: u64,
        live: u32,
        keep: u32,
    ) -> Result<(Self, Vec<Owed>), LedgerErr>
        ensures held { IfOk result (λ r. IfTold (D.told disk.old) (D.told disk.new) (λ before after. HoldsCurrent before.areas r.0.changes)) }
        ensures owed { IfOk result (λ r. r.1.items ≡ live_ids r.0.changes) }
        ensures fresh { IfOk result (λ r. (r.0.room ≡ room) × (r.0.limit ≡ live) × (r.0.keep ≡ keep) × (r.0.is_spent ≡ false)) }
        ensures keeps { IfOk result (λ r. KeepsLedger r.0.changes (D.told disk.new) (D.may_leave disk.new)) }
        ensures stands { IfOk result (λ r. StandsOn r.0.area (D.told disk.new)) }
        ensures made { IfOk result (λ r. IfTold (D.told disk.old) (D.told disk.new) (λ before after.
            length (selected before.areas) < 3 → selected after.areas ≡ area_bytes [])) }
        ensures damaged { (place : ℕ) → IsErrOf result (LedgerErr.Damaged place) → IfTold (D.told disk.old) (D.told disk.new) (λ before after.
            IsCurrentDamagedAt (selected before.areas) place) }
        ensures settled { (place : ℕ) → IsErrOf result (LedgerErr.Damaged place) → IfSome (D.told disk.new) (λ now. IsSettled now (D.may_leave disk.new)) }
        ensures moments { (ledger : List Change) → IfTold (D.told disk.old) (D.told disk.new) (λ before after. HoldsCurrent before.areas ledger
            → IsLedgerOpening ledger (is_ok result) (D.may_leave disk.old) (D.may_leave disk.new) before after) }
        ensures entries { IfTold (D.told disk.old) (D.told disk.new) (IsOpening (D.may_leave disk.old) (D.may_leave disk.new)) }
        ensures others { IfTold (D.told disk.old) (D.told disk.new) (LeavesOthers (D.may_leave disk.old) (D.may_leave disk.new)) }
        ensures host { LeavesHost D.told D.above disk.old disk.new }
        ensures cause { HasCauseBy is_disk_fault (D.faults disk.old) (D.faults disk.new) result }
    {
        let (mut journal, entries) = Journal::open(alloc, disk, room)?;
        let (mut changes, outline) = outlined_changes_of(alloc, &entries, Format::Current)?;
        let mut ids = live_ids(alloc, &changes, &outline)?;
        let Outline {
            next,
            above: _,
            digests: index,
            opened: _opened,
            closed: _closed,
        } = outline;
        let floor = floor_of(&changes);
        let payload = make_ready(alloc, &mut journal, &mut changes, &mut ids, live)?;
        let owed = owed_of(alloc, &ids)?;
        let ledger = Ledger {
            journal,
            changes,
            index,
            live: ids,
            next,
            floor,
            limit: live,
            keep,
            payload,
        };
        Ok((ledger, owed))
    }

    /// The changes that stand in the selected area. Nothing is written or synced.
    pub fn view<D: Disk>(alloc: Global, disk: &mut D) -> Result<Vec<Change>, LedgerErr>
        ensures shown { IfOk result (λ changes. IfTold (D.told disk.old) (D.told disk.new) (λ before after. HoldsChanges before.areas changes.items)) }
        ensures damaged { (place : ℕ) → IsErrOf result (LedgerErr.Damaged place) → IfTold (D.told disk.old) (D.told disk.new) (λ before after.
            IsLedgerDamagedAt before.areas place) }
        ensures areas { IfTold (D.told disk.old) (D.told disk.new) (LeavesAreas (D.may_leave disk.old) (D.may_leave disk.new)) }
        ensures calls { IfTold (D.told disk.old) (D.told disk.new) (λ before after. after.moments ≤ before.moments + 6) }
        ensures host { LeavesHost D.told D.above disk.old disk.new }
        ensures cause { HasCauseBy is_disk_fault (D.faults disk.old) (D.faults disk.new) result }
    {
        let fault = match view_current(alloc, disk) {
            Ok(changes) => return Ok(changes),
            Err(fault) => fault,
        };
        if !is_other_format(&fault) {
            return Err(fault);
        }
        view_older(alloc, disk)
    }

    /// Whether a record has this digest.
    pub fn seen(&self, digest: &Digest) -> bool
        ensures { result ≡ is_seen digest.now.0 self.now.changes }
    {
        holds(&self.index, digest)
    }

    /// The number of the next record.
    pub fn next_id(&self) -> u64
        ensures { result ≡ next_id self.now.changes }
    {
        self.next
    }

    /// The floor: packets with a stamp below it are refused, since their digests may be gone.
    pub fn floor(&self) -> u64
        ensures { result ≡ floor_of self.now.changes }
    {
        self.floor
    }

    /// How many records are live.
    pub fn live(&self) -> usize
        ensures { result ≡ length (live self.now.changes) }
    {
        self.live.len()
    }

    /// The live record of this number.
    pub fn get(&self, id: u64) -> Option<&OpenRecord>
        ensures { option_copied result ≡ find (λ item. item.id == id) (live self.now.changes) }
    {
        live_record(&self.changes, id)
    }

    /// Whether a call failed, so that the ledger has to be opened again.
    pub fn is_spent(&self) -> bool
        ensures { result ≡ self.now.is_spent }
    {
        self.journal.is_spent()
    }

    /// Makes room in memory for this record and, later, its Done.
    pub fn reserve(&mut self, item: &OpenRecord) -> Result<(), NoMemory>
        requires { AreCommandWords item.now.close }
        ensures ok { OnOk result (length (record_bytes item.now) ≤ self.new.reserved) }
        ensures more { self.old.reserved ≤ self.new.reserved }
        ensures rest { self.new ≡ record self.old { reserved = self.new.reserved } }
    {
        let len = record_len(item);
        self.payload.clear();
        self.payload.reserve(len)?;
        self.journal.reserve(len)?;
        let slots = self.live.len() + 3;
        self.changes.reserve(slots)?;
        let digests = (self.changes.len() + slots).saturating_sub(self.index.len());
        widen(&mut self.index, digests.max(1))?;
        Ok(())
    }

    /// Records a granted datagram on the disk, where there is room for it. What is owed for it is its close. No memory is taken.
    pub fn record<D: Disk>(&mut self, disk: &mut D, item: OpenRecord) -> Result<Owed, RecordFault>
        requires unspent { self.old.is_spent ≡ false }
        requires next { MayMake self.old.changes (Open item) }
        requires stamp { (floor_of self.old.changes ≤ item.stamp) × (item.stamp ≤ greatest_stamp) }
        requires words { AreCommandWords item.close }
        requires reserved { length (record_bytes item) ≤ self.old.reserved }
        requires keeps { KeepsLedger self.old.changes (D.told disk.old) (D.may_leave disk.old) }
        requires stands { StandsOn self.old.area (D.told disk.old) }
        ensures full { IsErrOf result RecordFault.Full ↔ (making_record self.old item ≡ None) }
        ensures nothing { IsErrOf result RecordFault.Full → (self.new ≡ self.old) × (disk.new ≡ disk.old) }
        ensures ok { IfSome (making_record self.old item) (λ made. OnOk result
            (self.new ≡ record self.old { changes = after self.old.changes made; area = self.new.area; reserved = self.new.reserved })) }
        ensures owed { IfOk result (λ owed. owed ≡ item.id) }
        ensures spent { IsErrOf result RecordFault.Disk → self.new ≡ record self.old { area = self.new.area; is_spent = true } }
        ensures keeps { OnOk result (KeepsLedger self.new.changes (D.told disk.new) (D.may_leave disk.new)) }
        ensures stands { OnOk result (StandsOn self.new.area (D.told disk.new)) }
        // A crash at any moment of the call leaves the ledger from before with none, the first or all of what is made.
        ensures moments { IfSome (making_record self.old item) (λ made. StretchOf D.Disk disk.old disk.new self.old.changes made (is_ok result)) }
        // Unless the ledger begins anew, the areas on which it does not stand are left.
        ensures others { IfSome (making_record self.old item) (λ made. AreNoFloors made
            → IfTold (D.told disk.old) (D.told disk.new) (LeavesOthers (D.may_leave disk.old) (D.may_leave disk.new))) }
        ensures calls { IfSome (making_record self.old item) (λ made. OnOk result (IfTold (D.told disk.old) (D.told disk.new) (λ before after.
            after.moments ≡ before.moments + calls_of self.old.changes made))) }
        ensures host { LeavesHost D.told D.above disk.old disk.new }
        ensures cause { HasCauseBy is_disk_record_fault (D.faults disk.old) (D.faults disk.new) result }
    {
        match self.way(&item) {
            Some(Way::Behind) => self.record_behind(disk, item),
            Some(Way::Anew(floor)) => self.record_anew(disk, item, floor),
            None => Err(RecordFault::Full),
        }
    }

    /// Records it behind the others.
    fn record_behind<D: Disk>(
        &mut self,
        disk: &mut D,
        item: OpenRecord,
    ) -> Result<Owed, RecordFault>
        requires unspent { self.old.is_spent ≡ false }
        requires next { MayMake self.old.changes (Open item) }
        requires stamp { item.stamp ≤ greatest_stamp }
        requires words { AreCommandWords item.close }
        requires reserved { length (record_bytes item) ≤ self.old.reserved }
        requires few { (length (live self.old.changes) < self.old.limit) × (next_id self.old.changes < 2 ^ 63) }
        requires keeps { KeepsLedger self.old.changes (D.told disk.old) (D.may_leave disk.old) }
        requires stands { StandsOn self.old.area (D.told disk.old) }
        ensures fits { IsErrOf result RecordFault.Full → ⊥ }
        ensures ok { OnOk result (self.new ≡ record self.old { changes = after self.old.changes (Open item ∷ []); reserved = self.new.reserved }) }
        ensures owed { IfOk result (λ owed. owed ≡ item.id) }
        ensures spent { IsErrOf result RecordFault.Disk → self.new ≡ record self.old { is_spent = true } }
        ensures keeps { OnOk result (KeepsLedger self.new.changes (D.told disk.new) (D.may_leave disk.new)) }
        ensures stands { OnOk result (StandsOn self.new.area (D.told disk.new)) }
        ensures moments { StretchOf D.Disk disk.old disk.new self.old.changes (Open item ∷ []) (is_ok result) }
        ensures others { IfTold (D.told disk.old) (D.told disk.new) (LeavesOthers (D.may_leave disk.old) (D.may_leave disk.new)) }
        ensures calls { OnOk result (IfTold (D.told disk.old) (D.told disk.new) (λ before after. after.moments ≡ before.moments + 4)) }
        ensures host { LeavesHost D.told D.above disk.old disk.new }
        ensures cause { HasCauseBy is_disk_record_fault (D.faults disk.old) (D.faults disk.new) result }
    {
        write_record(&mut self.payload, &item);
        match self.journal.append(disk, 1, &self.payload) {
            Ok(()) => {
                let owed = Owed::new(item.id);
                self.live.push_reserved(item.id);
                self.next = item.id + 1;
                let change = Change::Open(item);
                add(&mut self.index, &change);
                self.changes.push_reserved(change);
                Ok(owed)
            }
            Err(Failed) => Err(RecordFault::Disk),
        }
    }

    /// Records it in a journal that begins anew with this floor. Memory follows when all of it is on the disk.
    fn record_anew<D: Disk>(
        &mut self,
        disk: &mut D,
        item: OpenRecord,
        floor: u64,
    ) -> Result<Owed, RecordFault>
        requires unspent { self.old.is_spent ≡ false }
        requires next { MayMake self.old.changes (Open item) }
        requires stamp { item.stamp ≤ greatest_stamp }
        requires words { AreCommandWords item.close }
        requires reserved { length (record_bytes item) ≤ self.old.reserved }
        requires few { (length (live self.old.changes) < self.old.limit) × (next_id self.old.changes < 2 ^ 63) }
        requires keeps { KeepsLedger self.old.changes (D.told disk.old) (D.may_leave disk.old) }
        requires stands { StandsOn self.old.area (D.told disk.old) }
        ensures fits { IsErrOf result RecordFault.Full → ⊥ }
        ensures ok { OnOk result (self.new ≡ record self.old {
          changes = after self.old.changes (Floor floor (next_id self.old.changes) ∷ Open item ∷ []);
          area = self.new.area;
          reserved = self.new.reserved;
        }) }
        ensures owed { IfOk result (λ owed. owed ≡ item.id) }
        ensures spent { IsErrOf result RecordFault.Disk → self.new ≡ record self.old { area = self.new.area; is_spent = true } }
        ensures keeps { OnOk result (KeepsLedger self.new.changes (D.told disk.new) (D.may_leave disk.new)) }
        ensures stands { OnOk result (StandsOn self.new.area (D.told disk.new)) }
        ensures moments { StretchOf D.Disk disk.old disk.new self.old.changes (Floor floor (next_id self.old.changes) ∷ Open item ∷ []) (is_ok result) }
        ensures calls { OnOk result (IfTold (D.told disk.old) (D.told disk.new) (λ before after.
            after.moments ≡ before.moments + calls_of self.old.changes (Floor floor (next_id self.old.changes) ∷ Open item ∷ []))) }
        ensures host { LeavesHost D.told D.above disk.old disk.new }
        ensures cause { HasCauseBy is_disk_record_fault (D.faults disk.old) (D.faults disk.new) result }
    {
        let begun = compact(
            &mut self.journal,
            disk,
            &mut self.payload,
            &self.changes,
            &self.live,
            floor,
            self.next,
        );
        match begun {
            Ok(()) => (),
            Err(Failed) => return Err(RecordFault::Disk),
        }
        write_record(&mut self.payload, &item);
        match self.journal.append(disk, 1, &self.payload) {
            Ok(()) => {
                let owed = Owed::new(item.id);
                begin_anew(&mut self.changes, &self.live, floor, self.next);
                index_anew(&mut self.index, &self.changes);
                self.floor = floor;
                self.live.push_reserved(item.id);
                self.next = item.id + 1;
                let change = Change::Open(item);
                add(&mut self.index, &change);
                self.changes.push_reserved(change);
                Ok(owed)
            }
            Err(Failed) => Err(RecordFault::Disk),
        }
    }

    /// Settles a live record on the disk, by four calls: a clean close of it has ended well.
    pub fn settle<D: Disk>(
        &mut self,
        disk: &mut D,
        owed: Owed,
        end: CloseEnd,
    ) -> Result<(), (Owed, Failed)>
        requires unspent { self.old.is_spent ≡ false }
        requires same { end ≡ owed }
        requires lives { Contains (live_ids self.old.changes) owed }
        requires keeps { KeepsLedger self.old.changes (D.told disk.old) (D.may_leave disk.old) }
        requires stands { StandsOn self.old.area (D.told disk.old) }
        ensures ok { OnOk result (self.new ≡ record self.old { changes = after self.old.changes (Done owed ∷ []) }) }
        ensures err { IfErr result (λ e. (e.0 ≡ owed) × (self.new ≡ record self.old { is_spent = true })) }
        ensures keeps { OnOk result (KeepsLedger self.new.changes (D.told disk.new) (D.may_leave disk.new)) }
        ensures stands { OnOk result (StandsOn self.new.area (D.told disk.new)) }
        // A crash at any moment of the call leaves the ledger from before, with this Done or without.
        ensures moments { StretchOf D.Disk disk.old disk.new self.old.changes (Done owed ∷ []) (is_ok result) }
        ensures others { IfTold (D.told disk.old) (D.told disk.new) (LeavesOthers (D.may_leave disk.old) (D.may_leave disk.new)) }
        ensures calls { OnOk result (IfTold (D.told disk.old) (D.told disk.new) (λ before after. after.moments ≡ before.moments + 4)) }
        ensures host { LeavesHost D.told D.above disk.old disk.new }
        ensures cause { HasCauseBy (λ _. true) (D.faults disk.old) (D.faults disk.new) result }
    {
        let id = owed.id();
        match self.journal.append(disk, 2, &id.to_be_bytes()) {
            Ok(()) => {
                owed.spend();
                self.changes.push_reserved(Change::Done(id));
                self.live.retain(|live| *live != id);
                Ok(())
            }
            Err(Failed) => Err((owed, Failed)),
        }
    }

    /// Ends the run: takes back what is owed, and leaves each record on the disk as it is.
    pub fn park(self, owed: Vec<Owed>)
        requires { IsPermutation owed.items (live_ids self.changes) }
    {
        spend_all(owed);
    }

    /// How the record comes into the journal, if there is room for it. Where it does not fit behind the others, this walks the ledger.
    fn way(&self, item: &OpenRecord) -> Option<Way>
        requires words { AreCommandWords item.now.close }
        requires next { MayMake self.now.changes (Open item.now) }
        requires each { AllByRecursion IsChange self.now.changes }
        requires follow { IsLedger self.now.changes }
        requires unspent { self.now.is_spent ≡ false }
        ensures made { making_record self.now item.now ≡ option_map (made_by (next_id self.now.changes) item.now) result }
        ensures few { IfSome result (λ way. (length (live self.now.changes) < self.now.limit) × (next_id self.now.changes < 2 ^ 63)) }
    {
        let live = self.live.len() as u64;
        if live >= u64::from(self.limit) || self.next >= NUMBERS_END {
            return None;
        }
        let more = 6 + record_len(item) as u64 + 14 * (live + 1);
        if more <= self.journal.room() {
            return Some(Way::Behind);
        }
        let floor = floor_at(self.keep, item.moment.get(), self.floor);
        let left = room_left(&self.changes, &self.live, floor, self.journal.limit())?;
        if BEGUN + more <= left {
            Some(Way::Anew(floor))
        } else {
            None
        }
    }
}

/// The floor with which a ledger begins anew at a moment.
fn floor_at(keep: u32, moment: u64, floor: u64) -> u64
    ensures { result ≡ max floor (moment - keep) }
{
    floor.max(moment.saturating_sub(u64::from(keep)))
}

/// Makes room in memory for as much as a ledger takes of which so many records may be live, and for the longest payload.
fn make_ready(
    alloc: Global,
    journal: &mut Journal,
    changes: &mut Vec<Change>,
    ids: &mut Vec<u64>,
    live: u32,
) -> Result<Vec<u8>, NoMemory>
    ensures payload { IfOk result (λ payload. 12136 ≤ vec_capacity payload) }
    ensures journal { OnOk result (12136 ≤ journal.new.reserved) }
    ensures changes { OnOk result (length changes.new.items + length ids.new.items ≤ vec_capacity changes.new) }
    ensures ids { OnOk result (live ≤ vec_capacity ids.new) }
    ensures same { (changes.new.items ≡ changes.old.items) × (ids.new.items ≡ ids.old.items) }
    ensures log { journal.new ≡ record journal.old { reserved = journal.new.reserved } }
{
    journal.reserve(LONGEST)?;
    changes.reserve(ids.len())?;
    ids.reserve(live as usize)?;
    let mut payload = Vec::new(alloc);
    payload.reserve(LONGEST)?;
    Ok(payload)
}

/// Whether the area is not of this format.
fn is_other_format(fault: &LedgerErr) -> bool
    ensures { result ≡ is_other_format fault.now }
{
    match fault {
        LedgerErr::Damaged(place) => *place == 0,
        LedgerErr::Disk => false,
        LedgerErr::NoMemory => false,
    }
}

/// The changes of an area of this format.
fn view_current<D: Disk>(alloc: Global, disk: &mut D) -> Result<Vec<Change>, LedgerErr>
    ensures held { IfOk result (λ changes. IfTold (D.told disk.old) (D.told disk.new) (λ before after. HoldsCurrent before.areas changes.items)) }
    ensures damaged { (place : ℕ) → IsErrOf result (LedgerErr.Damaged place) → IfTold (D.told disk.old) (D.told disk.new) (λ before after.
        IsCurrentDamagedAt (selected before.areas) place) }
    ensures areas { IfTold (D.told disk.old) (D.told disk.new) (LeavesAreas (D.may_leave disk.old) (D.may_leave disk.new)) }
    ensures calls { IfTold (D.told disk.old) (D.told disk.new) (λ before after. after.moments ≤ before.moments + 3) }
    ensures host { LeavesHost D.told D.above disk.old disk.new }
    ensures cause { HasCauseBy is_disk_fault (D.faults disk.old) (D.faults disk.new) result }
{
    let entries = Journal::read(alloc, disk)?;
    changes_of(alloc, &entries, Format::Current)
}

/// The changes of an area of the older format.
fn view_older<D: Disk>(alloc: Global, disk: &mut D) -> Result<Vec<Change>, LedgerErr>
    ensures held { IfOk result (λ changes. IfTold (D.told disk.old) (D.told disk.new) (λ before after. HoldsOlder before.areas changes.items)) }
    ensures damaged { (place : ℕ) → IsErrOf result (LedgerErr.Damaged place) → IfTold (D.told disk.old) (D.told disk.new) (λ before after.
        IsNoOlderAt (selected before.areas) place) }
    ensures areas { IfTold (D.told disk.old) (D.told disk.new) (LeavesAreas (D.may_leave disk.old) (D.may_leave disk.new)) }
    ensures calls { IfTold (D.told disk.old) (D.told disk.new) (λ before after. after.moments ≤ before.moments + 3) }
    ensures host { LeavesHost D.told D.above disk.old disk.new }
    ensures cause { HasCauseBy is_disk_fault (D.faults disk.old) (D.faults disk.new) result }
{
    let entries = read_older(alloc, disk)?;
    changes_of(alloc, &entries, Format::Older)
}
