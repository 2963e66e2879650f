ghost use Rattle.std.specs.Prelude.{◌≡◌, ℕ, ◌+◌, ◌-◌, ◌<◌, ◌≤◌, ◌^◌, List, [], ◌∷◌, ◌++◌, length, true, false, IfErr, IfOk, IfSome, IsErrOf, OnErr, OnOk};
ghost use Rattle.fk_host.specs.Count.{HasCause, HasCauseBy};
ghost use Rattle.fk_host.specs.Disk.{IfTold, LeavesAreas, LeavesHost, Written, area_of};
ghost use Rattle.fk_journal.specs.Entries.{Content, IsContent, entry_bytes, area_bytes, contents_of, ArePlacedFrom, HoldsEntries, IsDamagedAt};
ghost use Rattle.fk_journal.specs.Head.{other_area, head_byte};
ghost use Rattle.fk_journal.specs.Keeps.{selected, Keeps, Copies, LeavesAllBut, LeavesOthers, IsSettled, IsOpening, IsAppend, HoldsIn, HoldsEither, CopyMoments, is_disk_fault};

use crate::area::{open_area, put_entry, read_area, read_head};
use crate::copying::{add_copied, empty_area, other_area, switch_to};
use crate::entry::{entries_of, write_behind, write_entry};
use crate::{Entry, JournalErr};
use fk_base::{Failed, NoMemory};
use fk_host::{Area, Disk};
use std::alloc::Global;
use std::marker::Model;

/// A journal over the area of a disk that Head selects, and over the other one while its entries are copied there. Nobody else writes
/// the three. It keeps no entry in memory.
#[derive(Drop)]
pub struct Journal {
    area: Area,
    end: u64,
    limit: u64,
    // an entry as it is written: cleared before each
    buffer: Vec<u8>,
    is_copying: bool,
    copied_end: u64,
    is_spent: bool,
}

impl Model for Journal {
    ghost use Rattle.std.specs.Prelude.{◌-◌, ◌+◌, ◌≤◌, ◌^◌, vec_capacity};
    ghost use Rattle.fk_journal.specs.Keeps.{Log};

    ghost Value = { Log };

    ghost view = { λ j. record {
      area = j.area;
      end = j.end;
      limit = j.limit;
      reserved = vec_capacity j.buffer - 6;
      is_copying = j.is_copying;
      copied_end = j.copied_end;
      is_spent = j.is_spent;
    } };

    // an entry ends where a place is a number of 64 bits
    ghost invariant = { λ j. (j.end + 2 ^ 33 ≤ 2 ^ 64) × (14 ≤ vec_capacity j.buffer) × (j.copied_end + 2 ^ 33 ≤ 2 ^ 64) };
}

impl Journal {
    /// Syncs Head and the area that it selects, and reads its entries. An area of less than three bytes, which holds none, is made an
    /// empty journal and synced. The journal may use `limit` bytes.
    pub fn open<D: Disk>(
        alloc: Global,
        disk: &mut D,
        limit: u64,
    ) -> Result<(Self, Vec<Entry>), JournalErr>
        ensures held { IfOk result (λ r. IfTold (D.told disk.old) (D.told disk.new) (λ before after.
            HoldsEntries (selected before.areas) (contents_of r.1.items))) }
        ensures places { IfOk result (λ r. ArePlacedFrom 1 r.1.items) }
        ensures keeps { IfOk result (λ r. Keeps r.0 (contents_of r.1.items) (D.told disk.new) (D.may_leave disk.new)) }
        ensures fresh { IfOk result (λ r. (r.0.limit ≡ limit) × (r.0.is_spent ≡ false) × (8 ≤ r.0.reserved) × (r.0.is_copying ≡ false)) }
        // A short area is made the two bytes of an empty journal.
        ensures made { IfOk result (λ r. IfTold (D.told disk.old) (D.told disk.new) (λ before after.
            length (selected before.areas) < 3 → selected after.areas ≡ area_bytes [])) }
        ensures damaged { (place : ℕ) → IsErrOf result (JournalErr.Damaged place) → IfTold (D.told disk.old) (D.told disk.new) (λ before after.
            IsDamagedAt (selected before.areas) place) }
        // Where the area is damaged, nothing of it or of Head is unsynced.
        ensures settled { (place : ℕ) → IsErrOf result (JournalErr.Damaged place) → IfSome (D.told disk.new) (λ now. IsSettled now (D.may_leave disk.new)) }
        ensures moments { IfTold (D.told disk.old) (D.told disk.new) (IsOpening (D.may_leave disk.old) (D.may_leave disk.new)) }
        ensures others { IfTold (D.told disk.old) (D.told disk.new) (LeavesOthers (D.may_leave disk.old) (D.may_leave disk.new)) }
        ensures host { LeavesHost D.told D.above disk.old disk.new }
        ensures cause { HasCauseBy is_disk_fault (D.faults disk.old) (D.faults disk.new) result }
    {
        let found = open_area(alloc, disk)?;
        let mut buffer = Vec::new(alloc);
        buffer.reserve(14)?;
        let journal = Journal {
            area: found.area,
            end: found.end as u64,
            limit,
            buffer,
            is_copying: false,
            copied_end: 0,
            is_spent: false,
        };
        Ok((journal, found.entries))
    }

    /// The entries of the area that Head selects, by three calls of the disk: that of Head, the length and the bytes. Nothing is written
    /// or synced.
    pub fn read<D: Disk>(alloc: Global, disk: &mut D) -> Result<Vec<Entry>, JournalErr>
        ensures held { IfOk result (λ entries. IfTold (D.told disk.old) (D.told disk.new) (λ before after.
            HoldsEntries (selected before.areas) (contents_of entries.items))) }
        ensures places { IfOk result (λ entries. ArePlacedFrom 1 entries.items) }
        ensures damaged { (place : ℕ) → IsErrOf result (JournalErr.Damaged place) → IfTold (D.told disk.old) (D.told disk.new) (λ before after.
            IsDamagedAt (selected before.areas) place) }
        ensures areas { IfTold (D.told disk.old) (D.told disk.new) (LeavesAreas (D.may_leave disk.old) (D.may_leave disk.new)) }
        ensures calls { IfTold (D.told disk.old) (D.told disk.new) (λ before after. after.moments ≤ before.moments + 3) }
        ensures host { LeavesHost D.told D.above disk.old disk.new }
        ensures cause { HasCauseBy is_disk_fault (D.faults disk.old) (D.faults disk.new) result }
    {
        let area = read_head(disk)?;
        let bytes = read_area(alloc, disk, area)?;
        let (entries, _) = entries_of(alloc, &bytes)?;
        Ok(entries)
    }

    /// Makes room for a payload of this length.
    pub fn reserve(&mut self, payload: usize) -> Result<(), NoMemory>
        ensures ok { OnOk result (payload ≤ self.new.reserved) }
        ensures more { self.old.reserved ≤ self.new.reserved }
        ensures rest { self.new ≡ record self.old { reserved = self.new.reserved } }
    {
        self.buffer.clear();
        self.buffer.reserve(payload.saturating_add(6))?;
        Ok(())
    }

    /// Appends an entry by four calls of the disk: what is behind the closing gate and its sync, then that gate and its sync.
    pub fn append<D: Disk>(&mut self, disk: &mut D, kind: u8, payload: &[u8]) -> Result<(), Failed>
        requires unspent { self.old.is_spent ≡ false }
        requires idle { self.old.is_copying ≡ false }
        requires content { IsContent (record { kind = kind; payload = payload.now }) }
        requires reserved { length payload.now ≤ self.old.reserved }
        requires keeps { (contents : List Content) × Keeps self.old contents (D.told disk.old) (D.may_leave disk.old) }
        ensures keeps { (contents : List Content) → Keeps self.old contents (D.told disk.old) (D.may_leave disk.old)
            → OnOk result (Keeps self.new (contents ++ record { kind = kind; payload = payload.now } ∷ []) (D.told disk.new) (D.may_leave disk.new)) }
        ensures bytes { OnOk result (IfTold (D.told disk.old) (D.told disk.new) (λ before after.
            Written self.old.end (entry_bytes (record { kind = kind; payload = payload.now }) ++ 0 ∷ []) (selected before.areas) (selected after.areas))) }
        // A crash at any moment of the call leaves the entries from before, with the new one or without.
        ensures moments { (contents : List Content) → Keeps self.old contents (D.told disk.old) (D.may_leave disk.old)
            → IfTold (D.told disk.old) (D.told disk.new) (IsAppend contents (record { kind = kind; payload = payload.now }) (D.may_leave disk.old) (D.may_leave disk.new)) }
        ensures others { IfTold (D.told disk.old) (D.told disk.new) (LeavesOthers (D.may_leave disk.old) (D.may_leave disk.new)) }
        ensures calls { OnOk result (IfTold (D.told disk.old) (D.told disk.new) (λ before after. after.moments ≡ before.moments + 4)) }
        ensures ok { OnOk result (self.new ≡ record self.old { end = self.old.end + 6 + length payload.now }) }
        ensures err { OnErr result (self.new ≡ record self.old { is_spent = true }) }
        ensures host { LeavesHost D.told D.above disk.old disk.new }
        ensures cause { HasCause (D.faults disk.old) (D.faults disk.new) result }
    {
        write_behind(&mut self.buffer, kind, payload);
        match put_entry(disk, self.area, self.end, &self.buffer) {
            Ok(()) => {
                self.end += 6 + payload.len() as u64;
                Ok(())
            }
            Err(Failed) => {
                self.is_spent = true;
                Err(Failed)
            }
        }
    }

    /// Begins a copy into the other area, by two calls of the disk: it is emptied, and gets the format byte.
    pub fn begin_copy<D: Disk>(&mut self, disk: &mut D) -> Result<(), Failed>
        requires unspent { self.old.is_spent ≡ false }
        requires idle { self.old.is_copying ≡ false }
        requires keeps { (contents : List Content) × Keeps self.old contents (D.told disk.old) (D.may_leave disk.old) }
        ensures keeps { (contents : List Content) → Keeps self.old contents (D.told disk.old) (D.may_leave disk.old)
            → OnOk result (Keeps self.new contents (D.told disk.new) (D.may_leave disk.new)) }
        ensures copies { OnOk result (Copies self.new [] (D.told disk.new)) }
        // A crash at any moment of the call leaves the area selected that was, with its entries.
        ensures moments { (contents : List Content) → Keeps self.old contents (D.told disk.old) (D.may_leave disk.old)
            → IfTold (D.told disk.old) (D.told disk.new) (CopyMoments 2 (HoldsIn self.old.area contents) (D.may_leave disk.old) (D.may_leave disk.new)) }
        ensures others { IfTold (D.told disk.old) (D.told disk.new) (LeavesAllBut (other_area self.old.area) (D.may_leave disk.old) (D.may_leave disk.new)) }
        ensures calls { OnOk result (IfTold (D.told disk.old) (D.told disk.new) (λ before after. after.moments ≡ before.moments + 2)) }
        ensures ok { OnOk result (self.new ≡ record self.old { is_copying = true; copied_end = 1 }) }
        ensures err { OnErr result (self.new ≡ record self.old { is_spent = true }) }
        ensures host { LeavesHost D.told D.above disk.old disk.new }
        ensures cause { HasCause (D.faults disk.old) (D.faults disk.new) result }
    {
        match empty_area(disk, other_area(self.area)) {
            Ok(()) => {
                self.is_copying = true;
                self.copied_end = 1;
                Ok(())
            }
            Err(Failed) => {
                self.is_spent = true;
                Err(Failed)
            }
        }
    }

    /// Copies an entry, by one call of the disk: it is written behind those that were, with an open gate before it.
    pub fn copy<D: Disk>(&mut self, disk: &mut D, kind: u8, payload: &[u8]) -> Result<(), Failed>
        requires unspent { self.old.is_spent ≡ false }
        requires content { IsContent (record { kind = kind; payload = payload.now }) }
        requires reserved { length payload.now ≤ self.old.reserved }
        requires keeps { (contents : List Content) × Keeps self.old contents (D.told disk.old) (D.may_leave disk.old) }
        requires copies { (copied : List Content) × Copies self.old copied (D.told disk.old) }
        ensures keeps { (contents : List Content) → Keeps self.old contents (D.told disk.old) (D.may_leave disk.old)
            → OnOk result (Keeps self.new contents (D.told disk.new) (D.may_leave disk.new)) }
        ensures copies { (copied : List Content) → Copies self.old copied (D.told disk.old)
            → OnOk result (Copies self.new (copied ++ record { kind = kind; payload = payload.now } ∷ []) (D.told disk.new)) }
        // A crash at any moment of the call leaves the area selected that was, with its entries.
        ensures moments { (contents : List Content) → Keeps self.old contents (D.told disk.old) (D.may_leave disk.old)
            → IfTold (D.told disk.old) (D.told disk.new) (CopyMoments 1 (HoldsIn self.old.area contents) (D.may_leave disk.old) (D.may_leave disk.new)) }
        ensures others { IfTold (D.told disk.old) (D.told disk.new) (LeavesAllBut (other_area self.old.area) (D.may_leave disk.old) (D.may_leave disk.new)) }
        ensures calls { OnOk result (IfTold (D.told disk.old) (D.told disk.new) (λ before after. after.moments ≡ before.moments + 1)) }
        ensures ok { OnOk result (self.new ≡ record self.old { copied_end = self.old.copied_end + 6 + length payload.now }) }
        ensures err { OnErr result (self.new ≡ record self.old { is_spent = true }) }
        ensures host { LeavesHost D.told D.above disk.old disk.new }
        ensures cause { HasCause (D.faults disk.old) (D.faults disk.new) result }
    {
        write_entry(&mut self.buffer, kind, payload);
        match add_copied(disk, other_area(self.area), self.copied_end, &self.buffer) {
            Ok(()) => {
                self.copied_end += 6 + payload.len() as u64;
                Ok(())
            }
            Err(Failed) => {
                self.is_spent = true;
                Err(Failed)
            }
        }
    }

    /// Ends a copy, by four calls of the disk: a closed gate behind the copied entries and its sync, then Head's byte for their area and
    /// its sync. From then on the journal stands on that area.
    pub fn switch<D: Disk>(&mut self, disk: &mut D) -> Result<(), Failed>
        requires unspent { self.old.is_spent ≡ false }
        requires keeps { (contents : List Content) × Keeps self.old contents (D.told disk.old) (D.may_leave disk.old) }
        requires copies { (copied : List Content) × Copies self.old copied (D.told disk.old) }
        ensures keeps { (copied : List Content) → Copies self.old copied (D.told disk.old)
            → OnOk result (Keeps self.new copied (D.told disk.new) (D.may_leave disk.new)) }
        ensures bytes { (copied : List Content) → Copies self.old copied (D.told disk.old)
            → OnOk result (IfTold (D.told disk.old) (D.told disk.new) (λ before after. selected after.areas ≡ area_bytes copied)) }
        // A crash at any moment of the call leaves the entries from before or the copied ones, each in its area.
        ensures moments { (contents copied : List Content) → Keeps self.old contents (D.told disk.old) (D.may_leave disk.old) → Copies self.old copied (D.told disk.old)
            → IfTold (D.told disk.old) (D.told disk.new) (CopyMoments 4 (HoldsEither self.old.area contents copied) (D.may_leave disk.old) (D.may_leave disk.new)) }
        // The area from before is left as it is.
        ensures old { IfTold (D.told disk.old) (D.told disk.new) (λ before after. area_of self.old.area after.areas ≡ area_of self.old.area before.areas) }
        ensures head { OnOk result (IfTold (D.told disk.old) (D.told disk.new) (λ before after.
            Written 0 (head_byte (other_area self.old.area) ∷ []) before.areas.head after.areas.head)) }
        ensures calls { OnOk result (IfTold (D.told disk.old) (D.told disk.new) (λ before after. after.moments ≡ before.moments + 4)) }
        ensures ok { OnOk result (self.new ≡ record self.old { area = other_area self.old.area; end = self.old.copied_end; is_copying = false }) }
        ensures err { OnErr result (self.new ≡ record self.old { is_spent = true }) }
        ensures host { LeavesHost D.told D.above disk.old disk.new }
        ensures cause { HasCause (D.faults disk.old) (D.faults disk.new) result }
    {
        match switch_to(disk, self.area, self.copied_end) {
            Ok(()) => {
                self.area = other_area(self.area);
                self.end = self.copied_end;
                self.is_copying = false;
                Ok(())
            }
            Err(Failed) => {
                self.is_spent = true;
                Err(Failed)
            }
        }
    }

    /// The limit less the used bytes, or 0.
    pub fn room(&self) -> u64
        ensures { result ≡ self.now.limit - (self.now.end + 1) }
    {
        self.limit.saturating_sub(self.end).saturating_sub(1)
    }

    /// How many bytes it may use.
    pub fn limit(&self) -> u64
        ensures { result ≡ self.now.limit }
    {
        self.limit
    }

    /// Whether a call failed, so that the journal has to be opened again.
    pub fn is_spent(&self) -> bool
        ensures { result ≡ self.now.is_spent }
    {
        self.is_spent
    }
}
