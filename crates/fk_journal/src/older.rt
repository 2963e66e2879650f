//! An area in the format before this one is read, and the bytes of another list of entries are put in the place of what Head selects.
ghost use Rattle.std.specs.Prelude.{◌≡◌, ℕ, ◌+◌, ◌≤◌, ◌<◌, ◌^◌, ◌∷◌, ◌++◌, [], List, length, IfOk, IfSome, IsErrOf, OnOk};
ghost use Rattle.fk_host.specs.Count.{HasCause, HasCauseBy};
ghost use Rattle.fk_host.specs.Disk.{IfTold, LeavesAreas, LeavesHost, area_of};
ghost use Rattle.fk_journal.specs.Entries.{format_byte, entry_bytes, contents_of, ArePlacedFrom};
ghost use Rattle.fk_journal.specs.Keeps.{selected, IsSettled, is_disk_fault};
ghost use Rattle.fk_journal.specs.Older.{HoldsOlderEntries, HasNoOlderAt, Replaces};
ghost use Rattle.fk_journal.specs.Puts.{HasAnew, Touches};
ghost use Rattle.fk_journal.specs.declared.fault.JournalErr.TheVariants.{Disk as DiskFails};

use crate::area::{put, read_area, read_head};
use crate::copying::{head_byte, other_area};
use crate::entry::{entries_of, push_entry};
use crate::{Entry, JournalErr};
use fk_base::{Failed, NoMemory};
use fk_host::{Area, Disk};
use std::alloc::Global;

/// The format byte.
const FORMAT: u8 = 2;

/// That of the format before it.
const OLDER: u8 = 1;

/// The entries of the area that Head selects, where it is of the format before this one, by three calls of the disk. Nothing is written
/// or synced.
pub fn read_older<D: Disk>(alloc: Global, disk: &mut D) -> Result<Vec<Entry>, JournalErr>
    ensures held { IfOk result (λ entries. IfTold (D.told disk.old) (D.told disk.new) (λ before after.
        HoldsOlderEntries (selected before.areas) (contents_of entries.items))) }
    ensures places { IfOk result (λ entries. ArePlacedFrom 1 entries.items) }
    ensures damaged { (place : ℕ) → IsErrOf result (JournalErr.Damaged place) → IfTold (D.told disk.old) (D.told disk.new) (λ before after.
        HasNoOlderAt (selected before.areas) place) }
    ensures areas { IfTold (D.told disk.old) (D.told disk.new) (LeavesAreas (D.may_leave disk.old) (D.may_leave disk.new)) }
    ensures calls { IfTold (D.told disk.old) (D.told disk.new) (λ before after. after.moments ≤ before.moments + 3) }
    ensures host { LeavesHost D.told D.above disk.old disk.new }
    ensures cause { HasCauseBy is_disk_fault (D.faults disk.old) (D.faults disk.new) result }
{
    let area = read_head(disk)?;
    let bytes = read_area(alloc, disk, area)?;
    older_entries_of(alloc, bytes)
}

/// The entries that the bytes of an area of the older format hold.
fn older_entries_of(alloc: Global, area: Vec<u8>) -> Result<Vec<Entry>, JournalErr>
    ensures held { IfOk result (λ entries. HoldsOlderEntries area.items (contents_of entries.items)) }
    ensures places { IfOk result (λ entries. ArePlacedFrom 1 entries.items) }
    ensures damaged { (place : ℕ) → IsErrOf result (JournalErr.Damaged place) → HasNoOlderAt area.items place }
    ensures other { IsErrOf result DiskFails → ⊥ }
{
    let mut bytes = area;
    if bytes.len() < 3 || bytes[0] != OLDER {
        return Err(JournalErr::Damaged(0));
    }
    bytes[0] = FORMAT;
    let (entries, _) = entries_of(alloc, &bytes)?;
    Ok(entries)
}

/// The front of what is written for a list of entries: the format byte.
pub fn begin_list(alloc: Global) -> Result<Vec<u8>, NoMemory>
    ensures { IfOk result (λ bytes. bytes.items ≡ format_byte ∷ []) }
{
    let mut bytes = Vec::new(alloc);
    bytes.push(FORMAT)?;
    Ok(bytes)
}

/// One entry more behind them.
pub fn add_to_list(bytes: &mut Vec<u8>, kind: u8, payload: &[u8]) -> Result<(), NoMemory>
    requires { length payload.now < 2 ^ 32 }
    ensures { OnOk result (bytes.new.items ≡ bytes.old.items ++ entry_bytes (record { kind = kind; payload = payload.now })) }
{
    bytes.reserve(payload.len() + 6)?;
    push_entry(bytes, kind, payload);
    Ok(())
}

/// The end of the list: a closed gate.
pub fn close_list(bytes: &mut Vec<u8>) -> Result<(), NoMemory>
    ensures { OnOk result (bytes.new.items ≡ bytes.old.items ++ 0 ∷ []) }
{
    bytes.push(0)?;
    Ok(())
}

/// Puts these bytes in the place of the area that Head selects, by six calls of the disk: Head is read, they are written to the other
/// area, which is emptied before and synced behind it, and Head's byte for that is written and synced.
pub fn replace<D: Disk>(disk: &mut D, bytes: &[u8]) -> Result<(), Failed>
    requires { IfSome (D.told disk.old) (λ now. IsSettled now (D.may_leave disk.old)) }
    // A crash at any moment of the call leaves selected what was, or these bytes.
    ensures moments { IfTold (D.told disk.old) (D.told disk.new) (Replaces bytes.now (D.may_leave disk.old) (D.may_leave disk.new)) }
    ensures ok { OnOk result (IfTold (D.told disk.old) (D.told disk.new) (λ before after.
        (selected after.areas ≡ bytes.now) × IsSettled after (D.may_leave disk.new))) }
    ensures host { LeavesHost D.told D.above disk.old disk.new }
    ensures cause { HasCause (D.faults disk.old) (D.faults disk.new) result }
{
    let area = other_area(read_head(disk)?);
    write_anew(disk, area, bytes)?;
    put(disk, Area::Head, 0, &[head_byte(area)])
}

/// Empties the area, writes the bytes there, and syncs it.
fn write_anew<D: Disk>(disk: &mut D, area: Area, bytes: &[u8]) -> Result<(), Failed>
    ensures moments { IfTold (D.told disk.old) (D.told disk.new) (Touches area 3 (D.may_leave disk.old) (D.may_leave disk.new)) }
    ensures ok { OnOk result (IfTold (D.told disk.old) (D.told disk.new) (HasAnew area bytes.now (D.may_leave disk.new))) }
    ensures host { LeavesHost D.told D.above disk.old disk.new }
    ensures cause { HasCause (D.faults disk.old) (D.faults disk.new) result }
{
    disk.cut(area, 0)?;
    put(disk, area, 0, bytes)
}
