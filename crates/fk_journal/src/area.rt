//! The areas that a journal reads and writes: Head says which, and that one is read as a whole, and written with a sync behind each write.
ghost use Rattle.std.specs.Prelude.{◌≡◌, ℕ, ◌+◌, ◌<◌, ◌≤◌, ◌^◌, ◌∷◌, ◌++◌, [], List, length, IfOk, IfSome, IsErrOf, OnOk};
ghost use Rattle.std.specs.Option.{ForSome};
ghost use Rattle.fk_host.specs.Count.{HasCause, HasCauseBy};
ghost use Rattle.fk_host.specs.Disk.{IfTold, LeavesAreas, LeavesHost, Written, area_of};
ghost use Rattle.fk_journal.specs.Entries.{Content, IsContent, body, entry_bytes, area_bytes, place_behind, contents_of, ArePlacedFrom, HoldsEntries, IsDamagedAt};
ghost use Rattle.fk_journal.specs.Head.{area_by};
ghost use Rattle.fk_journal.specs.Keeps.{selected_area, selected, StandsOn, LeavesAllBut, LeavesOthers, IsSettled, IsOpening, IsAppend, is_disk_fault};
ghost use Rattle.fk_journal.specs.Puts.{Puts, HasPut, HasHead, HasRead, IsHeld};

use crate::entry::entries_of;
use crate::{Entry, JournalErr};
use fk_base::Failed;
use fk_host::{Area, Disk};
use std::alloc::Global;

/// A gate that lets its entry count.
const OPEN: [u8; 1] = [1];

/// The area of a journal without an entry: the format byte and a closed gate.
const EMPTY: [u8; 2] = [2, 0];

/// An area as it was opened.
#[derive(Drop)]
pub(crate) struct Opened {
    pub area: Area,
    pub entries: Vec<Entry>,
    /// The place of the gate behind them.
    pub end: usize,
}

/// The area that the bytes of Head select.
fn area_in(head: &[u8]) -> Area
    ensures { result ≡ area_by head.now }
{
    match head.first() {
        Some(byte) if *byte % 2 != 0 => Area::Two,
        _ => Area::One,
    }
}

/// Reads which area Head selects: what stands behind its first byte is not read.
pub(crate) fn read_head<D: Disk>(disk: &mut D) -> Result<Area, Failed>
    ensures selects { IfOk result (λ area. IfTold (D.told disk.old) (D.told disk.new) (λ before after. area ≡ selected_area before.areas)) }
    ensures areas { IfTold (D.told disk.old) (D.told disk.new) (LeavesAreas (D.may_leave disk.old) (D.may_leave disk.new)) }
    ensures calls { IfTold (D.told disk.old) (D.told disk.new) (λ before after. after.moments ≡ before.moments + 1) }
    ensures host { LeavesHost D.told D.above disk.old disk.new }
    ensures cause { HasCause (D.faults disk.old) (D.faults disk.new) result }
{
    let mut byte = [0; 1];
    let count = disk.read(Area::Head, 0, &mut byte)?;
    Ok(area_in(&byte[..count]))
}

/// Syncs Head, and reads which area it selects.
fn sync_head<D: Disk>(disk: &mut D) -> Result<Area, Failed>
    ensures head { IfOk result (λ area. IfTold (D.told disk.old) (D.told disk.new) (HasHead area (D.may_leave disk.old) (D.may_leave disk.new))) }
    ensures areas { IfTold (D.told disk.old) (D.told disk.new) (LeavesAreas (D.may_leave disk.old) (D.may_leave disk.new)) }
    ensures calls { IfTold (D.told disk.old) (D.told disk.new) (λ before after. after.moments ≤ before.moments + 2) }
    ensures host { LeavesHost D.told D.above disk.old disk.new }
    ensures cause { HasCause (D.faults disk.old) (D.faults disk.new) result }
{
    disk.sync(Area::Head)?;
    read_head(disk)
}

/// All bytes of the area.
pub(crate) fn read_area<D: Disk>(
    alloc: Global,
    disk: &mut D,
    area: Area,
) -> Result<Vec<u8>, JournalErr>
    ensures bytes { IfOk result (λ bytes. IfTold (D.told disk.old) (D.told disk.new) (λ before after. bytes.items ≡ area_of area before.areas)) }
    ensures areas { IfTold (D.told disk.old) (D.told disk.new) (LeavesAreas (D.may_leave disk.old) (D.may_leave disk.new)) }
    ensures calls { IfTold (D.told disk.old) (D.told disk.new) (λ before after. after.moments ≤ before.moments + 2) }
    ensures undamaged { (place : ℕ) → IsErrOf result (JournalErr.Damaged place) → ⊥ }
    ensures host { LeavesHost D.told D.above disk.old disk.new }
    ensures cause { HasCauseBy is_disk_fault (D.faults disk.old) (D.faults disk.new) result }
{
    let len = disk.len(area)?;
    let mut bytes = vec![in alloc; 0; len as usize]?;
    let count = disk.read(area, 0, &mut bytes)?;
    bytes.truncate(count);
    Ok(bytes)
}

/// Syncs the area and reads all bytes of it, behind Head that selects it.
fn sync_and_read<D: Disk>(alloc: Global, disk: &mut D) -> Result<(Area, Vec<u8>), JournalErr>
    ensures bytes { IfOk result (λ r. IfTold (D.told disk.old) (D.told disk.new) (λ before after.
        (r.1.items ≡ selected before.areas) × HasRead r.0 (D.may_leave disk.old) (D.may_leave disk.new) before after)) }
    ensures undamaged { (place : ℕ) → IsErrOf result (JournalErr.Damaged place) → ⊥ }
    ensures moments { IfTold (D.told disk.old) (D.told disk.new) (IsOpening (D.may_leave disk.old) (D.may_leave disk.new)) }
    ensures others { IfTold (D.told disk.old) (D.told disk.new) (LeavesOthers (D.may_leave disk.old) (D.may_leave disk.new)) }
    ensures host { LeavesHost D.told D.above disk.old disk.new }
    ensures cause { HasCauseBy is_disk_fault (D.faults disk.old) (D.faults disk.new) result }
{
    let area = sync_head(disk)?;
    disk.sync(area)?;
    let bytes = read_area(alloc, disk, area)?;
    Ok((area, bytes))
}

/// Syncs Head and the area that it selects, and reads its entries, and the place of the gate behind them. A short area is made an
/// empty journal.
pub(crate) fn open_area<D: Disk>(alloc: Global, disk: &mut D) -> Result<Opened, JournalErr>
    ensures found { IfOk result (λ r. IfTold (D.told disk.old) (D.told disk.new) (λ before after. HoldsEntries (selected before.areas) (contents_of r.entries.items))) }
    ensures places { IfOk result (λ r. ArePlacedFrom 1 r.entries.items) }
    ensures end { IfOk result (λ r. r.end ≡ place_behind (contents_of r.entries.items)) }
    ensures within { IfOk result (λ r. r.end < 2 ^ 63) }
    ensures held { IfOk result (λ r. IsHeld r.area (contents_of r.entries.items) (D.told disk.new) (D.may_leave disk.new)) }
    ensures made { IfOk result (λ r. IfTold (D.told disk.old) (D.told disk.new) (λ before after.
        length (selected before.areas) < 3 → selected after.areas ≡ area_bytes [])) }
    ensures damaged { (place : ℕ) → IsErrOf result (JournalErr.Damaged place) → IfTold (D.told disk.old) (D.told disk.new) (λ before after.
        IsDamagedAt (selected before.areas) place) }
    ensures settled { (place : ℕ) → IsErrOf result (JournalErr.Damaged place) → IfSome (D.told disk.new) (λ now. IsSettled now (D.may_leave disk.new)) }
    ensures moments { IfTold (D.told disk.old) (D.told disk.new) (IsOpening (D.may_leave disk.old) (D.may_leave disk.new)) }
    ensures others { IfTold (D.told disk.old) (D.told disk.new) (LeavesOthers (D.may_leave disk.old) (D.may_leave disk.new)) }
    ensures host { LeavesHost D.told D.above disk.old disk.new }
    ensures cause { HasCauseBy is_disk_fault (D.faults disk.old) (D.faults disk.new) result }
{
    let (area, bytes) = sync_and_read(alloc, disk)?;
    let (entries, end) = entries_of(alloc, &bytes)?;
    let opened = Opened { area, entries, end };
    if bytes.len() >= 3 {
        return Ok(opened);
    }
    put(disk, area, 0, &EMPTY)?;
    Ok(opened)
}

/// Writes the bytes at a place of the area, and syncs it.
pub(crate) fn put<D: Disk>(disk: &mut D, area: Area, at: u64, bytes: &[u8]) -> Result<(), Failed>
    requires { ForSome (D.told disk.old) (λ now. at ≤ length (area_of area now.areas)) }
    ensures within { OnOk result (at + length bytes.now ≤ 2 ^ 40) }
    ensures moments { IfTold (D.told disk.old) (D.told disk.new) (Puts area at (length bytes.now) (D.may_leave disk.old) (D.may_leave disk.new)) }
    ensures ok { OnOk result (IfTold (D.told disk.old) (D.told disk.new) (HasPut area at bytes.now (D.may_leave disk.new))) }
    ensures host { LeavesHost D.told D.above disk.old disk.new }
    ensures cause { HasCause (D.faults disk.old) (D.faults disk.new) result }
{
    disk.write_at(area, at, bytes)?;
    disk.sync(area)
}

/// Puts what stands behind the closing gate, and then opens that gate.
pub(crate) fn put_entry<D: Disk>(
    disk: &mut D,
    area: Area,
    gate: u64,
    behind: &[u8],
) -> Result<(), Failed>
    requires small { gate + 2 ^ 33 ≤ 2 ^ 64 }
    requires held { (contents : List Content) × (gate ≡ place_behind contents) × IsHeld area contents (D.told disk.old) (D.may_leave disk.old) }
    ensures within { OnOk result (gate + 1 + length behind.now ≤ 2 ^ 40) }
    ensures held { (contents : List Content) (content : Content) → IsContent content → behind.now ≡ body content ++ 0 ∷ []
        → gate ≡ place_behind contents → IsHeld area contents (D.told disk.old) (D.may_leave disk.old)
        → OnOk result (IsHeld area (contents ++ content ∷ []) (D.told disk.new) (D.may_leave disk.new)) }
    ensures bytes { (contents : List Content) (content : Content) → behind.now ≡ body content ++ 0 ∷ []
        → gate ≡ place_behind contents → IsHeld area contents (D.told disk.old) (D.may_leave disk.old)
        → OnOk result (IfTold (D.told disk.old) (D.told disk.new) (λ before after.
        Written gate (entry_bytes content ++ 0 ∷ []) (selected before.areas) (selected after.areas))) }
    ensures moments { (contents : List Content) (content : Content) → IsContent content → behind.now ≡ body content ++ 0 ∷ []
        → gate ≡ place_behind contents → IsHeld area contents (D.told disk.old) (D.may_leave disk.old)
        → IfTold (D.told disk.old) (D.told disk.new) (IsAppend contents content (D.may_leave disk.old) (D.may_leave disk.new)) }
    ensures others { IfTold (D.told disk.old) (D.told disk.new) (LeavesAllBut area (D.may_leave disk.old) (D.may_leave disk.new)) }
    ensures calls { OnOk result (IfTold (D.told disk.old) (D.told disk.new) (λ before after. after.moments ≡ before.moments + 4)) }
    ensures host { LeavesHost D.told D.above disk.old disk.new }
    ensures cause { HasCause (D.faults disk.old) (D.faults disk.new) result }
{
    put(disk, area, gate + 1, behind)?;
    put(disk, area, gate, &OPEN)
}
