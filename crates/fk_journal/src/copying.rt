//! The area into which a journal's entries are copied, and how Head comes to select it.
ghost use Rattle.std.specs.Prelude.{◌≡◌, ℕ, ◌+◌, ◌≤◌, ◌^◌, ◌∷◌, ◌++◌, [], List, length, OnOk};
ghost use Rattle.std.specs.Option.{ForSome};
ghost use Rattle.fk_host.specs.Count.{HasCause};
ghost use Rattle.fk_host.specs.Disk.{IfTold, LeavesHost, Written, area_of};
ghost use Rattle.fk_journal.specs.Entries.{Content, area_bytes, place_behind};
ghost use Rattle.fk_journal.specs.Head.{head_byte, other_area};
ghost use Rattle.fk_journal.specs.Keeps.{selected, HoldsEither, CopyMoments};
ghost use Rattle.fk_journal.specs.Puts.{Touches, IsHeld, IsCopied};

use crate::area::put;
use fk_base::Failed;
use fk_host::{Area, Disk};

/// The format byte.
const FORMAT: [u8; 1] = [2];

/// A gate behind which no entry counts.
const CLOSED: [u8; 1] = [0];

/// The area into which the entries of this one are copied.
pub(crate) fn other_area(area: Area) -> Area
    ensures { result ≡ other_area area }
{
    match area {
        Area::Two => Area::One,
        _ => Area::Two,
    }
}

/// The byte of Head that selects the area.
pub(crate) fn head_byte(area: Area) -> u8
    ensures { result ≡ head_byte area }
{
    match area {
        Area::Two => 1,
        _ => 0,
    }
}

/// Empties the area, and writes the format byte.
pub(crate) fn empty_area<D: Disk>(disk: &mut D, area: Area) -> Result<(), Failed>
    ensures moments { IfTold (D.told disk.old) (D.told disk.new) (Touches area 2 (D.may_leave disk.old) (D.may_leave disk.new)) }
    ensures ok { OnOk result (IfTold (D.told disk.old) (D.told disk.new) (λ before after. area_of area after.areas ≡ 2 ∷ [])) }
    ensures calls { OnOk result (IfTold (D.told disk.old) (D.told disk.new) (λ before after. after.moments ≡ before.moments + 2)) }
    ensures host { LeavesHost D.told D.above disk.old disk.new }
    ensures cause { HasCause (D.faults disk.old) (D.faults disk.new) result }
{
    disk.cut(area, 0)?;
    disk.write_at(area, 0, &FORMAT)
}

/// Writes an entry behind the last byte of the area.
pub(crate) fn add_copied<D: Disk>(
    disk: &mut D,
    area: Area,
    end: u64,
    entry: &[u8],
) -> Result<(), Failed>
    requires { ForSome (D.told disk.old) (λ now. end ≡ length (area_of area now.areas)) }
    ensures within { OnOk result (end + length entry.now ≤ 2 ^ 40) }
    ensures moments { IfTold (D.told disk.old) (D.told disk.new) (Touches area 1 (D.may_leave disk.old) (D.may_leave disk.new)) }
    ensures ok { OnOk result (IfTold (D.told disk.old) (D.told disk.new) (λ before after. area_of area after.areas ≡ area_of area before.areas ++ entry.now)) }
    ensures calls { OnOk result (IfTold (D.told disk.old) (D.told disk.new) (λ before after. after.moments ≡ before.moments + 1)) }
    ensures host { LeavesHost D.told D.above disk.old disk.new }
    ensures cause { HasCause (D.faults disk.old) (D.faults disk.new) result }
{
    disk.write_at(area, end, entry)
}

/// Closes the copied entries, and lets Head select their area.
pub(crate) fn switch_to<D: Disk>(disk: &mut D, from: Area, end: u64) -> Result<(), Failed>
    requires held { (contents : List Content) × IsHeld from contents (D.told disk.old) (D.may_leave disk.old) }
    requires copied { (copied : List Content) × (end ≡ place_behind copied) × IsCopied from copied (D.told disk.old) }
    ensures within { OnOk result (end + 1 ≤ 2 ^ 40) }
    ensures held { (copied : List Content) → end ≡ place_behind copied → IsCopied from copied (D.told disk.old)
        → OnOk result (IsHeld (other_area from) copied (D.told disk.new) (D.may_leave disk.new)) }
    ensures bytes { (copied : List Content) → end ≡ place_behind copied → IsCopied from copied (D.told disk.old)
        → OnOk result (IfTold (D.told disk.old) (D.told disk.new) (λ before after. selected after.areas ≡ area_bytes copied)) }
    ensures moments { (contents copied : List Content) → IsHeld from contents (D.told disk.old) (D.may_leave disk.old)
        → end ≡ place_behind copied → IsCopied from copied (D.told disk.old)
        → IfTold (D.told disk.old) (D.told disk.new) (CopyMoments 4 (HoldsEither from contents copied) (D.may_leave disk.old) (D.may_leave disk.new)) }
    ensures old { IfTold (D.told disk.old) (D.told disk.new) (λ before after. area_of from after.areas ≡ area_of from before.areas) }
    ensures head { OnOk result (IfTold (D.told disk.old) (D.told disk.new) (λ before after.
        Written 0 (head_byte (other_area from) ∷ []) before.areas.head after.areas.head)) }
    ensures calls { OnOk result (IfTold (D.told disk.old) (D.told disk.new) (λ before after. after.moments ≡ before.moments + 4)) }
    ensures host { LeavesHost D.told D.above disk.old disk.new }
    ensures cause { HasCause (D.faults disk.old) (D.faults disk.new) result }
{
    let area = other_area(from);
    put(disk, area, end, &CLOSED)?;
    put(disk, Area::Head, 0, &[head_byte(area)])
}
