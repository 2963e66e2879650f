//! What follows from the definitions alone. Each function is a law, and does nothing.
ghost use Rattle.std.specs.Prelude.{◌≡◌, ℕ, ◌≤◌, Bool, true, false, List, [], ◌++◌};
ghost use Rattle.fk_host.specs.Disk.{Areas, IfTold, LeavesAreas};
ghost use Rattle.fk_trace.specs.declared.change.Change.{Change};
ghost use Rattle.fk_trace.specs.Ledger.{after};
ghost use Rattle.fk_ledger.specs.Holds.{HoldsChanges, HoldsLedger, IsLedgerDamagedAt, KeepsLedger};
ghost use Rattle.fk_ledger.specs.Stretch.{StretchOf, StretchUntil};

use fk_host::Disk;

/// The areas hold one ledger at most, or they are damaged, at one place, and hold none.
pub fn no_area_holds_two_ledgers()
    ensures ledgers { (image : Areas) (a b : List Change) → HoldsLedger image a → HoldsLedger image b → a ≡ b }
    ensures damaged { (image : Areas) (ledger : List Change) (place : ℕ) → HoldsLedger image ledger → IsLedgerDamagedAt image place → ⊥ }
    ensures places { (image : Areas) (a b : ℕ) → IsLedgerDamagedAt image a → IsLedgerDamagedAt image b → a ≡ b }
    // So it is of the changes that stand there.
    ensures changes { (image : Areas) (a b : List Change) → HoldsChanges image a → HoldsChanges image b → a ≡ b }
    ensures sound { (image : Areas) (changes : List Change) (place : ℕ) → HoldsChanges image changes → IsLedgerDamagedAt image place → ⊥ }
    // Where a ledger is held, changes stand.
    ensures found { (image : Areas) (ledger : List Change) → HoldsLedger image ledger → (changes : List Change) × HoldsChanges image changes }
{}

/// Calls that leave the areas are a whole stretch without changes over a ledger that the disk keeps, and it keeps that ledger.
pub fn calls_that_leave_the_areas_are_a_stretch<D: Disk>(old: &D, new: &D)
    ensures stretch { (ledger : List Change) → KeepsLedger ledger (D.told old.now) (D.may_leave old.now)
        → IfTold (D.told old.now) (D.told new.now) (LeavesAreas (D.may_leave old.now) (D.may_leave new.now))
        → StretchOf D.Disk old.now new.now ledger [] true }
    ensures keeps { (ledger : List Change) → KeepsLedger ledger (D.told old.now) (D.may_leave old.now)
        → IfTold (D.told old.now) (D.told new.now) (LeavesAreas (D.may_leave old.now) (D.may_leave new.now))
        → KeepsLedger ledger (D.told new.now) (D.may_leave new.now) }
{}

/// Two stretches that adjoin, of which the first is whole, are one with the changes of both.
pub fn adjoining_stretches_are_one<D: Disk>(first: &D, second: &D, third: &D)
    ensures { (ledger a b : List Change) (whole : Bool) → StretchOf D.Disk first.now second.now ledger a true
        → StretchOf D.Disk second.now third.now (after ledger a) b whole → StretchOf D.Disk first.now third.now ledger (a ++ b) whole }
{}

/// What stood up to any moment of a stretch is a stretch.
pub fn a_stretch_may_be_cut<D: Disk>(old: &D, new: &D)
    ensures { (ledger changes : List Change) (whole : Bool) (k : ℕ) → StretchOf D.Disk old.now new.now ledger changes whole
        → StretchUntil D.Disk k old.now new.now ledger changes }
{}
