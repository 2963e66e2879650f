//! What follows from the definitions alone. Each function is a law, and does nothing.
ghost use Rattle.std.specs.Prelude.{◌≡◌, ℕ, List, [], ◌++◌};
ghost use Rattle.fk_trace.specs.declared.change.Change.{Change};
ghost use Rattle.fk_trace.specs.Trace.{Item};
ghost use Rattle.fk_trace.specs.Ledger.{after, IsLedger};
ghost use Rattle.fk_run.specs.Left.{MayStandBefore};
ghost use Rattle.fk_run.specs.Place.{Place};
ghost use Rattle.fk_run.specs.Turn.{AttemptsEachDue};
ghost use Rattle.fk_ledger.specs.Holds.{KeepsLedger};
ghost use Rattle.fk_child.specs.View.{view_of, Adds};
ghost use Rattle.fk_child.specs.Calls.{NoneTried, AttemptsInTurn};

use fk_host::Host;

/// No calls add nothing, where the disk keeps the ledger.
pub fn no_calls_add_nothing<H: Host>(host: &H)
    ensures { let view = view_of H.Disk in (ledger : List Change)
        → KeepsLedger ledger (H.told host.now) (H.may_leave host.now) → Adds [] ledger [] [] (view host.now) (view host.now) }
{}

/// Calls of one turn that adjoin add up, where none of the first failed and they left the disk's count of faults, and each change of both
/// stands between the items that attempt nothing and the attempts.
pub fn adjoining_calls_add_up<H: Host>(first: &H, second: &H, third: &H)
    ensures { let view = view_of H.Disk in (earlier later : List Item) (ledger a b failing : List Change)
        → MayStandBefore earlier a later (b ++ failing) → H.faults second.now ≡ H.faults first.now
        → Adds earlier ledger a [] (view first.now) (view second.now) → Adds later (after ledger a) b failing (view second.now) (view third.now)
        → Adds (earlier ++ later) ledger (a ++ b) failing (view first.now) (view third.now) }
{}

/// The closes that are due next, attempted one after another until none is, are those of the idle records that are due: each is
/// attempted exactly once, in order.
pub fn due_closes_are_attempted_in_order()
    ensures { (moment : ℕ) (place : Place) (items : List Item) → IsLedger place.ledger → NoneTried place.past
        → AttemptsInTurn moment place items → AttemptsEachDue place moment items }
{}
