//! What a machine tells that stands for a trace. Each function is a law, and does nothing.
ghost use Rattle.std.specs.Prelude.{◌≡◌, ℕ, ◌<◌, ◌==◌, ◌&&◌, not, true, false, List, ◌∷◌, length};
ghost use Rattle.std.specs.List.{list_any, All, Contains};
ghost use Rattle.fk_base.specs.declared.purpose.Purpose.TheVariants.{Open, Close};
ghost use Rattle.fk_trace.specs.Trace.{Item, Child, children, running, open_runs, close_runs};
ghost use Rattle.fk_trace.specs.Trace.Event.{Began, StartFailed, Runs, PollFailed};
ghost use Rattle.fk_cycle.specs.Kept.{may_begin, has_running, is_kept};
ghost use Rattle.fk_cycle.specs.Stands.{AreBelow, DueBut, Obligation, Over, StandsBehind, is_owed};

use crate::Machine;

impl Machine {
    /// It keeps exactly the records whose close is owed.
    pub fn keeps_what_is_owed(&self)
        ensures ids { Over self.now.kept (λ past ends live. (id : ℕ) → is_kept id self.now.kept ≡ is_owed live id) }
        ensures count { Over self.now.kept (λ past ends live. length self.now.kept ≡ length live) }
    {}

    /// It keeps each child that runs.
    pub fn keeps_what_runs(&self)
        ensures { Over self.now.kept (λ past ends live. (child : Child) → Contains (running past) child
            → list_any (has_running child.purpose) self.now.kept ≡ true) }
    {}

    /// An open may begin where no child of a record that is owed runs, and a close where no close of it does.
    pub fn lets_begin(&self)
        ensures open { Over self.now.kept (λ past ends live. (id : ℕ) → is_owed live id ≡ true → open_runs past id ≡ false
            → close_runs past id ≡ false → list_any (may_begin (Open id)) self.now.kept ≡ true) }
        ensures close { Over self.now.kept (λ past ends live. (id : ℕ) → is_owed live id ≡ true → close_runs past id ≡ false
            → list_any (may_begin (Close id)) self.now.kept ≡ true) }
    {}

    /// A close that was attempted is due no more in its turn, whether a child began or not, and each other record is due as
    /// before.
    pub fn tries_each_once(&self)
        ensures began { Over self.now.kept (λ past ends live. (id : ℕ) → list_any (may_begin (Close id)) self.now.kept ≡ true
            → (number : ℕ) → AreBelow number past → (words : List (List ℕ)) (owed : Obligation) → Contains live owed
            → DueBut id (Began number (Close id) words) past ends owed) }
        ensures failed { (past : List Item) (ends : List ℕ) (id : ℕ) (words : List (List ℕ)) (owed : Obligation)
            → DueBut id (StartFailed (Close id) words) past ends owed }
    {}

    /// A poll that ends no child tells it nothing.
    pub fn stands_over_polls(&self)
        ensures runs { Over self.now.kept (λ past ends live. (number : ℕ) → StandsBehind self.now.kept (Runs number) past ends live) }
        ensures failed { Over self.now.kept (λ past ends live. (number : ℕ) → StandsBehind self.now.kept (PollFailed number) past ends live) }
    {}
}
