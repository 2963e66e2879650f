ghost use Rattle.std.specs.Prelude.{◌≡◌, ℕ, ◌+◌, ◌==◌, ◌<◌, ◌≤◌, Bool, true, false, List, [], ◌∷◌, ◌++◌, length, map, Option, Some, OnOk};
ghost use Rattle.std.specs.List.{list_any};
ghost use Rattle.fk_trace.specs.Trace.{Item, Child, children, running};
ghost use Rattle.fk_trace.specs.Trace.Event.{Turn, Began, StartFailed, Ended};
ghost use Rattle.fk_trace.specs.Orderly.{is_attempted};
ghost use Rattle.fk_cycle.specs.Kept.{fresh, noted_turn, noted_begun, noted_not_begun, noted_ended, may_begin, has_running, is_kept};
ghost use Rattle.fk_cycle.specs.Stands.{AreBelow, IsNextDue, Over, RunsFor, Stands, StandsBehind};
ghost use Rattle.fk_cycle.specs.Acts.{act_at, act_by, owed_after, kept_after};

use crate::Act;
use crate::dues::Dues;
use crate::records::Records;
use fk_base::{Moment, NoMemory, Purpose};
use std::alloc::Global;
use std::marker::Model;

/// Keeps what the trace says of each record whose close is owed.
#[derive(Drop)]
pub struct Machine {
    records: Records,
    dues: Dues,
}

impl Model for Machine {
    ghost use Rattle.std.specs.Prelude.{min};
    ghost use Rattle.fk_cycle.specs.Kept.{Register};
    ghost use Rattle.fk_cycle.specs.Private.{IsReady};

    ghost Value = { Register };

    ghost view = { λ m. record { kept = m.records.kept; room = min m.records.room m.dues.room } };

    ghost invariant = { λ m. IsReady m.records.kept m.dues };
}

impl Machine {
    /// Keeps nothing, and has no room yet.
    pub fn new(alloc: Global) -> Self
        ensures kept { result.kept ≡ [] }
        ensures stands { Stands result.kept [] [] [] }
    {
        Machine {
            records: Records::new(alloc),
            dues: Dues::new(alloc),
        }
    }

    /// How many records it keeps.
    pub fn count(&self) -> usize
        ensures { result ≡ length self.now.kept }
    {
        self.records.count()
    }

    /// Makes room for one more record.
    pub fn reserve(&mut self) -> Result<(), NoMemory>
        ensures kept { self.new.kept ≡ self.old.kept }
        ensures ok { OnOk result (1 ≤ self.new.room) }
        ensures room { self.old.room ≤ self.new.room }
    {
        self.records.reserve()?;
        self.dues.reserve()
    }

    /// A record was made, whose close is due at the second `due`.
    pub fn opened(&mut self, id: u64, due: u64)
        requires room { 1 ≤ self.old.room }
        requires unknown { is_kept id self.old.kept ≡ false }
        ensures kept { self.new.kept ≡ self.old.kept ++ fresh id due ∷ [] }
        ensures room { self.new.room + 1 ≡ self.old.room }
        ensures stands { Over self.old.kept (λ past ends live. is_attempted past id ≡ false
            → Stands self.new.kept past ends (live ++ record { id = id; due = due } ∷ [])) }
    {
        self.records.push(id, due);
        self.dues.put(id, due);
    }

    /// A turn began: no close was tried in it yet.
    pub fn turn(&mut self)
        ensures kept { self.new.kept ≡ map noted_turn self.old.kept }
        ensures room { self.new.room ≡ self.old.room }
        ensures stands { Over self.old.kept (λ past ends live. (number : ℕ) → StandsBehind self.new.kept (Turn number) past ends live) }
    {
        self.note_turn();
    }

    /// A child began for this purpose.
    pub fn begun(&mut self, purpose: Purpose)
        requires { list_any (may_begin purpose) self.old.kept ≡ true }
        ensures kept { self.new.kept ≡ map (noted_begun purpose) self.old.kept }
        ensures room { self.new.room ≡ self.old.room }
        ensures stands { Over self.old.kept (λ past ends live. (number : ℕ) → AreBelow number past
            → (words : List (List ℕ)) → StandsBehind self.new.kept (Began number purpose words) past ends live) }
    {
        self.note_begun(purpose);
    }

    /// No child began for this purpose: a close counts as attempted in this turn.
    pub fn not_begun(&mut self, purpose: Purpose)
        ensures kept { self.new.kept ≡ map (noted_not_begun purpose) self.old.kept }
        ensures room { self.new.room ≡ self.old.room }
        ensures stands { Over self.old.kept (λ past ends live. (words : List (List ℕ))
            → StandsBehind self.new.kept (StartFailed purpose words) past ends live) }
    {
        self.note_not_begun(purpose);
    }

    /// The child for this purpose ended at this moment. Where its record is settled, it is no longer kept.
    pub fn ended(&mut self, purpose: Purpose, good: bool, moment: Moment) -> Act
        requires { list_any (has_running purpose) self.old.kept ≡ true }
        ensures act { result ≡ act_by self.old.kept purpose good }
        ensures kept { self.new.kept ≡ kept_after result (map (noted_ended purpose good moment) self.old.kept) }
        ensures room { self.old.room ≤ self.new.room }
        ensures tells { Over self.old.kept (λ past ends live. (number : ℕ) → RunsFor past number purpose → result ≡ act_at past number purpose good) }
        ensures stands { Over self.old.kept (λ past ends live. (number : ℕ) → RunsFor past number purpose
            → StandsBehind self.new.kept (Ended number good) past (moment ∷ ends) (owed_after result live)) }
    {
        let act = self.act(purpose, good);
        self.note_ended(purpose, good, moment);
        self.forget_settled(&act);
        act
    }

    /// The record whose close has to be attempted first at this moment.
    pub fn due(&mut self, moment: Moment) -> Option<u64>
        ensures kept { self.new.kept ≡ self.old.kept }
        ensures room { self.new.room ≡ self.old.room }
        ensures stands { Over self.old.kept (λ past ends live. IsNextDue past ends moment live result) }
    {
        self.dues.first(&self.records, moment.get())
    }

    /// It keeps something for the record.
    pub fn keeps(&self, id: u64) -> bool
        ensures { result ≡ is_kept id self.now.kept }
    {
        self.records.keeps(id)
    }

    /// A child for this purpose may begin: an open where neither an open nor a close of its record runs, and a close where
    /// no close of its record runs.
    pub fn may_begin(&self, purpose: Purpose) -> bool
        ensures { result ≡ list_any (may_begin purpose) self.now.kept }
    {
        self.records.may_begin(purpose)
    }

    /// A child for this purpose runs.
    pub fn has_running(&self, purpose: Purpose) -> bool
        ensures { result ≡ list_any (has_running purpose) self.now.kept }
    {
        self.records.has_running(purpose)
    }

    fn note_turn(&mut self)
        ensures kept { self.new.kept ≡ map noted_turn self.old.kept }
        ensures room { self.new.room ≡ self.old.room }
    {
        self.records.turn();
        self.dues.look_again();
    }

    // A close that began takes away from what may be closed, so what was passed over stays passed over.
    fn note_begun(&mut self, purpose: Purpose)
        ensures kept { self.new.kept ≡ map (noted_begun purpose) self.old.kept }
        ensures room { self.new.room ≡ self.old.room }
    {
        self.records.begun(purpose);
    }

    fn note_not_begun(&mut self, purpose: Purpose)
        ensures kept { self.new.kept ≡ map (noted_not_begun purpose) self.old.kept }
        ensures room { self.new.room ≡ self.old.room }
    {
        self.records.not_begun(purpose);
    }

    fn note_ended(&mut self, purpose: Purpose, good: bool, moment: Moment)
        ensures kept { self.new.kept ≡ map (noted_ended purpose good moment) self.old.kept }
        ensures room { self.new.room ≡ self.old.room }
    {
        self.records.ended(purpose, good, moment);
        self.dues.look_again();
    }

    fn forget_settled(&mut self, act: &Act)
        ensures kept { self.new.kept ≡ kept_after act.now self.old.kept }
        ensures room { self.old.room ≤ self.new.room }
    {
        if let Act::Settle(end) = act {
            let id = end.id();
            let due = self.records.due_hint(id);
            self.dues.drop_id(id, due);
            self.records.remove(id);
        }
    }

    fn act(&self, purpose: Purpose, good: bool) -> Act
        ensures { result ≡ act_by self.now.kept purpose good }
    {
        self.records.act(purpose, good)
    }
}
