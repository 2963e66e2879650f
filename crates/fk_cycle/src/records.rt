ghost use Rattle.std.specs.Prelude.{◌≡◌, ◌+◌, ◌≤◌, ◌==◌, true, false, not, [], ◌∷◌, ◌++◌, length, map, position, Some, IfSome, IfNone, OnOk};
ghost use Rattle.std.specs.List.{list_any, find, filter};
ghost use Rattle.std.specs.Option.{option_map};
ghost use Rattle.fk_cycle.specs.Kept.{fresh, noted_turn, noted_begun, noted_not_begun, noted_ended, may_begin, has_running, is_kept};
ghost use Rattle.fk_cycle.specs.Private.{is_ready_at, IsPlaceOf};
ghost use Rattle.fk_cycle.specs.Acts.{act_by};
ghost use Rattle.fk_cycle.specs.Stands.{record_of};

use crate::Act;
use crate::kept::Kept;
use fk_base::{Moment, NoMemory, Purpose};
use std::alloc::Global;
use std::marker::Model;

/// What is kept for each record, and the number of the turn.
#[derive(Drop)]
pub(crate) struct Records {
    kept: Vec<Kept>,
    turn: u64,
}

impl Model for Records {
    ghost use Rattle.std.specs.Prelude.{◌-◌, map, vec_len, vec_capacity};
    ghost use Rattle.fk_cycle.specs.Kept.{Register};
    ghost use Rattle.fk_cycle.specs.Private.{kept_at, IsRecorded};

    ghost Value = { Register };

    ghost view = { λ r. record { kept = map (kept_at r.turn) r.kept.items; room = vec_capacity r.kept - vec_len r.kept } };

    ghost invariant = { λ r. IsRecorded r.turn r.kept.items };
}

impl Records {
    pub(crate) fn new(alloc: Global) -> Self
        ensures kept { result.kept ≡ [] }
    {
        Records {
            kept: Vec::new(alloc),
            turn: 1,
        }
    }

    pub(crate) fn count(&self) -> usize
        ensures { result ≡ length self.now.kept }
    {
        self.kept.len()
    }

    pub(crate) fn reserve(&mut self) -> Result<(), NoMemory>
        ensures kept { self.new.kept ≡ self.old.kept }
        ensures ok { OnOk result (1 ≤ self.new.room) }
        ensures room { self.old.room ≤ self.new.room }
    {
        self.kept.reserve(1)?;
        Ok(())
    }

    pub(crate) fn push(&mut self, id: u64, due: u64)
        requires room { 1 ≤ self.old.room }
        requires unknown { is_kept id self.old.kept ≡ false }
        ensures kept { self.new.kept ≡ self.old.kept ++ fresh id due ∷ [] }
        ensures room { self.new.room + 1 ≡ self.old.room }
    {
        self.kept.push_reserved(Kept::new(id, due));
    }

    pub(crate) fn turn(&mut self)
        ensures kept { self.new.kept ≡ map noted_turn self.old.kept }
        ensures room { self.new.room ≡ self.old.room }
    {
        match self.turn.checked_add(1) {
            Some(turn) => self.turn = turn,
            None => self.begin_again(),
        }
    }

    // The numbers of turns begin again.
    fn begin_again(&mut self)
        ensures kept { self.new.kept ≡ map noted_turn self.old.kept }
        ensures room { self.new.room ≡ self.old.room }
    {
        for kept in self.kept.iter_mut() {
            kept.forget_turn();
        }
        self.turn = 1;
    }

    pub(crate) fn begun(&mut self, purpose: Purpose)
        ensures kept { self.new.kept ≡ map (noted_begun purpose) self.old.kept }
        ensures room { self.new.room ≡ self.old.room }
    {
        match place_of(&self.kept, record_of(purpose)) {
            Some(place) => self.kept[place].begun(purpose, self.turn),
            None => {}
        }
    }

    pub(crate) fn not_begun(&mut self, purpose: Purpose)
        ensures kept { self.new.kept ≡ map (noted_not_begun purpose) self.old.kept }
        ensures room { self.new.room ≡ self.old.room }
    {
        match place_of(&self.kept, record_of(purpose)) {
            Some(place) => self.kept[place].not_begun(purpose, self.turn),
            None => {}
        }
    }

    pub(crate) fn ended(&mut self, purpose: Purpose, good: bool, moment: Moment)
        ensures kept { self.new.kept ≡ map (noted_ended purpose good moment) self.old.kept }
        ensures room { self.new.room ≡ self.old.room }
    {
        match place_of(&self.kept, record_of(purpose)) {
            Some(place) => self.kept[place].ended(purpose, good, moment),
            None => {}
        }
    }

    /// What is kept for the record is forgotten.
    pub(crate) fn remove(&mut self, id: u64)
        ensures kept { self.new.kept ≡ filter (λ kept. not (kept.id == id)) self.old.kept }
        ensures room { self.old.room ≤ self.new.room }
    {
        match place_of(&self.kept, id) {
            Some(place) => {
                self.kept.remove(place);
            }
            None => {}
        }
    }

    pub(crate) fn keeps(&self, id: u64) -> bool
        ensures { result ≡ is_kept id self.now.kept }
    {
        match place_of(&self.kept, id) {
            Some(_) => true,
            None => false,
        }
    }

    pub(crate) fn may_begin(&self, purpose: Purpose) -> bool
        ensures { result ≡ list_any (may_begin purpose) self.now.kept }
    {
        match place_of(&self.kept, record_of(purpose)) {
            Some(place) => self.kept[place].may_begin(purpose),
            None => false,
        }
    }

    pub(crate) fn has_running(&self, purpose: Purpose) -> bool
        ensures { result ≡ list_any (has_running purpose) self.now.kept }
    {
        match place_of(&self.kept, record_of(purpose)) {
            Some(place) => self.kept[place].has_running(purpose),
            None => false,
        }
    }

    pub(crate) fn is_ready(&self, id: u64, moment: u64) -> bool
        ensures { result ≡ is_ready_at moment self.now.kept id }
    {
        match place_of(&self.kept, id) {
            Some(place) => self.kept[place].is_ready(moment, self.turn),
            None => false,
        }
    }

    pub(crate) fn due(&self, id: u64) -> u64
        requires { is_kept id self.now.kept ≡ true }
        ensures { option_map (λ kept. kept.due) (find (λ kept. kept.id == id) self.now.kept) ≡ Some result }
    {
        match place_of(&self.kept, id) {
            Some(place) => self.kept[place].due(),
            None => unreachable!(),
        }
    }

    /// When the record's close is due, or 0 where nothing is kept for it. It only tells where to look first.
    pub(crate) fn due_hint(&self, id: u64) -> u64 {
        match place_of(&self.kept, id) {
            Some(place) => self.kept[place].due(),
            None => 0,
        }
    }

    pub(crate) fn act(&self, purpose: Purpose, good: bool) -> Act
        ensures { result ≡ act_by self.now.kept purpose good }
    {
        match purpose {
            Purpose::Close(id) if good => match place_of(&self.kept, id) {
                Some(place) => self.kept[place].act(),
                None => Act::Nothing,
            },
            _ => Act::Nothing,
        }
    }
}

// The numbers rise as the ledger gives them, so a search by halves finds one; where they do not rise, or nothing has the
// number, all are looked at.
fn place_of(kept: &[Kept], id: u64) -> Option<usize>
    ensures some { IfSome result (λ place. IsPlaceOf id place kept.now) }
    ensures none { IfNone result (list_any (λ item. item.id == id) kept.now ≡ false) }
{
    let place = kept.partition_point(|item| item.id() < id);
    if place < kept.len() && kept[place].id() == id {
        return Some(place);
    }
    place_by_walk(kept, id)
}

fn place_by_walk(kept: &[Kept], id: u64) -> Option<usize>
    ensures { result ≡ position (λ item. item.id == id) kept.now }
{
    kept.iter().position(|item| item.id() == id)
}

fn record_of(purpose: Purpose) -> u64
    ensures { result ≡ record_of purpose }
{
    match purpose {
        Purpose::Open(id) => id,
        Purpose::Close(id) => id,
    }
}
