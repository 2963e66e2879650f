ghost use Rattle.std.specs.Prelude.{◌≡◌, ◌==◌, ◌+◌, ◌<◌, ◌≤◌, true, false, [], ◌++◌, length, map, position, slice_index_or, All, IfSome, IfNone, OnOk};
ghost use Rattle.std.specs.List.{position_or_len};
ghost use Rattle.fk_timer.specs.Schedule.{Entry, holds, precedes, with_entry, without};
ghost use Rattle.fk_cycle.specs.Private.{is_ready_at, IsEntryOf, IsMoved, IsTimed, HasPassed, IsFirstWaiting, entry_of};
ghost use Rattle.fk_cycle.specs.Ranks.{IsFirstReady};

use crate::records::Records;
use fk_base::NoMemory;
use fk_timer::Timer;
use std::alloc::Global;
use std::marker::Model;

/// A record's number, and when its close is due.
#[derive(Clone, Copy)]
struct Due {
    id: u64,
    due: u64,
}

impl Model for Due {
    ghost use Rattle.fk_timer.specs.Schedule.{Entry};

    ghost Value = { Entry };

    ghost view = { λ d. record { id = d.id; moment = d.due } };

    ghost inverse = { λ e. record { id = e.id; due = e.moment } };
}

/// When the closes of the records are due: those dues that are still to come, and those that have come, the first of them
/// first.
#[derive(Drop)]
pub(crate) struct Dues {
    waiting: Timer,
    come: Vec<Due>,
    // none of so many that have come first may be closed at the moment `at`
    passed: usize,
    at: u64,
    room: usize,
}

impl Model for Dues {
    ghost use Rattle.std.specs.Prelude.{vec_len, vec_capacity};
    ghost use Rattle.fk_cycle.specs.Private.{Awaited, IsAwaited};

    ghost Value = { Awaited };

    ghost view = { λ d. record { come = d.come.items; waiting = d.waiting.entries; passed = d.passed; at = d.at; room = d.room } };

    ghost invariant = { λ d. IsAwaited d.come.items d.waiting.entries d.room d.waiting.room (vec_len d.come) (vec_capacity d.come) };
}

impl Dues {
    pub(crate) fn new(alloc: Global) -> Self
        ensures { result ≡ record { come = []; waiting = []; passed = 0; at = 0; room = 0 } }
    {
        Dues {
            waiting: Timer::new(alloc),
            come: Vec::new(alloc),
            passed: 0,
            at: 0,
            room: 0,
        }
    }

    pub(crate) fn reserve(&mut self) -> Result<(), NoMemory>
        ensures same { self.new ≡ record self.old { room = self.new.room } }
        ensures ok { OnOk result (1 ≤ self.new.room) }
        ensures room { self.old.room ≤ self.new.room }
    {
        if self.room == 0 {
            self.waiting.reserve()?;
            let more = self.waiting.count().checked_add(1).ok_or(NoMemory)?;
            self.come.reserve(more)?;
            self.room = 1;
        }
        Ok(())
    }

    pub(crate) fn put(&mut self, id: u64, due: u64)
        requires room { 1 ≤ self.old.room }
        requires unknown { holds id (self.old.come ++ self.old.waiting) ≡ false }
        ensures come { self.new.come ≡ self.old.come }
        ensures waiting { self.new.waiting ≡ with_entry (record { id = id; moment = due }) self.old.waiting }
        ensures passed { self.new.passed ≡ 0 }
        ensures room { self.new.room + 1 ≡ self.old.room }
    {
        self.waiting.put(id, due);
        self.passed = 0;
        self.room -= 1;
    }

    /// Looks at all that have come once more.
    pub(crate) fn look_again(&mut self)
        ensures { self.new ≡ record self.old { passed = 0 } }
    {
        self.passed = 0;
    }

    pub(crate) fn drop_id(&mut self, id: u64, due: u64)
        ensures come { self.new.come ≡ without id self.old.come }
        ensures waiting { self.new.waiting ≡ without id self.old.waiting }
        ensures passed { self.new.passed ≡ 0 }
        ensures room { self.new.room ≡ self.old.room }
    {
        self.passed = 0;
        match place_of(&self.come, Due { id, due }) {
            Some(place) => {
                self.come.remove(place);
            }
            None => self.waiting.drop_id(id),
        }
    }

    /// The number of the first record whose due has come and whose close may be attempted.
    pub(crate) fn first(&mut self, records: &Records, moment: u64) -> Option<u64>
        requires timed { IsTimed (map entry_of records.now.kept) (self.old.come ++ self.old.waiting) }
        requires passed { HasPassed self.old.at records.now.kept self.old.passed self.old.come }
        ensures timed { IsTimed (map entry_of records.now.kept) (self.new.come ++ self.new.waiting) }
        ensures passed { HasPassed self.new.at records.now.kept self.new.passed self.new.come }
        ensures room { self.new.room ≡ self.old.room }
        ensures first { IsFirstReady moment records.now.kept result }
    {
        self.gather(records, moment);
        self.turn_to(records, moment);
        self.pass(records)
    }

    // At another moment all that have come are looked at once more.
    fn turn_to(&mut self, records: &Records, moment: u64)
        requires { HasPassed self.old.at records.now.kept self.old.passed self.old.come }
        ensures same { self.new ≡ record self.old { passed = self.new.passed; at = moment } }
        ensures passed { HasPassed self.new.at records.now.kept self.new.passed self.new.come }
    {
        if self.at != moment {
            self.at = moment;
            self.passed = 0;
        }
    }

    // All whose dues have come by the moment go to those that have come.
    fn gather(&mut self, records: &Records, moment: u64)
        requires timed { IsTimed (map entry_of records.now.kept) (self.old.come ++ self.old.waiting) }
        requires passed { HasPassed self.old.at records.now.kept self.old.passed self.old.come }
        ensures timed { IsTimed (map entry_of records.now.kept) (self.new.come ++ self.new.waiting) }
        ensures passed { HasPassed self.new.at records.now.kept self.new.passed self.new.come }
        ensures room { self.new.room ≡ self.old.room }
        ensures all { All (λ entry. moment < entry.moment) self.new.waiting }
    {
        while self.move_first(records, moment) {}
    }

    // The first whose due has come by the moment goes to those that have come; false where there is none.
    fn move_first(&mut self, records: &Records, moment: u64) -> bool
        requires timed { IsTimed (map entry_of records.now.kept) (self.old.come ++ self.old.waiting) }
        ensures moved { result ≡ true → IsMoved self.old self.new }
        ensures none { result ≡ false → All (λ entry. moment < entry.moment) self.old.waiting }
        ensures same { result ≡ false → self.new ≡ self.old }
    {
        let Some(id) = self.waiting.take_due(moment) else {
            return false;
        };
        let due = Due {
            id,
            due: records.due(id),
        };
        let place = place_behind(&self.come, due);
        match self.come.insert(place, due) {
            Ok(()) => (),
            Err(_) => unreachable!(),
        }
        self.passed = 0;
        true
    }

    // Passes over those whose close may not be attempted, up to the first whose close may.
    fn pass(&mut self, records: &Records) -> Option<u64>
        requires { HasPassed self.old.at records.now.kept self.old.passed self.old.come }
        ensures same { self.new ≡ record self.old { passed = self.new.passed } }
        ensures passed { HasPassed self.new.at records.now.kept self.new.passed self.new.come }
        ensures first { IsFirstWaiting self.old.at records.now.kept self.old.come result }
    {
        let place = first_from(&self.come, records, self.at, self.passed);
        self.passed = place;
        id_at(&self.come, place)
    }
}

impl Due {
    fn id(&self) -> u64
        ensures { result ≡ self.now.id }
    {
        self.id
    }

    fn precedes(self, other: Due) -> bool
        ensures { result ≡ precedes self other }
    {
        self.due < other.due || (self.due == other.due && self.id < other.id)
    }
}

// The place of the first that this one precedes, or the end. What comes is mostly behind all others.
fn place_behind(come: &[Due], due: Due) -> usize
    ensures { result ≡ position_or_len (λ other. precedes due other) come.now }
{
    first_behind(come, due).unwrap_or(come.len())
}

fn first_behind(come: &[Due], due: Due) -> Option<usize>
    ensures { result ≡ position (λ other. precedes due other) come.now }
{
    come.iter().position(|other| due.precedes(*other))
}

// A search by halves finds what stands in its order.
fn place_of(come: &[Due], due: Due) -> Option<usize>
    ensures some { IfSome result (λ place. IsEntryOf due.id place come.now) }
    ensures none { IfNone result (holds due.id come.now ≡ false) }
{
    let place = come.partition_point(|other| other.precedes(due));
    if place < come.len() && come[place].id() == due.id {
        return Some(place);
    }
    place_by_walk(come, due.id)
}

fn place_by_walk(come: &[Due], id: u64) -> Option<usize>
    ensures { result ≡ position (λ other. other.id == id) come.now }
{
    come.iter().position(|other| other.id() == id)
}

// The first place from `start` on whose record may be closed at the moment, or the end.
fn first_from(come: &[Due], records: &Records, at: u64, start: usize) -> usize
    requires { HasPassed at records.now.kept start come.now }
    ensures passed { HasPassed at records.now.kept result come.now }
    ensures ready { result < length come.now → (other : Entry) → is_ready_at at records.now.kept (slice_index_or come.now result other).id ≡ true }
{
    for place in start..come.len() {
        if records.is_ready(come[place].id(), at) {
            return place;
        }
    }
    come.len()
}

fn id_at(come: &[Due], place: usize) -> Option<u64>
    ensures some { IfSome result (λ id. IsEntryOf id place come.now) }
    ensures none { IfNone result (length come.now ≤ place) }
{
    match come.get(place) {
        Some(due) => Some(due.id()),
        None => None,
    }
}
