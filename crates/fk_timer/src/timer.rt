ghost use Rattle.std.specs.Prelude.{◌≡◌, ◌+◌, ◌<◌, ◌≤◌, [], false, length, All, IfNone, IfSome, OnOk};
ghost use Rattle.fk_timer.specs.Schedule.{holds, with_entry, without, IsTakenFirst};

use fk_base::NoMemory;
use std::alloc::Global;
use std::cmp::Reverse;
use std::collections::BinaryHeap;
use std::marker::Model;

/// What waits for its moment.
///
/// Each that waits is a moment and a number, the least first. So `put` and `take_due` take as many steps as the count of
/// what waits has binary digits; `holds` and `drop_id` look at all that waits.
#[derive(Drop)]
pub struct Timer {
    waiting: BinaryHeap<Reverse<(u64, u64)>>,
    // how many may wait at most before it has to grow
    reserved: usize,
}

impl Model for Timer {
    ghost use Rattle.std.specs.Prelude.{◌-◌, map};
    ghost use Rattle.std.specs.BinaryHeap.{heap_items, heap_len, heap_capacity};
    ghost use Rattle.fk_timer.specs.Private.{IsStored, entry_of, in_order};
    ghost use Rattle.fk_timer.specs.Schedule.{Schedule};

    ghost Value = { Schedule };

    ghost view = { λ t. record { entries = in_order (map entry_of (heap_items t.waiting)); room = t.reserved - heap_len t.waiting } };

    ghost invariant = { λ t. IsStored (heap_items t.waiting) (heap_len t.waiting) t.reserved (heap_capacity t.waiting) };
}

impl Timer {
    /// Nothing waits, and there is no room yet.
    pub fn new(alloc: Global) -> Self
        ensures { result ≡ record { entries = []; room = 0 } }
    {
        Timer {
            waiting: BinaryHeap::new(alloc),
            reserved: 0,
        }
    }

    /// How many wait.
    pub fn count(&self) -> usize
        ensures { result ≡ length self.now.entries }
    {
        self.waiting.len()
    }

    /// Makes room for one more.
    pub fn reserve(&mut self) -> Result<(), NoMemory>
        ensures entries { self.new.entries ≡ self.old.entries }
        ensures ok { OnOk result (1 ≤ self.new.room) }
        ensures room { self.old.room ≤ self.new.room }
    {
        if self.waiting.len() == self.reserved {
            self.waiting.reserve(1)?;
            self.reserved = self.waiting.capacity();
        }
        Ok(())
    }

    /// Whether something of this number waits.
    pub fn holds(&self, id: u64) -> bool
        ensures { result ≡ holds id self.now.entries }
    {
        self.waiting.iter().any(|due| due.0.1 == id)
    }

    /// Lets a number wait for its moment.
    pub fn put(&mut self, id: u64, moment: u64)
        requires room { 1 ≤ self.old.room }
        requires unknown { holds id self.old.entries ≡ false }
        ensures entries { self.new.entries ≡ with_entry (record { id = id; moment = moment }) self.old.entries }
        ensures room { self.new.room + 1 ≡ self.old.room }
    {
        match self.waiting.push(Reverse((moment, id))) {
            Ok(()) => (),
            Err(_) => unreachable!(),
        }
    }

    /// Takes out what has the least moment, and at one moment the least number, where it is due at the given moment.
    pub fn take_due(&mut self, moment: u64) -> Option<u64>
        ensures some { IfSome result (λ id. IsTakenFirst moment id self.old.entries self.new.entries × (self.new.room ≡ self.old.room + 1)) }
        ensures none { IfNone result (All (λ entry. moment < entry.moment) self.old.entries × (self.new ≡ self.old)) }
    {
        let first = self.waiting.peek()?.0;
        if first.0 > moment {
            return None;
        }
        let Reverse((_, id)) = self.waiting.pop()?;
        Some(id)
    }

    /// Takes out what has this number. Where nothing has it, all stays as it is.
    pub fn drop_id(&mut self, id: u64)
        ensures entries { self.new.entries ≡ without id self.old.entries }
        ensures room { self.new.room + length self.new.entries ≡ self.old.room + length self.old.entries }
    {
        self.waiting.retain(|due| due.0.1 != id);
    }
}
