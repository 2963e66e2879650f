ghost use Rattle.std.specs.Prelude.{◌≡◌, ℕ, ◌+◌, ◌*◌, ◌<◌, ◌≤◌, true, false, [], ◌∷◌, ◌++◌, length, IfOk, IfErr, OnOk, OnErr, Ok, None};
ghost use Rattle.std.specs.List.{list_any};
ghost use Rattle.std.specs.VecDeque.{deque_capacity};
ghost use Rattle.fk_trace.specs.Ledger.{IsLedger};
ghost use Rattle.fk_run.specs.Place.{entry};
ghost use Rattle.fk_cycle.specs.Kept.{may_begin};
ghost use Rattle.fk_cycle.specs.Stands.{Stands};
ghost use Rattle.fk_host.specs.Count.{HasCause};
ghost use Rattle.fk_host.specs.Disk.{Above};
ghost use Rattle.fk_journal.specs.Keeps.{StandsOn};
ghost use Rattle.fk_ledger.specs.Book.{live_ids};
ghost use Rattle.fk_child.specs.Crew.{on_host, obligations_but, IsTied, StandsSomewhere, StandsOver};
ghost use Rattle.fk_child.specs.Calls.{AtEach, AtEachOver, MarksTurn, PollsAll, SettlesNext, AwaitsSomewhere, StartsOpen, Attempts, StartsClose};
ghost use Rattle.fk_child.specs.Private.{settled_of, MayPoll, PollsNext};

use crate::obligations::{index_of, machine_for, put_back};
use crate::{EndItem, PollEnd, Tried};
use fk_base::{Failed, Moment, NoMemory, Purpose, Words};
use fk_cycle::{Act, CloseEnd, Machine};
use fk_host::{ChildId, Host, StartErr};
use fk_ledger::{Ledger, Owed};
use std::alloc::Global;
use std::collections::VecDeque;
use std::marker::Model;

/// A child that runs.
#[derive(Clone, Copy)]
struct Child {
    number: u64,
    purpose: Purpose,
}

impl Model for Child {
    ghost use Rattle.fk_trace.specs.Trace.{Child as StartedChild};

    ghost Value = { StartedChild };

    ghost view = { λ c. record { number = c.number; purpose = c.purpose } };

    ghost inverse = { λ c. record { number = c.number; purpose = c.purpose } };
}

/// The obligations of the live records, the children that run, and the machine that says which close is due.
pub struct Crew {
    owed: Vec<Owed>,
    children: VecDeque<Child>,
    machine: Machine,
    ends: Vec<EndItem>,
    settles: VecDeque<CloseEnd>,
    room: usize,
}

impl Model for Crew {
    ghost use Rattle.fk_child.specs.Crew.{CrewState};

    ghost Value = { CrewState };

    ghost use Rattle.fk_child.specs.Private.{state_of, HasRoom};

    ghost view = { state_of };

    ghost invariant = { HasRoom };
}

impl Crew {
    /// A crew that holds the obligations of a ledger's live records, of which no child runs. An error hands them back.
    pub fn resume(
        alloc: Global,
        ledger: &Ledger,
        owed: Vec<Owed>,
    ) -> Result<Crew, (Vec<Owed>, NoMemory)>
        requires owed { owed.items ≡ live_ids ledger.now.changes }
        requires follow { IsLedger ledger.now.changes }
        ensures tied { IfOk result (λ crew. (above : Above) → IsTied crew above (entry ledger.now.changes)) }
        ensures fresh { IfOk result (λ crew. (crew.ends ≡ []) × (crew.unsettled ≡ []) × (crew.room ≡ 0)) }
        ensures err { IfErr result (λ e. e.0.items ≡ owed.items) }
    {
        let records = owed.len();
        let machine = match machine_for(alloc, ledger, &owed) {
            Ok(machine) => machine,
            Err(error) => return Err((owed, error)),
        };
        let Ok(children) = VecDeque::with_capacity(alloc, 2 * records) else {
            return Err((owed, NoMemory));
        };
        let Ok(ends) = Vec::with_capacity(alloc, 2 * records) else {
            return Err((owed, NoMemory));
        };
        let Ok(settles) = VecDeque::with_capacity(alloc, records) else {
            return Err((owed, NoMemory));
        };
        Ok(Crew {
            owed,
            children,
            machine,
            ends,
            settles,
            room: 0,
        })
    }

    /// Makes room for one more record, with its two children.
    pub fn reserve(&mut self) -> Result<(), NoMemory>
        ensures ok { OnOk result (1 ≤ self.new.room) }
        ensures err { OnErr result (self.old.room ≡ 0) }
        ensures more { self.old.room ≤ self.new.room }
        ensures rest { self.new ≡ record self.old { room = self.new.room } }
    {
        if self.room > 0 {
            return Ok(());
        }
        let records = self.owed.len() + 1;
        self.owed.reserve(1)?;
        self.children
            .reserve((2 * records).saturating_sub(self.children.len()))?;
        self.ends
            .reserve((2 * records).saturating_sub(self.ends.len()))?;
        self.settles
            .reserve(records.saturating_sub(self.settles.len()))?;
        self.machine.reserve()?;
        self.room = 1;
        Ok(())
    }

    /// Marks that a turn begins, the one of this number.
    pub fn turn<H: Host>(&mut self, host: &mut H, number: u64)
        requires settled { self.old.unsettled ≡ [] }
        requires stands { let on = on_host H.Disk in StandsSomewhere (on self.old host.old) }
        ensures marks { let on = on_host H.Disk in
            AtEach (MarksTurn number) (on self.old host.old) (on self.new host.new) }
        ensures rest { self.new ≡ record self.old { kept = self.new.kept } }
    {
        host.turn(number);
        self.machine.turn();
    }

    /// Polls each child that runs once, by rising number.
    pub fn poll_all<H: Host>(&mut self, host: &mut H, moment: Moment)
        requires settled { self.old.unsettled ≡ [] }
        requires stands { let on = on_host H.Disk in StandsSomewhere (on self.old host.old) }
        ensures polls { let on = on_host H.Disk in
            AtEach (PollsAll moment) (on self.old host.old) (on self.new host.new) }
        ensures room { self.new.room ≡ self.old.room }
    {
        self.ends.clear();
        for _ in 0..self.children.len() {
            self.poll_next(host, moment);
        }
    }

    /// Polls the first child, and puts it behind the others where it was not found to have ended.
    fn poll_next<H: Host>(&mut self, host: &mut H, moment: Moment)
        requires { let on = on_host H.Disk in MayPoll (on self.old host.old) }
        ensures polls { let on = on_host H.Disk in
            PollsNext moment (on self.old host.old) (on self.new host.new) }
        ensures kept { (self.new.owed ≡ self.old.owed) × (self.new.room ≡ self.old.room) }
    {
        let Some(child) = self.children.pop_front() else {
            return;
        };
        match host.poll(ChildId(child.number)) {
            Ok(None) => self.children.push_back_reserved(child),
            Ok(Some(good)) => {
                let purpose = child.purpose;
                self.ends.push_reserved(EndItem {
                    purpose,
                    end: PollEnd::of(good),
                });
                let act = self.machine.ended(purpose, good, moment);
                keep_end(&mut self.settles, act);
            }
            Err(Failed) => {
                self.ends.push_reserved(EndItem {
                    purpose: child.purpose,
                    end: PollEnd::Failed,
                });
                self.children.push_back_reserved(child);
            }
        }
    }

    /// The ends and the failed polls of the last polling, in their order.
    pub fn ends(&self) -> &[EndItem]
        ensures { result.now ≡ self.now.ends }
    {
        self.ends.as_slice()
    }

    /// Settles the next of the records whose clean close ended well in this turn. After a failure of the disk the ledger is spent.
    pub fn settle_next<H: Host>(
        &mut self,
        host: &mut H,
        ledger: &mut Ledger,
    ) -> Result<Option<u64>, Failed>
        requires unspent { ledger.old.is_spent ≡ false }
        requires stands { let on = on_host H.Disk in StandsOver ledger.old.changes (on self.old host.old) }
        requires area { StandsOn ledger.old.area (H.told host.old) }
        ensures settles { let on = on_host H.Disk in
            AtEachOver ledger.old.changes (SettlesNext ledger.old ledger.new result) (on self.old host.old) (on self.new host.new) }
        ensures none { result ≡ Ok None → host.new ≡ host.old }
        ensures rest { (self.new.ends ≡ self.old.ends) × (self.new.room ≡ self.old.room) }
        ensures cause { HasCause (H.faults host.old) (H.faults host.new) result }
    {
        let Some(end) = self.settles.pop_front() else {
            return Ok(None);
        };
        let id = end.id();
        let index = index_of(&self.owed, id);
        let owed = self.owed.remove(index);
        match ledger.settle(host, owed, end) {
            Ok(()) => Ok(Some(id)),
            Err((owed, error)) => {
                put_back(&mut self.owed, index, owed);
                Err(error)
            }
        }
    }

    /// Tries to start the open of a record that was just made, once and for all. Whatever comes of it, the crew holds the obligation.
    pub fn start_open<H: Host>(
        &mut self,
        host: &mut H,
        owed: Owed,
        due: u64,
        words: &Words,
    ) -> Result<bool, NoMemory>
        requires room { 1 ≤ self.old.room }
        requires settled { self.old.unsettled ≡ [] }
        requires words { 0 < length words.now }
        requires awaits { let on = on_host H.Disk in AwaitsSomewhere owed due (on self.old host.old) }
        ensures starts { let on = on_host H.Disk in
            StartsOpen owed due words.now result (on self.old host.old) (on self.new host.new) }
        ensures room { self.new.room + 1 ≡ self.old.room }
        ensures rest { (self.new.unsettled ≡ []) × (self.new.ends ≡ self.old.ends) }
    {
        let id = owed.id();
        self.owed.push_reserved(owed);
        self.room -= 1;
        self.machine.opened(id, due);
        self.start(host, Purpose::Open(id), words)
    }

    /// Tries to start the close that is due next, if there is one.
    pub fn start_close<H: Host>(
        &mut self,
        host: &mut H,
        ledger: &Ledger,
        moment: Moment,
    ) -> Result<Option<Tried>, NoMemory>
        requires settled { self.old.unsettled ≡ [] }
        requires stands { let on = on_host H.Disk in StandsOver ledger.now.changes (on self.old host.old) }
        ensures starts { let on = on_host H.Disk in
            AtEachOver ledger.now.changes (StartsClose moment result) (on self.old host.old) (on self.new host.new) }
        ensures none { result ≡ Ok None → host.new ≡ host.old }
        ensures rest { self.new ≡ record self.old { children = self.new.children; kept = self.new.kept } }
    {
        let Some(id) = self.machine.due(moment) else {
            return Ok(None);
        };
        let Some(item) = ledger.get(id) else {
            unreachable!()
        };
        let begun = self.start(host, Purpose::Close(id), &item.close)?;
        Ok(Some(Tried { id, begun }))
    }

    /// Tries to start a child of a record that is owed.
    fn start<H: Host>(
        &mut self,
        host: &mut H,
        purpose: Purpose,
        words: &Words,
    ) -> Result<bool, NoMemory>
        requires words { 0 < length words.now }
        requires may { list_any (may_begin purpose) self.old.kept ≡ true }
        requires stands { let on = on_host H.Disk in StandsSomewhere (on self.old host.old) }
        ensures starts { let on = on_host H.Disk in
            AtEach (Attempts purpose words.now result) (on self.old host.old) (on self.new host.new) }
        ensures rest { self.new ≡ record self.old { children = self.new.children; kept = self.new.kept } }
    {
        match host.start(purpose, words) {
            Ok(ChildId(number)) => {
                self.children.push_back_reserved(Child { number, purpose });
                self.machine.begun(purpose);
                Ok(true)
            }
            Err(StartErr::Failed) => {
                self.machine.not_begun(purpose);
                Ok(false)
            }
            Err(StartErr::NoMemory) => Err(NoMemory),
        }
    }

    /// The obligations of the live records, by rising number.
    pub fn release(self) -> Vec<Owed>
        ensures { result.items ≡ self.owed }
    {
        let Crew {
            owed,
            children: _children,
            machine: _machine,
            ends: _ends,
            settles: _settles,
            room: _,
        } = self;
        owed
    }
}

/// Keeps the end of a close by which its record is settled.
fn keep_end(settles: &mut VecDeque<CloseEnd>, act: Act)
    requires { length settles.old.items + length (settled_of act) ≤ deque_capacity settles.old }
    ensures items { settles.new.items ≡ settles.old.items ++ settled_of act }
    ensures room { deque_capacity settles.new ≡ deque_capacity settles.old }
{
    if let Act::Settle(end) = act {
        settles.push_back_reserved(end);
    }
}
