//! The children of a host in memory. No process is started: each of them fares as it was scripted.
ghost use Rattle.std.specs.Prelude.{false, ◌≡◌, ◌+◌, ◌-◌, ◌<◌, drop, ◌==◌, not, find, ◌^◌, [], ◌∷◌, ◌++◌, vec_len, vec_capacity, OnOk, OnErr};
ghost use Rattle.fk_memory.specs.Children.{next_script, start_answer, end_by, poll_answer, children_after};
ghost use Rattle.fk_memory.specs.HostRecord.{children_of, event_of, CountsWithin};
ghost use Rattle.fk_trace.specs.Trace.Event.{Began};
ghost use Rattle.std.specs.List.{filter, list_any};
ghost use Rattle.std.specs.Option.{option_copied};

use crate::trace::HostEvent;
use fk_base::{Failed, NoMemory, Purpose};
use fk_host::{ChildId, StartErr};
use std::alloc::Global;

/// How a start fares.
#[derive(Clone, Copy, Debug, PartialEq, Eq)]
pub enum StartScript {
    /// No child begins.
    Fails,
    /// The child never ends.
    Never,
    /// The child is seen to end at its first poll in a turn that is at least so many turns after its own.
    Ends { after: u64, good: bool },
}

impl StartScript {
    /// What a poll finds of a child that began so many turns ago, if it has ended.
    fn end(self, turns: u64) -> Option<bool>
        ensures { result ≡ end_by self turns }
    {
        match self {
            StartScript::Ends { after, good } if after <= turns => Some(good),
            _ => None,
        }
    }
}

/// A child that was begun and that no poll has seen to end.
#[derive(Clone, Copy)]
pub struct HeldChild {
    pub number: u64,
    pub purpose: Purpose,
    pub script: StartScript,
    /// How many turns had begun when it began.
    pub turn: u64,
}

/// The children, and how the next ones fare.
#[derive(Drop)]
pub(crate) struct MemChildren {
    pub scripts: Vec<StartScript>,
    pub turns: u64,
    pub running: Vec<HeldChild>,
    pub begun: u64,
    pub polls: u64,
    pub failing: Vec<u64>,
    pub faults: u64,
}

impl MemChildren {
    pub fn new(alloc: Global) -> Self
        ensures { children_of result ≡ record { scripts = []; turns = 0; running = []; begun = 0; polls = 0; failing = []; faults = 0 } }
    {
        MemChildren {
            scripts: Vec::new(alloc),
            turns: 0,
            running: Vec::new(alloc),
            begun: 0,
            polls: 0,
            failing: Vec::new(alloc),
            faults: 0,
        }
    }

    /// What the next start answers.
    pub fn next_start(&self) -> Result<ChildId, StartErr>
        requires { self.now.begun + 1 < 2 ^ 64 }
        ensures { result ≡ start_answer false (children_of self.now) }
    {
        match self.next_script() {
            StartScript::Fails => Err(StartErr::Failed),
            _ => Ok(ChildId(self.begun + 1)),
        }
    }

    /// What the next poll answers, of this child.
    pub fn next_poll(&self, child: ChildId) -> Result<Option<bool>, Failed>
        requires { self.now.polls + 1 < 2 ^ 64 }
        ensures { result ≡ poll_answer false child.0 (children_of self.now) }
    {
        if self.fails_next_poll() {
            return Err(Failed);
        }
        match self.find(child.0) {
            Some(held) => Ok(held.script.end(self.turns.saturating_sub(held.turn))),
            None => Ok(None),
        }
    }

    fn fails_next_poll(&self) -> bool
        requires { self.now.polls + 1 < 2 ^ 64 }
        ensures { result ≡ list_any (λ poll. poll == self.now.polls + 1) self.now.failing.items }
    {
        let next = self.polls + 1;
        self.failing.iter().any(|poll| *poll == next)
    }

    fn find(&self, number: u64) -> Option<&HeldChild>
        ensures { option_copied result ≡ find (λ held. held.number == number) self.now.running.items }
    {
        self.running.iter().find(|held| held.number == number)
    }

    /// Goes on from an event.
    pub fn note(&mut self, event: &HostEvent)
        requires room { vec_len self.old.running < vec_capacity self.old.running }
        requires small { CountsWithin self.old (2 ^ 64 - 2) }
        ensures { children_of self.new ≡ children_after (event_of event.now) (children_of self.old) }
    {
        match event {
            HostEvent::Turn(_) => self.turns += 1,
            HostEvent::Began { child, purpose, .. } => self.begin(*child, *purpose),
            HostEvent::StartFailed { .. } => {
                self.drop_script();
                self.faults = self.faults.saturating_add(1);
            }
            HostEvent::Ended { child, .. } => {
                self.forget(*child);
                self.polls += 1;
            }
            HostEvent::Runs(_) => self.polls += 1,
            HostEvent::PollFailed(_) => {
                self.polls += 1;
                self.faults = self.faults.saturating_add(1);
            }
        }
    }

    fn begin(&mut self, number: u64, purpose: Purpose)
        requires small { self.old.begun + 1 < 2 ^ 64 }
        requires room { vec_len self.old.running < vec_capacity self.old.running }
        ensures { children_of self.new ≡ children_after (Began number purpose []) (children_of self.old) }
    {
        let script = self.next_script();
        self.drop_script();
        self.running.push_reserved(HeldChild {
            number,
            purpose,
            script,
            turn: self.turns,
        });
        self.begun += 1;
    }

    fn forget(&mut self, number: u64)
        ensures running { self.new.running.items ≡ filter (λ held. not (held.number == number)) self.old.running.items }
        ensures rest { self.new ≡ record self.old { running = self.new.running } }
    {
        self.running.retain(|held| held.number != number);
    }

    fn next_script(&self) -> StartScript
        ensures { result ≡ next_script self.now.scripts.items }
    {
        match self.scripts.first() {
            Some(script) => *script,
            None => StartScript::Ends {
                after: 1,
                good: true,
            },
        }
    }

    fn drop_script(&mut self)
        ensures rest { self.new ≡ record self.old { scripts = self.new.scripts } }
        ensures scripts { self.new.scripts.items ≡ drop 1 self.old.scripts.items }
    {
        if !self.scripts.is_empty() {
            self.scripts.remove(0);
        }
    }
}
