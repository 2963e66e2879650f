//! What a host in memory keeps of its trace.
ghost use Rattle.std.specs.Prelude.{◌≡◌, ◌<◌, Some, IfOk, IfSome, length, slice_get, take};
ghost use Rattle.fk_host.specs.Host.{brought_by_start, brought_by_poll};
ghost use Rattle.fk_memory.specs.HostRecord.{event_of};
ghost use Rattle.fk_memory.specs.Starts.{start_of};

use fk_base::{Failed, NoMemory, Purpose, Words};
use fk_host::{ChildId, StartErr};
use std::alloc::Global;
use std::marker::Model;

/// What a call above the disk has brought.
#[derive(Drop)]
pub(crate) enum HostEvent {
    Turn(u64),
    Began {
        child: u64,
        purpose: Purpose,
        words: Words,
    },
    StartFailed {
        purpose: Purpose,
        words: Words,
    },
    Ended {
        child: u64,
        good: bool,
    },
    Runs(u64),
    PollFailed(u64),
}

impl HostEvent {
    /// What a start with this answer has brought.
    pub fn of_start(
        alloc: Global,
        purpose: Purpose,
        words: &Words,
        answer: Result<ChildId, StartErr>,
    ) -> Result<Self, NoMemory>
        ensures { IfOk result (λ event. brought_by_start purpose words.now answer ≡ Some (event_of event)) }
    {
        match answer {
            Ok(ChildId(child)) => Ok(HostEvent::Began {
                child,
                purpose,
                words: copy_words(alloc, words)?,
            }),
            Err(StartErr::Failed) => Ok(HostEvent::StartFailed {
                purpose,
                words: copy_words(alloc, words)?,
            }),
            Err(StartErr::NoMemory) => Err(NoMemory),
        }
    }

    /// What a poll with this answer has brought.
    pub fn of_poll(child: ChildId, answer: Result<Option<bool>, Failed>) -> Self
        ensures { brought_by_poll child.0 answer ≡ Some (event_of result) }
    {
        let child = child.0;
        match answer {
            Ok(Some(good)) => HostEvent::Ended { child, good },
            Ok(None) => HostEvent::Runs(child),
            Err(Failed) => HostEvent::PollFailed(child),
        }
    }
}

/// An event, with the host's count of moments and the disk's count of faults as they stand after its call.
#[derive(Drop)]
pub(crate) struct KeptItem {
    pub event: HostEvent,
    pub moments: u64,
    pub faults: u64,
}

impl Model for KeptItem {
    ghost use Rattle.fk_trace.specs.Trace.{Item};
    ghost use Rattle.fk_memory.specs.HostRecord.{event_of};

    ghost Value = { Item };

    ghost view = { λ i. record { event = event_of i.event; moments = i.moments; faults = i.faults } };
}

impl KeptItem {
    /// The attempt to start a child, if it was one: the count of moments, what it was for, and whether the child began.
    pub fn start(&self) -> Option<(u64, Purpose, bool)>
        ensures { result ≡ start_of self.now }
    {
        match &self.event {
            HostEvent::Began { purpose, .. } => Some((self.moments, *purpose, true)),
            HostEvent::StartFailed { purpose, .. } => Some((self.moments, *purpose, false)),
            _ => None,
        }
    }
}

fn copy_words(alloc: Global, words: &Words) -> Result<Words, NoMemory>
    ensures { IfOk result (λ copy. copy ≡ words.now) }
{
    let mut copy = Words::new(alloc);
    for at in 0..words.count() {
        copy.push(words.get(at))?;
    }
    Ok(copy)
}
