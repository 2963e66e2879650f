//! What is set up for the next run.
use crate::areas::Areas;
use crate::memory::{MemFeed, MemHost, MemSink, MemSource, StartScript};
use fk_base::{Bytes, Ip4, Moment, NoMemory};
use std::alloc::Global;

/// A turn that the feed gives: a datagram, or nothing.
#[derive(Drop)]
pub struct SetTurn {
    pub moment: Moment,
    pub source: Ip4,
    pub datagram: Option<Bytes>,
}

/// The turns, the input, the children and the room of the next run, and which calls of it are to fail.
#[derive(Drop)]
pub struct Setup {
    alloc: Global,
    pub turns: Vec<SetTurn>,
    pub starts: Vec<StartScript>,
    pub failing_disk: Vec<u64>,
    pub failing_polls: Vec<u64>,
    pub failing_turn: Option<u64>,
    pub failing_read: Option<u64>,
    /// The feed can't be opened.
    pub is_closed: bool,
    /// The link is down.
    pub is_down: bool,
    /// How many bytes the output takes, if not all.
    pub room: Option<usize>,
    pub input: Bytes,
    /// How many bytes a read of the input gives at most.
    pub piece: usize,
}

impl Setup {
    pub fn new(alloc: Global) -> Self {
        Setup {
            alloc,
            turns: Vec::new(alloc),
            starts: Vec::new(alloc),
            failing_disk: Vec::new(alloc),
            failing_polls: Vec::new(alloc),
            failing_turn: None,
            failing_read: None,
            is_closed: false,
            is_down: false,
            room: None,
            input: Bytes::new(alloc),
            piece: usize::MAX,
        }
    }

    /// A feed that gives the first turns, so many of them.
    pub fn feed(&self, count: usize) -> Result<MemFeed, NoMemory> {
        let mut feed = MemFeed::new(self.alloc, self.failing_turn);
        for turn in self.turns.iter().take(count) {
            let bytes = turn.datagram.as_ref().map(|it| it.as_slice());
            feed.add(turn.moment, turn.source, bytes)?;
        }
        Ok(feed)
    }

    /// A host over a disk with these areas.
    pub fn host(&self, areas: &Areas) -> Result<MemHost, NoMemory> {
        let mut host = areas.host(self.alloc)?;
        for start in &self.starts {
            host.script(*start)?;
        }
        for call in &self.failing_disk {
            host.fail_disk(*call)?;
        }
        for poll in &self.failing_polls {
            host.fail_poll(*poll)?;
        }
        Ok(host)
    }

    pub fn source(&self) -> Result<MemSource, NoMemory> {
        MemSource::in_pieces(
            self.alloc,
            self.input.as_slice(),
            self.piece.max(1),
            self.failing_read,
        )
    }

    pub fn sink(&self) -> MemSink {
        MemSink::new(self.alloc, self.room)
    }
}
