//! A feed that can't be opened and a link that is down.
ghost use Rattle.std.specs.Prelude.{None, false};

use crate::memory::{DATAGRAM_ROOM, Feed, Link, Turn};
use fk_base::Failed;

/// A feed that can't be opened.
#[derive(Drop)]
pub struct ClosedFeed {
    faults: u64,
}

impl ClosedFeed {
    pub fn new() -> Self {
        ClosedFeed { faults: 0 }
    }
}

impl Feed for ClosedFeed {
    ghost faults = { λ f. f.faults };

    ghost told = { λ _. None };

    ghost has_ended = { λ _. false };

    fn open(&mut self, _port: u16) -> Result<(), Failed> {
        self.faults = self.faults.saturating_add(1);
        Err(Failed)
    }

    fn next(&mut self, _buf: &mut [u8; DATAGRAM_ROOM]) -> Result<Turn, Failed> {
        self.faults = self.faults.saturating_add(1);
        Err(Failed)
    }
}

/// A link that is down.
#[derive(Drop)]
pub struct ClosedLink {
    faults: u64,
}

impl ClosedLink {
    pub fn new() -> Self {
        ClosedLink { faults: 0 }
    }
}

impl Link for ClosedLink {
    ghost faults = { λ l. l.faults };

    ghost told = { λ _. None };

    fn send(&mut self, _server: &[u8], _port: u16, _bytes: &[u8]) -> Result<(), Failed> {
        self.faults = self.faults.saturating_add(1);
        Err(Failed)
    }
}
