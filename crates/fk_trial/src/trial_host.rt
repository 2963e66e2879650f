//! The host of a trial.
ghost use Rattle.std.specs.Prelude.{◌≡◌, IfOk};
ghost use Rattle.fk_memory.specs.Host.{told_of, leaves_of, above_of};
ghost use Rattle.fk_memory.specs.Sound.{told_is_left};
ghost use Rattle.fk_trial.specs.Replay.{IsNewHost, IsTrialHost};

use fk_base::{Failed, NoMemory, Purpose, Words};
use fk_host::{Area, ChildId, Disk, Host, StartErr};
use fk_memory::MemHost;
use std::alloc::Global;
use std::marker::Model;

/// A host in memory of which nothing is scripted: every start succeeds, and a child has ended well by the next turn.
#[derive(Drop)]
pub(crate) struct TrialHost {
    host: MemHost,
}

impl Model for TrialHost {
    ghost use Rattle.fk_memory.specs.Host.{HostState};
    ghost use Rattle.fk_trial.specs.Replay.{IsTrialHost};

    ghost Value = { HostState };

    ghost view = { λ t. t.host };

    ghost invariant = { λ t. IsTrialHost t.host };
}

impl TrialHost {
    /// A host whose areas are empty.
    pub fn new(alloc: Global) -> Result<Self, NoMemory>
        ensures { IfOk result IsNewHost }
    {
        Ok(TrialHost {
            host: MemHost::new(alloc, b"", b"", b"")?,
        })
    }

    /// Whether it could not grow for its own record: it then tells nothing more.
    pub fn is_short(&self) -> bool
        ensures short { result ≡ self.now.is_short }
        ensures replay { IsTrialHost self.now }
    {
        self.host.is_short()
    }
}

impl Disk for TrialHost {
    ghost told = { told_of };

    ghost may_leave = { leaves_of };

    ghost faults = { λ h. h.faults };

    ghost above = { above_of };

    ghost read_is_an_image = { told_is_left };

    fn len(&mut self, area: Area) -> Result<u64, Failed> {
        self.host.len(area)
    }

    fn read(&mut self, area: Area, at: u64, buf: &mut [u8]) -> Result<usize, Failed> {
        self.host.read(area, at, buf)
    }

    fn write_at(&mut self, area: Area, at: u64, bytes: &[u8]) -> Result<(), Failed> {
        self.host.write_at(area, at, bytes)
    }

    fn cut(&mut self, area: Area, len: u64) -> Result<(), Failed> {
        self.host.cut(area, len)
    }

    fn sync(&mut self, area: Area) -> Result<(), Failed> {
        self.host.sync(area)
    }
}

impl Host for TrialHost {
    fn turn(&mut self, number: u64) {
        self.host.turn(number);
    }

    fn start(&mut self, purpose: Purpose, words: &Words) -> Result<ChildId, StartErr> {
        self.host.start(purpose, words)
    }

    fn poll(&mut self, child: ChildId) -> Result<Option<bool>, Failed> {
        self.host.poll(child)
    }
}
