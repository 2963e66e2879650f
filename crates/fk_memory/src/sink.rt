ghost use Rattle.std.specs.Prelude.{◌≡◌, ◌<◌, ◌≤◌, ◌++◌, [], length, take, false, Some, IfOk, OnErr};
ghost use Rattle.fk_memory.specs.Sink.{fitting_count, FailsToTake};

use fk_base::Failed;
use fk_host::Sink;
use std::alloc::Global;
use std::marker::Model;

/// A sink that keeps what it takes, up to a limit where it has one. A write for which it can't grow fails; later ones that
/// need no more room than it has succeed.
#[derive(Drop)]
pub struct MemSink {
    items: Vec<u8>,
    limit: Option<usize>,
    is_short: bool,
    faults: u64,
}

impl Model for MemSink {
    ghost use Rattle.std.specs.Prelude.{vec_capacity};
    ghost use Rattle.fk_memory.specs.Sink.{SinkState};

    ghost Value = { SinkState };

    ghost view = { λ s. record { written = s.items.items; room = vec_capacity s.items; limit = s.limit; is_short = s.is_short; faults = s.faults } };
}

impl MemSink {
    /// A sink that has taken nothing. Past the limit every write fails.
    pub fn new(alloc: Global, limit: Option<usize>) -> Self
        ensures { result ≡ record { written = []; room = 0; limit = limit; is_short = false; faults = 0 } }
    {
        MemSink {
            items: Vec::new(alloc),
            limit,
            is_short: false,
            faults: 0,
        }
    }

    pub fn written(&self) -> &[u8]
        ensures { result.now ≡ self.now.written }
    {
        self.items.as_slice()
    }

    /// Whether a write has failed because the sink couldn't grow.
    pub fn is_short(&self) -> bool
        ensures { result ≡ self.now.is_short }
    {
        self.is_short
    }
}

impl Sink for MemSink {
    ghost faults = { λ s. s.faults };

    ghost written = { λ s. Some s.written };

    fn write(&mut self, bytes: &[u8]) -> Result<usize, Failed>
        requires { 0 < length bytes.now }
        // It takes the bytes that are within its limit.
        ensures count { IfOk result (λ n. (0 < n) × (n ≡ fitting_count self.old (length bytes.now))) }
        ensures taken { IfOk result (λ n. self.new ≡ record self.old { written = self.old.written ++ take n bytes.now; room = self.new.room }) }
        ensures failed { OnErr result (FailsToTake self.old self.new (length bytes.now)) }
        ensures room { self.old.room ≤ self.new.room }
    {
        let count = match self.limit {
            None => bytes.len(),
            Some(limit) => bytes.len().min(limit.saturating_sub(self.items.len())),
        };
        if count == 0 {
            self.faults = self.faults.saturating_add(1);
            return Err(Failed);
        }
        if self.items.extend_from_slice(&bytes[..count]).is_err() {
            self.is_short = true;
            self.faults = self.faults.saturating_add(1);
            return Err(Failed);
        }
        Ok(count)
    }
}
