ghost use Rattle.std.specs.Prelude.{None};

use fk_base::Failed;
use fk_host::Sink;
use fk_memory::MemSink;
use std::alloc::Global;

/// A sink in memory that takes so many bytes at most in one write, and counts its writes.
#[derive(Drop)]
pub(crate) struct CuttingSink {
    inner: MemSink,
    most: usize,
    writes: u64,
}

impl CuttingSink {
    /// It takes `limit` bytes in all, where there is a limit.
    pub(crate) fn new(alloc: Global, limit: Option<usize>, most: usize) -> Self {
        CuttingSink {
            inner: MemSink::new(alloc, limit),
            most,
            writes: 0,
        }
    }

    pub(crate) fn written(&self) -> &[u8] {
        self.inner.written()
    }

    pub(crate) fn writes(&self) -> u64 {
        self.writes
    }
}

impl Sink for CuttingSink {
    ghost faults = { λ s. s.inner.faults };

    ghost written = { λ s. None };

    fn write(&mut self, bytes: &[u8]) -> Result<usize, Failed> {
        self.writes = self.writes.saturating_add(1);
        let count = bytes.len().min(self.most.max(1));
        self.inner.write(&bytes[..count])
    }
}
