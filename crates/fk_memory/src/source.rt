ghost use Rattle.std.specs.Prelude.{◌≡◌, ◌↔◌, ◌<◌, ◌≤◌, ◌-◌, [], length, take, drop, unwrap_or, Some, IfOk, IsErr, OnErr, IfSome, MatchResult};
ghost use Rattle.fk_host.specs.Count.{HasCause};
ghost use Rattle.fk_host.specs.Stream.{Takes};
ghost use Rattle.fk_memory.specs.Source.{given_count};

use fk_base::{Failed, NoMemory};
use fk_host::Source;
use std::alloc::Global;
use std::marker::Model;

/// A source over bytes in memory. One read of it may be told to fail.
#[derive(Drop)]
pub struct MemSource {
    bytes: Vec<u8>,
    // how many of the bytes were given
    given: usize,
    most: usize,
    fails_in: u64,
    faults: u64,
}

impl Model for MemSource {
    ghost use Rattle.std.specs.Prelude.{◌<◌, ◌≤◌, drop, length};
    ghost use Rattle.fk_memory.specs.Source.{SourceState};

    ghost Value = { SourceState };

    ghost view = { λ s. record { left = drop s.given s.bytes.items; most = s.most; fails_in = s.fails_in; faults = s.faults } };

    ghost invariant = { λ s. (s.given ≤ length s.bytes.items) × (0 < s.most) };
}

impl MemSource {
    /// Each read gives as many bytes as there are and fit. The read call of the given number fails, counted from 1.
    pub fn new(alloc: Global, bytes: &[u8], fail_at: Option<u64>) -> Result<Self, NoMemory>
        ensures { IfOk result (λ s. s ≡ record { left = bytes.now; most = usize.MAX; fails_in = unwrap_or fail_at 0; faults = 0 }) }
    {
        Self::in_pieces(alloc, bytes, usize::MAX, fail_at)
    }

    /// The same, with at most so many bytes a read.
    pub fn in_pieces(
        alloc: Global,
        bytes: &[u8],
        most: usize,
        fail_at: Option<u64>,
    ) -> Result<Self, NoMemory>
        requires { 0 < most }
        ensures { IfOk result (λ s. s ≡ record { left = bytes.now; most = most; fails_in = unwrap_or fail_at 0; faults = 0 }) }
    {
        Ok(MemSource {
            bytes: Vec::from_slice(alloc, bytes)?,
            given: 0,
            most,
            fails_in: fail_at.unwrap_or(0),
            faults: 0,
        })
    }
}

impl Source for MemSource {
    ghost faults = { λ s. s.faults };

    ghost left = { λ s. Some s.left };

    fn read(&mut self, buf: &mut [u8]) -> Result<usize, Failed>
        requires { 0 < length buf.old }
        ensures within { IfOk result (λ n. n ≤ length buf.new) }
        ensures taken { IfOk result (λ n. Takes (take n buf.new) (Some self.old.left) (Some self.new.left)) }
        ensures end { IfOk result (λ n. n ≡ 0 → IfSome (Some self.old.left) (λ bytes. bytes ≡ [])) }
        ensures kept { OnErr result (Some self.new.left ≡ Some self.old.left) }
        ensures cause { HasCause self.old.faults self.new.faults result }
        // It fails exactly where it was told to.
        ensures told { IsErr result ↔ (self.old.fails_in ≡ 1) }
        ensures count { IfOk result (λ n. n ≡ given_count self.old (length buf.old)) }
        // Behind the bytes that it gave the buffer is as before, and the whole of it where it failed.
        ensures behind { MatchResult result (λ n. drop n buf.new ≡ drop n buf.old) (λ _. buf.new ≡ buf.old) }
        ensures next { (self.new.fails_in ≡ self.old.fails_in - 1) × (self.new.most ≡ self.old.most) }
    {
        let fails = self.fails_in == 1;
        self.fails_in = self.fails_in.saturating_sub(1);
        if fails {
            self.faults = self.faults.saturating_add(1);
            return Err(Failed);
        }
        let left = &self.bytes[self.given..];
        let count = buf.len().min(self.most).min(left.len());
        buf[..count].copy_from_slice(&left[..count]);
        self.given += count;
        Ok(count)
    }
}
