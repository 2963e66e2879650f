ghost use Rattle.std.specs.Prelude.{◌≡◌, ◌<◌, ◌≤◌, nat_lt, length, drop, take, is_err, Some, IfOk, OnOk, OnErr};
ghost use Rattle.fk_host.specs.Count.{HasCause};
ghost use Rattle.fk_host.specs.Stream.{Takes};

use fk_base::{Failed, NoMemory};
use fk_host::Entropy;
use std::alloc::Global;
use std::marker::Model;

/// Entropy in memory: it gives bytes that were handed to it, in their order.
#[derive(Drop)]
pub struct MemEntropy {
    bytes: Vec<u8>,
    // how many of the bytes were given
    given: usize,
    faults: u64,
}

impl Model for MemEntropy {
    ghost use Rattle.std.specs.Prelude.{◌≤◌, drop, length};
    ghost use Rattle.fk_memory.specs.Entropy.{EntropyState};

    ghost Value = { EntropyState };

    ghost view = { λ e. record { left = drop e.given e.bytes.items; faults = e.faults } };

    ghost invariant = { λ e. e.given ≤ length e.bytes.items };
}

impl MemEntropy {
    pub fn new(alloc: Global, bytes: &[u8]) -> Result<Self, NoMemory>
        ensures { IfOk result (λ e. e ≡ record { left = bytes.now; faults = 0 }) }
    {
        Ok(MemEntropy {
            bytes: Vec::from_slice(alloc, bytes)?,
            given: 0,
            faults: 0,
        })
    }
}

impl Entropy for MemEntropy {
    ghost faults = { λ e. e.faults };

    ghost left = { λ e. Some e.left };

    fn fill(&mut self, out: &mut [u8]) -> Result<(), Failed>
        ensures taken { OnOk result (Takes out.new (Some self.old.left) (Some self.new.left)) }
        ensures kept { OnErr result (Some self.new.left ≡ Some self.old.left) }
        ensures cause { HasCause self.old.faults self.new.faults result }
        // It fails exactly where too few bytes are left, and the buffer is then as before.
        ensures result { is_err result ≡ nat_lt (length self.old.left) (length out.old) }
        ensures buffer { OnErr result (out.new ≡ out.old) }
    {
        let left = &self.bytes[self.given..];
        if left.len() < out.len() {
            self.faults = self.faults.saturating_add(1);
            return Err(Failed);
        }
        out.copy_from_slice(&left[..out.len()]);
        self.given += out.len();
        Ok(())
    }
}
