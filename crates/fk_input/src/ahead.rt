ghost use Rattle.std.specs.Prelude.{◌≡◌, ◌<◌, ◌≤◌, [], ◌∷◌, length, IfOk, OnErr, MatchOption, Some, IfSome};
ghost use Rattle.fk_host.specs.Count.{HasCause};
ghost use Rattle.fk_host.specs.Stream.{Takes};

use fk_base::Failed;
use fk_host::Source;
use std::marker::Model;

/// Bytes that were taken from a source and not used yet.
#[derive(Drop)]
pub struct Ahead {
    bytes: [u8; 4096],
    start: usize,
    end: usize,
}

impl Model for Ahead {
    ghost use Rattle.std.specs.Prelude.{ℕ, ◌≤◌, List, take, drop};

    ghost Value = { List ℕ };

    ghost view = { λ a. drop a.start (take a.end a.bytes) };

    ghost invariant = { λ a. (a.start ≤ a.end) × (a.end ≤ 4096) };
}

impl Ahead {
    pub fn new() -> Self
        ensures { result ≡ [] }
    {
        Ahead {
            bytes: [0; 4096],
            start: 0,
            end: 0,
        }
    }

    /// Takes the first byte, where there is one.
    pub fn pop(&mut self) -> Option<u8>
        ensures { MatchOption result ((self.old ≡ []) × (self.new ≡ [])) (λ b. self.old ≡ b ∷ self.new) }
    {
        if self.start == self.end {
            return None;
        }
        let b = self.bytes[self.start];
        self.start += 1;
        Some(b)
    }

    /// Takes more bytes from the source in one read, at most so many. None come at the end of the input.
    pub fn fill<I: Source>(&mut self, input: &mut I, most: usize) -> Result<(), Failed>
        requires empty { self.old ≡ [] }
        requires some { 0 < most }
        ensures most { length self.new ≤ most }
        ensures taken { IfOk result (λ _. Takes self.new (I.left input.old) (I.left input.new)) }
        ensures end { IfOk result (λ _. self.new ≡ [] → IfSome (I.left input.old) (λ bytes. bytes ≡ [])) }
        ensures kept { OnErr result ((self.new ≡ []) × (I.left input.new ≡ I.left input.old)) }
        ensures cause { HasCause (I.faults input.old) (I.faults input.new) result }
    {
        self.start = 0;
        self.end = 0;
        let most = most.min(4096);
        self.end = input.read(&mut self.bytes[..most])?;
        Ok(())
    }
}
