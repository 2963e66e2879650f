ghost use Rattle.std.specs.Prelude.{◌≡◌, ◌<◌, ◌≤◌, ℕ, [], List, Option, length, take, IfOk, OnOk, OnErr, IfSome};
ghost use Rattle.fk_host.specs.Count.{HasCause};
ghost use Rattle.fk_host.specs.Stream.{Takes, Gives};

use fk_base::Failed;

/// Where bytes come from.
pub trait Source {
    /// How often the source has failed. It never falls.
    ghost faults: { Self → ℕ };

    /// The bytes that it has left, where it tells.
    ghost left: { Self → Option (List ℕ) };

    /// Puts bytes at the front of the buffer, and answers how many. 0 is the end of the input.
    fn read(&mut self, buf: &mut [u8]) -> Result<usize, Failed>
        requires { 0 < length buf.old }
        ensures within { IfOk result (λ n. n ≤ length buf.new) }
        ensures taken { IfOk result (λ n. Takes (take n buf.new) (left self.old) (left self.new)) }
        ensures end { IfOk result (λ n. n ≡ 0 → IfSome (left self.old) (λ bytes. bytes ≡ [])) }
        ensures kept { OnErr result (left self.new ≡ left self.old) }
        ensures cause { HasCause (faults self.old) (faults self.new) result };
}

/// Where bytes go.
pub trait Sink {
    /// How often the sink has failed. It never falls.
    ghost faults: { Self → ℕ };

    /// The bytes that it has taken, where it tells.
    ghost written: { Self → Option (List ℕ) };

    /// Takes bytes from the front of the piece, at least one, and answers how many.
    fn write(&mut self, bytes: &[u8]) -> Result<usize, Failed>
        requires { 0 < length bytes.now }
        ensures some { IfOk result (λ n. (0 < n) × (n ≤ length bytes.now)) }
        ensures given { IfOk result (λ n. Gives (take n bytes.now) (written self.old) (written self.new)) }
        ensures kept { OnErr result (written self.new ≡ written self.old) }
        ensures cause { HasCause (faults self.old) (faults self.new) result };
}

/// Writes the whole piece, however the sink cuts it.
pub fn write_all<K: Sink>(out: &mut K, bytes: &[u8]) -> Result<(), Failed>
    ensures given { OnOk result (Gives bytes.now (K.written out.old) (K.written out.new)) }
    // A part of the piece was taken, and not the whole.
    ensures part { OnErr result ((n : ℕ) × (n < length bytes.now) × Gives (take n bytes.now) (K.written out.old) (K.written out.new)) }
    ensures cause { HasCause (K.faults out.old) (K.faults out.new) result }
{
    let mut sent = 0;
    while sent < bytes.len() {
        sent += out.write(&bytes[sent..])?;
    }
    Ok(())
}
