//! Where random bytes come from.
ghost use Rattle.std.specs.Prelude.{◌≡◌, ℕ, List, Option, OnOk, OnErr};
ghost use Rattle.fk_host.specs.Count.{HasCause};
ghost use Rattle.fk_host.specs.Stream.{Takes};

use fk_base::Failed;

/// Where random bytes come from.
pub trait Entropy {
    /// How often the entropy has failed. It never falls.
    ghost faults: { Self → ℕ };

    /// The bytes that it has left, where it tells.
    ghost left: { Self → Option (List ℕ) };

    /// Fills the whole buffer. A failed call has taken nothing, and may have written to the buffer.
    fn fill(&mut self, out: &mut [u8]) -> Result<(), Failed>
        ensures taken { OnOk result (Takes out.new (left self.old) (left self.new)) }
        ensures kept { OnErr result (left self.new ≡ left self.old) }
        ensures cause { HasCause (faults self.old) (faults self.new) result };
}
