//! Where datagrams go.
ghost use Rattle.std.specs.Prelude.{◌≡◌, ℕ, List, Option, OnOk, OnErr};
ghost use Rattle.fk_host.specs.Count.{HasCause};
ghost use Rattle.fk_host.specs.Link.{Sendings, Sends};

use fk_base::Failed;

/// Where datagrams go.
pub trait Link {
    /// How often the link has failed. It never falls.
    ghost faults: { Self → ℕ };

    /// The datagrams that it has sent, where it tells.
    ghost told: { Self → Option Sendings };

    /// Sends one datagram of the Internet Protocol's UDP to a server, which is named by its address or its host's name. A name that
    /// is not UTF-8 is a fault.
    fn send(&mut self, server: &[u8], port: u16, bytes: &[u8]) -> Result<(), Failed>
        ensures ok { OnOk result (Sends server.now port bytes.now (told self.old) (told self.new)) }
        ensures kept { OnErr result (told self.new ≡ told self.old) }
        ensures cause { HasCause (faults self.old) (faults self.new) result };
}
