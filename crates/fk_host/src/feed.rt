//! Where turns come from: a datagram with its source, or nothing but the time.
ghost use Rattle.std.specs.Prelude.{◌≡◌, ◌≤◌, ℕ, Bool, Option, false, IfOk, OnOk, OnErr};
ghost use Rattle.fk_host.specs.Count.{HasCause};
ghost use Rattle.fk_host.specs.Feed.{Given, datagram_len, turns_of, GivesTurns, OpensAt, is_end};

use fk_base::{Failed, Ip4, Moment};

/// How many bytes of a datagram a feed gives, one more than the longest that is a packet. Of a longer one it gives the first of them.
pub const DATAGRAM_ROOM: usize = 1501;

/// What a turn was taken for.
#[derive(Clone, Copy, Debug, PartialEq, Eq)]
pub enum Input {
    /// A datagram of this source. Its bytes stand at the front of the buffer.
    Datagram { source: Ip4, len: usize },
    /// Nothing but the time has passed.
    Quiet,
    /// No turn comes any more.
    End,
}

/// A turn, with the moment at which it was taken.
#[derive(Clone, Copy, Debug, PartialEq, Eq)]
pub struct Turn {
    pub moment: Moment,
    pub input: Input,
}

/// Where turns come from.
pub trait Feed {
    /// How often the feed has failed. It never falls.
    ghost faults: { Self → ℕ };

    /// The turns that it has given, and its port, where it tells.
    ghost told: { Self → Option Given };

    /// Whether its last call has answered that no turn comes any more. Every feed says this.
    ghost has_ended: { Self → Bool };

    /// Listens at the port of the Internet Protocol's UDP.
    fn open(&mut self, port: u16) -> Result<(), Failed>
        ensures ok { OnOk result (OpensAt port (told self.old) (told self.new)) }
        ensures kept { OnErr result (told self.new ≡ told self.old) }
        ensures end { has_ended self.new ≡ false }
        ensures cause { HasCause (faults self.old) (faults self.new) result };

    /// Gives the next turn.
    fn next(&mut self, buf: &mut [u8; DATAGRAM_ROOM]) -> Result<Turn, Failed>
        ensures within { IfOk result (λ turn. datagram_len turn.input ≤ DATAGRAM_ROOM) }
        ensures given { IfOk result (λ turn. GivesTurns (turns_of turn buf.new) (told self.old) (told self.new)) }
        ensures kept { OnErr result (told self.new ≡ told self.old) }
        ensures end { has_ended self.new ≡ is_end result }
        ensures cause { HasCause (faults self.old) (faults self.new) result };
}
