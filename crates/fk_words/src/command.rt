ghost use Rattle.std.specs.Prelude.{◌≡◌, ◌≤◌, true};
ghost use Rattle.std.specs.Option.{ForSome};
ghost use Rattle.fk_values.specs.Values.{is_host};
ghost use Rattle.fk_base.specs.declared.moment.TheConstants.{LONGEST_TIME};

use fk_base::{Bytes, Ip4, Pairs};

/// What a command line asks for.
#[derive(Drop)]
pub enum Command {
    /// Serve packets that come over the network.
    Serve {
        /// The name of the configuration's file.
        conf: Bytes,
        /// The name of the access file.
        access: Bytes,
        /// The most packets to take.
        packets: Option<u64>,
        /// The most turns to take.
        turns: Option<u64>,
        verbose: bool,
    },
    /// Show what packets from standard input would start.
    Trial {
        conf: Bytes,
        access: Bytes,
        quiet: bool,
        verbose: bool,
    },
    /// Show the live records.
    List,
    /// Send a packet.
    Send(SendWords),
    /// Show new keys.
    KeyGen,
    /// Make datagrams from lines, by a stanza of the client's file.
    Encode {
        /// The name of the client's file.
        file: Bytes,
        /// The name of the stanza.
        name: Bytes,
    },
    /// Open the datagrams of lines, by a stanza of the client's file.
    Decode {
        file: Bytes,
        name: Bytes,
    },
    /// Show the records of the journal.
    Journal,
    /// Make so many lines of a trial: 1 to 100000.
    Generate {
        count: u64,
    },
    Help,
    Version,
}

/// What the words of a client that is to send a packet say.
#[derive(Drop)]
pub struct SendWords {
    /// The name of the stanza.
    pub name: Bytes,
    /// The name of the client's file.
    pub file: Bytes,
    pub pairs: Option<Pairs>,
    /// The address to ask for; 0.0.0.0 is the one that the packet comes from.
    pub allow: Option<Ip4>,
    /// 1 to 255 bytes without a blank.
    pub server: Option<Bytes>,
    pub port: Option<u16>,
    /// How long to ask for, in seconds: 1 to 604800.
    pub seconds: Option<u32>,
    /// Whether the datagram is shown and not sent.
    pub print: bool,
    ghost server_is_host: { ForSome server (λ s. is_host s ≡ true) },
    ghost has_port: { ForSome port (λ p. 1 ≤ p) },
    ghost seconds_within: { ForSome seconds (λ s. (1 ≤ s) × (s ≤ LONGEST_TIME)) },
}
