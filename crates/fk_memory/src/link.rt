ghost use Rattle.std.specs.Prelude.{◌≡◌, ◌<◌, ◌≤◌, [], length, take, is_err, Some, IfOk, OnOk, OnErr};
ghost use Rattle.fk_host.specs.Count.{counted, HasCause};
ghost use Rattle.fk_host.specs.Link.{Sends};
ghost use Rattle.fk_memory.specs.Link.{fails_to_send};

use fk_base::Failed;
use fk_host::Link;
use std::marker::Model;

/// The longest datagram that a link in memory sends, in bytes.
pub const GREATEST_DATAGRAM: usize = 1500;

/// The longest name of a server that it sends to, in bytes.
pub const GREATEST_SERVER: usize = 255;

/// A link in memory. It keeps the last datagram that it has sent, in memory of its own.
#[derive(Drop)]
pub struct MemLink {
    count: u64,
    datagram: [u8; GREATEST_DATAGRAM],
    datagram_len: usize,
    server: [u8; GREATEST_SERVER],
    server_len: usize,
    port: u16,
    faults: u64,
}

impl Model for MemLink {
    ghost use Rattle.std.specs.Prelude.{◌≤◌, take};
    ghost use Rattle.fk_memory.specs.declared.link.TheConstants.{GREATEST_DATAGRAM, GREATEST_SERVER};
    ghost use Rattle.fk_memory.specs.Link.{LinkState};

    ghost Value = { LinkState };

    ghost view = { λ l. record {
      sent = record { count = l.count; datagram = take l.datagram_len l.datagram; server = take l.server_len l.server; port = l.port };
      faults = l.faults;
    } };

    ghost invariant = { λ l. (l.datagram_len ≤ GREATEST_DATAGRAM) × (l.server_len ≤ GREATEST_SERVER) };
}

impl MemLink {
    /// A link that has sent nothing.
    pub fn new() -> Self
        ensures { result ≡ record { sent = record { count = 0; datagram = []; server = []; port = 0 }; faults = 0 } }
    {
        MemLink {
            count: 0,
            datagram: [0; GREATEST_DATAGRAM],
            datagram_len: 0,
            server: [0; GREATEST_SERVER],
            server_len: 0,
            port: 0,
            faults: 0,
        }
    }

    /// How many datagrams it has sent.
    pub fn count(&self) -> u64
        ensures { result ≡ self.now.sent.count }
    {
        self.count
    }

    /// The last datagram that it has sent.
    pub fn sent(&self) -> &[u8]
        ensures { result.now ≡ self.now.sent.datagram }
    {
        &self.datagram[..self.datagram_len]
    }

    /// The server to which the last datagram went.
    pub fn server(&self) -> &[u8]
        ensures { result.now ≡ self.now.sent.server }
    {
        &self.server[..self.server_len]
    }

    /// The port to which the last datagram went.
    pub fn port(&self) -> u16
        ensures { result ≡ self.now.sent.port }
    {
        self.port
    }
}

impl Link for MemLink {
    ghost faults = { λ l. l.faults };

    ghost told = { λ l. Some l.sent };

    fn send(&mut self, server: &[u8], port: u16, bytes: &[u8]) -> Result<(), Failed>
        ensures ok { OnOk result (Sends server.now port bytes.now (Some self.old.sent) (Some self.new.sent)) }
        ensures kept { OnErr result (Some self.new.sent ≡ Some self.old.sent) }
        ensures cause { HasCause self.old.faults self.new.faults result }
        // It fails exactly where the datagram or the server is too long, and where it can count no more.
        ensures result { is_err result ≡ fails_to_send self.old server.now bytes.now }
    {
        if bytes.len() > GREATEST_DATAGRAM
            || server.len() > GREATEST_SERVER
            || self.count == u64::MAX
        {
            self.faults = self.faults.saturating_add(1);
            return Err(Failed);
        }
        self.datagram_len = bytes.len();
        self.datagram[..bytes.len()].copy_from_slice(bytes);
        self.server_len = server.len();
        self.server[..server.len()].copy_from_slice(server);
        self.port = port;
        self.count += 1;
        Ok(())
    }
}
