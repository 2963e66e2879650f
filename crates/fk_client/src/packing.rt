ghost use Rattle.std.specs.Prelude.{◌≡◌, IfOk, drop, take};
ghost use Rattle.fk_client.specs.Sent.{IsSent};

use crate::{Packet, Settings};
use fk_base::{Bytes, Moment, NoMemory};
use fk_fields::{Fields, Rand};
use fk_packet::pack;
use std::alloc::Global;

/// How many random bytes a packet takes: 16 for its random value and 8 for the salt.
pub const DRAWN_BYTES: usize = 24;

/// The version that a packet tells.
const VERSION: &[u8] = b"3.0.0";

/// The packet of these settings at this moment, with these random bytes.
pub fn packet(
    alloc: Global,
    settings: Settings,
    moment: Moment,
    drawn: &[u8; DRAWN_BYTES],
) -> Result<Packet, NoMemory>
    ensures datagram { IfOk result (λ packet. IsSent settings moment drawn.now packet.datagram) }
    ensures server { IfOk result (λ packet. packet.server ≡ settings.server) }
    ensures port { IfOk result (λ packet. packet.port ≡ settings.port) }
{
    let fields = Fields {
        rand: Rand::from_bytes(random_value(drawn)),
        user: settings.user,
        stamp: moment.get(),
        version: Bytes::copy(alloc, VERSION)?,
        ask: settings.ask,
        kind: settings.kind,
    };
    let datagram = pack(alloc, &fields, &settings.keys, salt(drawn))?;
    Ok(Packet {
        datagram,
        server: settings.server,
        port: settings.port,
    })
}

fn random_value(drawn: &[u8; DRAWN_BYTES]) -> [u8; 16]
    ensures { result ≡ take 16 drawn.now }
{
    let mut bytes = [0; 16];
    bytes.copy_from_slice(&drawn[..16]);
    bytes
}

fn salt(drawn: &[u8; DRAWN_BYTES]) -> [u8; 8]
    ensures { result ≡ drop 16 drawn.now }
{
    let mut bytes = [0; 8];
    bytes.copy_from_slice(&drawn[16..]);
    bytes
}
